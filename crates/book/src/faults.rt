// The faults of a file: a look for each kind, once none of the kinds before it is there.
ghost use Rattle.std.specs.Prelude.{◌≡◌, [], ◌∷◌};
ghost use Rattle.std.specs.Result.{result_err};
ghost use Rattle.book.specs.Counting.{first_place};
ghost use Rattle.book.specs.Faults.{FreeBelow, Looks, limits, offsets, totals, no_name, no_type, wrong_class, wrong_field, wrong_method, wrong_entry};

use crate::fault::Fault;
use crate::layout::{
    CLASS_PART, CLASS_SIZE, CLASSES, Entries, FIELD_PART, FIELD_SIZE, FIELDS, METHOD_PART,
    METHOD_SIZE, METHODS, NAME_PART, NAMES, NODE_PART, NODES, TOP, VERSION, header_at, name_bytes,
    nodes_before,
};
use crate::names::check_names_in;

// Under 24 bytes, or another version.
#[tactic(auto, using(crate::proofs::Ranks::version_free, crate::proofs::Ranks::version_first))]
pub(crate) fn check_version(bytes: &[u8]) -> Result<(), Fault>
    ensures { Looks bytes.now 1 result }
{
    if bytes.len() < 24 || header_at(bytes, VERSION) != 1 {
        Err(Fault::Version)
    } else {
        Ok(())
    }
}

// A header place that is wrong.
fn check_place(place: u16, is_wrong: bool) -> Result<(), usize>
    ensures { result_err result ≡ first_place ((place, is_wrong) ∷ []) }
{
    if is_wrong {
        Err(usize::from(place))
    } else {
        Ok(())
    }
}

// The first header place whose count is above its limit, or the top-level expression's where it is empty.
fn check_counts(bytes: &[u8]) -> Result<(), usize>
    ensures { result_err result ≡ first_place (limits bytes.now) }
{
    check_place(CLASSES, header_at(bytes, CLASSES) > 64)?;
    check_place(FIELDS, header_at(bytes, FIELDS) > 512)?;
    check_place(METHODS, header_at(bytes, METHODS) > 256)?;
    check_place(NODES, header_at(bytes, NODES) > 4000)?;
    check_place(NAMES, header_at(bytes, NAMES) > 512)?;
    check_place(TOP, header_at(bytes, TOP) == 0)
}

// A count above its limit, or an empty top-level expression, at its header place.
#[tactic(auto, using(crate::proofs::Ranks::limits_free, crate::proofs::Ranks::limit_first))]
pub(crate) fn check_limits(bytes: &[u8]) -> Result<(), Fault>
    requires { FreeBelow bytes.now 2 }
    ensures { Looks bytes.now 2 result }
{
    check_counts(bytes).map_err(Fault::Limit)
}

// The first header place whose offset is not the sum of what precedes, or the names' where they lie beyond the end.
fn check_parts(bytes: &[u8]) -> Result<(), usize>
    ensures { result_err result ≡ first_place (offsets bytes.now) }
{
    let part_at = |place| usize::from(header_at(bytes, place));
    let fields = 24 + 6 * part_at(CLASSES);
    let methods = fields + 4 * part_at(FIELDS);
    let nodes = methods + 10 * part_at(METHODS);
    let names = nodes + 8 * part_at(NODES);
    check_place(CLASS_PART, part_at(CLASS_PART) != 24)?;
    check_place(FIELD_PART, part_at(FIELD_PART) != fields)?;
    check_place(METHOD_PART, part_at(METHOD_PART) != methods)?;
    check_place(NODE_PART, part_at(NODE_PART) != nodes)?;
    let is_wrong = part_at(NAME_PART) != names || names > bytes.len();
    check_place(NAME_PART, is_wrong)
}

// An offset that is not the sum of what precedes, or names beyond the end, at its header place.
#[tactic(auto, using(crate::proofs::Ranks::offsets_free, crate::proofs::Ranks::offset_first))]
pub(crate) fn check_offsets(bytes: &[u8]) -> Result<(), Fault>
    requires { FreeBelow bytes.now 3 }
    ensures { Looks bytes.now 3 result }
{
    check_parts(bytes).map_err(Fault::Offset)
}

// A name that is faulty, cut or the same as an earlier one; at the number after the last, bytes that follow it.
#[tactic(auto, using(crate::proofs::Ranks::names_free, crate::proofs::Ranks::name_first))]
pub(crate) fn check_names(bytes: &[u8]) -> Result<(), Fault>
    requires { FreeBelow bytes.now 4 }
    ensures { Looks bytes.now 4 result }
{
    let count = usize::from(header_at(bytes, NAMES));
    check_names_in(name_bytes(bytes), count).map_err(Fault::Name)
}

// The first header place of a count that the entries' own counts do not add up to: no sum is made after it.
fn check_sums(bytes: &[u8]) -> Result<(), usize>
    ensures { result_err result ≡ first_place (totals bytes.now) }
{
    let classes = Entries::new(bytes, CLASS_PART, CLASS_SIZE);
    let count = header_at(bytes, CLASSES);
    let fields = classes.sum(2, count);
    check_place(FIELDS, fields != u32::from(header_at(bytes, FIELDS)))?;
    let methods = classes.sum(4, count);
    check_place(METHODS, methods != u32::from(header_at(bytes, METHODS)))?;
    let nodes = nodes_before(bytes, header_at(bytes, METHODS)) + usize::from(header_at(bytes, TOP));
    check_place(NODES, nodes != usize::from(header_at(bytes, NODES)))
}

// A count that the entries' own counts do not add up to, at its header place.
#[tactic(auto, using(crate::proofs::Ranks::totals_free, crate::proofs::Ranks::total_first))]
pub(crate) fn check_totals(bytes: &[u8]) -> Result<(), Fault>
    requires { FreeBelow bytes.now 5 }
    ensures { Looks bytes.now 5 result }
{
    check_sums(bytes).map_err(Fault::Total)
}

fn is_no_name(bytes: &[u8], name: u16) -> bool
    ensures { result ≡ no_name bytes.now name }
{
    header_at(bytes, NAMES) <= name
}

fn is_no_type(bytes: &[u8], number: u16) -> bool
    ensures { result ≡ no_type bytes.now number }
{
    2 + u32::from(header_at(bytes, CLASSES)) <= u32::from(number)
}

fn is_class_wrong(bytes: &[u8], i: u16) -> bool
    ensures { result ≡ wrong_class bytes.now i }
{
    is_no_name(bytes, Entries::new(bytes, CLASS_PART, CLASS_SIZE).first(i))
}

fn is_field_wrong(bytes: &[u8], j: u16) -> bool
    ensures { result ≡ wrong_field bytes.now j }
{
    let fields = Entries::new(bytes, FIELD_PART, FIELD_SIZE);
    is_no_name(bytes, fields.first(j)) || is_no_type(bytes, fields.at(2, j))
}

fn is_method_wrong(bytes: &[u8], m: u16) -> bool
    ensures { result ≡ wrong_method bytes.now m }
{
    let methods = Entries::new(bytes, METHOD_PART, METHOD_SIZE);
    is_no_name(bytes, methods.first(m))
        || is_no_type(bytes, methods.at(2, m))
        || is_no_type(bytes, methods.at(4, m))
        || methods.at(6, m) == 0
        || methods.at(8, m) == 0
}

fn is_entry_wrong(bytes: &[u8], entry: usize) -> bool
    ensures { result ≡ wrong_entry bytes.now entry }
{
    let fields = usize::from(header_at(bytes, CLASSES));
    let methods = fields + usize::from(header_at(bytes, FIELDS));
    let end = methods + usize::from(header_at(bytes, METHODS));
    if entry < fields {
        is_class_wrong(bytes, entry as u16)
    } else if entry < methods {
        is_field_wrong(bytes, (entry - fields) as u16)
    } else {
        entry < end && is_method_wrong(bytes, (entry - methods) as u16)
    }
}

// An entry with a name or a type that is not there, or with an empty strip.
#[tactic(auto, using(crate::proofs::Ranks::entries_free, crate::proofs::Ranks::entry_first))]
pub(crate) fn check_entries(bytes: &[u8]) -> Result<(), Fault>
    requires { FreeBelow bytes.now 6 }
    ensures { Looks bytes.now 6 result }
{
    let entries = usize::from(header_at(bytes, CLASSES))
        + usize::from(header_at(bytes, FIELDS))
        + usize::from(header_at(bytes, METHODS));
    for entry in 0..entries {
        if is_entry_wrong(bytes, entry) {
            return Err(Fault::Entry(entry));
        }
    }
    Ok(())
}
