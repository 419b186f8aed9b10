// The numbers of a book's file. Each function is total, as its definition is: a byte past the end counts as 0.
ghost use Rattle.std.specs.Prelude.{◌≡◌, ◌+◌, ◌^◌, ◌<◌, ◌≤◌, MatchOption};
ghost use Rattle.book.specs.Counting.{total};
ghost use Rattle.book.specs.Layout.{word, entry_word, header, raw_node, name_bytes, counts_of, method_nodes, class_at, field_at};
ghost use Rattle.book.specs.Strips.{command_strip, returned_strip, top_strip, method_at};

use crate::entry::{Class, Counts, Field, Method, Strip};
use crate::node::{Raw, Sort, Type};

// The places of the header's numbers.
pub(crate) const VERSION: u16 = 0;

pub(crate) const CLASSES: u16 = 1;

pub(crate) const FIELDS: u16 = 2;

pub(crate) const METHODS: u16 = 3;

pub(crate) const NODES: u16 = 4;

pub(crate) const NAMES: u16 = 5;

pub(crate) const CLASS_PART: u16 = 6;

pub(crate) const FIELD_PART: u16 = 7;

pub(crate) const METHOD_PART: u16 = 8;

pub(crate) const NODE_PART: u16 = 9;

pub(crate) const NAME_PART: u16 = 10;

pub(crate) const TOP: u16 = 11;

// How many bytes an entry has.
pub(crate) const CLASS_SIZE: u16 = 6;

pub(crate) const FIELD_SIZE: u16 = 4;

pub(crate) const METHOD_SIZE: u16 = 10;

pub(crate) const NODE_SIZE: u16 = 8;

// The number at a byte offset, low byte first; a byte past the end counts as 0.
#[tactic(auto, using(std::proofs::lemmas::Grind::common_steps, std::proofs::lemmas::List::get_or_past), unfolding(crate::specs::Layout::word))]
pub fn word_at(bytes: &[u8], offset: usize) -> u16
    ensures { result ≡ word bytes.now offset }
{
    match bytes.get(offset..) {
        Some([low, high, ..]) => u16::from_le_bytes([*low, *high]),
        Some([low]) => u16::from(*low),
        _ => 0,
    }
}

// The number at a header place.
pub(crate) fn header_at(bytes: &[u8], place: u16) -> u16
    ensures { result ≡ header bytes.now place }
{
    word_at(bytes, 2 * usize::from(place))
}

pub(crate) fn counts_of(bytes: &[u8]) -> Counts
    ensures { result ≡ counts_of bytes.now }
{
    Counts {
        classes: header_at(bytes, CLASSES),
        fields: header_at(bytes, FIELDS),
        methods: header_at(bytes, METHODS),
        nodes: header_at(bytes, NODES),
        names: header_at(bytes, NAMES),
    }
}

// A part of the file: entries of one size, from an offset on.
#[derive(Clone, Copy)]
pub(crate) struct Entries<'a> {
    bytes: &'a [u8],
    offset: u16,
    size: u16,
}

impl<'a> Entries<'a> {
    // The entries of a part, by the header place of its offset and the size of an entry.
    pub(crate) fn new(bytes: &'a [u8], part: u16, size: u16) -> Self
        ensures bytes { result.bytes.now ≡ bytes.now }
        ensures offset { result.offset ≡ header bytes.now part }
        ensures size { result.size ≡ size }
    {
        let offset = header_at(bytes, part);
        Entries {
            bytes,
            offset,
            size,
        }
    }

    // The number that entry `i` begins with.
    pub(crate) fn first(&self, i: u16) -> u16
        ensures { result ≡ entry_word self.now.bytes.now self.now.offset self.now.size i }
    {
        self.at(0, i)
    }

    // The number at a place within entry `i`.
    pub(crate) fn at(&self, place: u16, i: u16) -> u16
        ensures { result ≡ entry_word self.now.bytes.now (self.now.offset + place) self.now.size i }
    {
        let offset = usize::from(self.offset) + usize::from(place);
        word_at(self.bytes, offset + usize::from(self.size) * usize::from(i))
    }

    // The sum of the numbers at a place within the first `n` entries.
    #[tactic(auto, using(crate::proofs::Counts::total_more))]
    pub(crate) fn sum(&self, place: u16, n: u16) -> u32
        ensures { result ≡ total (entry_word self.now.bytes.now (self.now.offset + place) self.now.size) n }
    {
        // A loop, since of an iterator's `sum` it was not proved that the total fits.
        let mut sum = 0;
        for i in 0..n {
            sum += u32::from(self.at(place, i));
        }
        sum
    }
}

// Node `k` as it stands in the file.
pub(crate) fn raw_node(bytes: &[u8], k: u16) -> Raw
    ensures { result ≡ raw_node bytes.now k }
{
    let nodes = Entries::new(bytes, NODE_PART, NODE_SIZE);
    Raw {
        kind: nodes.first(k),
        a: nodes.at(2, k),
        b: nodes.at(4, k),
        d: nodes.at(6, k),
    }
}

// The bytes from the name part on.
pub(crate) fn name_bytes<'a>(bytes: &'a [u8]) -> &'a [u8]
    ensures { result.now ≡ name_bytes bytes.now }
{
    let start = usize::from(header_at(bytes, NAME_PART));
    bytes.get(start..).unwrap_or(&[])
}

// How many nodes the strips of the first `m` methods have together.
#[tactic(auto, using(crate::proofs::Counts::total_strips))]
pub(crate) fn nodes_before(bytes: &[u8], m: u16) -> usize
    ensures sum { result ≡ total (method_nodes bytes.now) m }
    ensures bound { result < 2 ^ 34 }
{
    let methods = Entries::new(bytes, METHOD_PART, METHOD_SIZE);
    methods.sum(6, m) as usize + methods.sum(8, m) as usize
}

// A place as a number of the file, where it is below a count.
pub(crate) fn below(place: usize, count: u16) -> Option<u16>
    ensures { MatchOption result (count ≤ place) (λ n. (n ≡ place) × (place < count)) }
{
    u16::try_from(place).ok().filter(|n| *n < count)
}

pub(crate) fn class_at(bytes: &[u8], i: usize) -> Option<Class>
    ensures { result ≡ class_at bytes.now i }
{
    let i = below(i, header_at(bytes, CLASSES))?;
    let classes = Entries::new(bytes, CLASS_PART, CLASS_SIZE);
    Some(Class {
        name: classes.first(i),
        first_field: classes.sum(2, i),
        fields: classes.at(2, i),
        first_method: classes.sum(4, i),
        methods: classes.at(4, i),
    })
}

pub(crate) fn field_at(bytes: &[u8], j: usize) -> Option<Field>
    ensures { result ≡ field_at bytes.now j }
{
    let j = below(j, header_at(bytes, FIELDS))?;
    let fields = Entries::new(bytes, FIELD_PART, FIELD_SIZE);
    Some(Field {
        name: fields.first(j),
        typed: Type::from(fields.at(2, j)),
    })
}

// The strips of method `m`, its command's and its returned expression's, from the method's first node on.
pub(crate) fn method_strips(bytes: &[u8], m: u16, first: usize) -> (Strip, Strip)
    requires first { first ≡ total (method_nodes bytes.now) m }
    requires fits { first < 2 ^ 34 }
    ensures command { result.0 ≡ command_strip bytes.now m }
    ensures returned { result.1 ≡ returned_strip bytes.now m }
{
    let methods = Entries::new(bytes, METHOD_PART, METHOD_SIZE);
    let command = Strip {
        first,
        nodes: methods.at(6, m),
        sort: Sort::Command,
    };
    let returned = Strip {
        first: command.first + usize::from(command.nodes),
        nodes: methods.at(8, m),
        sort: Sort::Expression,
    };
    (command, returned)
}

// The strip of the top-level expression.
pub(crate) fn top_strip(bytes: &[u8]) -> Strip
    ensures { result ≡ top_strip bytes.now }
{
    Strip {
        first: nodes_before(bytes, header_at(bytes, METHODS)),
        nodes: header_at(bytes, TOP),
        sort: Sort::Expression,
    }
}

pub(crate) fn method_at(bytes: &[u8], m: usize) -> Option<Method>
    ensures { result ≡ method_at bytes.now m }
{
    let m = below(m, header_at(bytes, METHODS))?;
    let methods = Entries::new(bytes, METHOD_PART, METHOD_SIZE);
    let (command, returned) = method_strips(bytes, m, nodes_before(bytes, m));
    Some(Method {
        name: methods.first(m),
        result: Type::from(methods.at(2, m)),
        parameter: Type::from(methods.at(4, m)),
        command,
        returned,
    })
}
