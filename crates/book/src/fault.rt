// Why a file is no book.
ghost use Rattle.std.specs.Prelude.{◌≡◌, Some};
ghost use Rattle.book.specs.Faults.{refusal, refusal_text};

use std::fmt;

#[derive(Clone, Copy, PartialEq, Eq, Debug)]
pub enum Fault {
    // under 24 bytes, or another version
    Version,
    // a count above its limit, or an empty top-level expression, at a header place
    Limit(usize),
    // an offset that is not the sum of what precedes, or names beyond the end, at a header place
    Offset(usize),
    // a name that is faulty, cut or the same as an earlier one; at the number after the last, bytes that follow it
    Name(usize),
    // a total that is not the count, at the count's header place
    Total(usize),
    // an entry with a name or a type that is not there, or with an empty strip
    Entry(usize),
    // a node against the node rules, or not exactly once a part
    Node(usize),
}

// How a refusal is told: by its number and its place.
#[derive(Clone, Copy, PartialEq, Eq, Debug)]
pub struct Refusal {
    pub number: u16,
    pub place: usize,
}

impl From<Fault> for Refusal {
    ghost from_gives = { λ fault r. r ≡ refusal fault };

    // The number and the place under which the fault is refused.
    fn from(fault: Fault) -> Refusal {
        let (number, place) = match fault {
            Fault::Version => (1, 0),
            Fault::Limit(place) => (2, place),
            Fault::Offset(place) => (3, place),
            Fault::Name(name) => (4, name),
            Fault::Total(place) => (5, place),
            Fault::Entry(entry) => (6, entry),
            Fault::Node(node) => (7, node),
        };
        Refusal { number, place }
    }
}

impl fmt::Display for Refusal {
    ghost output = { λ refusal. Some (refusal_text refusal) };

    fn fmt<W: fmt::Write>(&self, f: &mut fmt::Formatter<W>) -> fmt::Result {
        let Refusal { number, place } = *self;
        write!(f, "refused {number} at {place}")
    }
}
