// The faults of typing, each with its number and its place.
ghost use Rattle.std.specs.Prelude.{◌≡◌};
ghost use Rattle.checker.specs.Causes.{refusal};

use book::fault::Refusal;

// Why a book has no type.
#[derive(Clone, Copy, PartialEq, Eq, Debug)]
pub enum TypeFault {
    // two classes, or two fields or two methods of a class, by one name; at one of the entries
    Repeated(usize),
    // a part's type is not what the kind needs; this and the following at a node
    Part(usize),
    // no such method, no such field, or a field of another class
    Member(usize),
    // an argument or a written value of another type
    Argument(usize),
    // this or parameter at the top
    Top(usize),
    // the returned type differs, at the root
    Returned(usize),
}

impl From<TypeFault> for Refusal {
    ghost from_gives = { λ fault r. r ≡ refusal fault };

    // The number and the place under which the fault is refused.
    fn from(fault: TypeFault) -> Refusal {
        let (number, place) = match fault {
            TypeFault::Repeated(entry) => (11, entry),
            TypeFault::Part(node) => (12, node),
            TypeFault::Member(node) => (13, node),
            TypeFault::Argument(node) => (14, node),
            TypeFault::Top(node) => (15, node),
            TypeFault::Returned(node) => (16, node),
        };
        Refusal { number, place }
    }
}
