// What the machine holds while it works a book.
ghost use Rattle.std.specs.Prelude.{◌≡◌};

use store::Value;

// The current object and parameter; none stand at the top.
#[derive(Clone, Copy, PartialEq, Eq, Debug)]
pub struct Around {
    pub object: Option<u32>,
    pub parameter: Option<Value>,
}

// What is in hand: a node to go to, a value, or done.
#[derive(Clone, Copy, PartialEq, Eq, Debug)]
pub enum Hand {
    Go(u16),
    Have(Value),
    Done,
}

// The stages of a row, with what each keeps. `Turn` is the second stage of a while, which keeps nothing.
#[derive(Clone, Copy, PartialEq, Eq, Debug)]
pub enum Stage {
    First,
    Second(Value),
    Turn,
    Third(Around),
    Fourth(Around),
}

// A row: the node that waits, and its stage.
#[derive(Clone, Copy, PartialEq, Eq, Debug)]
pub struct Row {
    pub node: u16,
    pub stage: Stage,
}

// How a run stands: not ended; finished; or ended by a cause, at a node.
// `Unfinished` is a case and not a `None` around the others, since all seven are told by one number each.
#[derive(Clone, Copy, PartialEq, Eq, Debug)]
pub enum End {
    Unfinished,
    Finished,
    // the target of a field read, a call or a field write is null
    NullTarget(u16),
    // there is no such reading
    NoReading(u16),
    // a literal, a difference or a reading beyond the number rule's ends
    BeyondEnds(u16),
    // no room in the store for a new record
    NoRoom(u16),
    // no place for a row
    NoPlace(u16),
}

impl End {
    ghost use Rattle.machine.specs.Ends.{end_number, ended_at};

    // The number by which the end is told: 0 is finished, 1 not ended yet.
    pub fn number(self) -> u16
        ensures { result ≡ end_number self }
    {
        match self {
            End::Finished => 0,
            End::Unfinished => 1,
            End::NullTarget(_) => 31,
            End::NoReading(_) => 32,
            End::BeyondEnds(_) => 33,
            End::NoRoom(_) => 34,
            End::NoPlace(_) => 35,
        }
    }

    // The node at which a run ended by a cause.
    pub fn node(self) -> Option<u16>
        ensures { result ≡ ended_at self }
    {
        match self {
            End::Finished | End::Unfinished => None,
            End::NullTarget(node)
            | End::NoReading(node)
            | End::BeyondEnds(node)
            | End::NoRoom(node)
            | End::NoPlace(node) => Some(node),
        }
    }
}
