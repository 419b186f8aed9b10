// What a step comes to, before it is carried out.
use machine::state::{Around, End, Hand, Stage};
use store::Value;

// What the top row makes of a value, or of done.
#[derive(Clone, Copy)]
pub enum Move {
    // The row is taken off, with this in hand.
    TakeOff(Hand),
    // The row comes to a stage, and the hand goes to a node.
    Stay {
        stage: Stage,
        node: u16,
    },
    // A call's row keeps object and parameter; the target and the argument take their place, and the hand goes to the
    // method's command.
    Enter {
        object: u32,
        argument: Value,
        command: u16,
    },
    // A call's row is taken off, with its value still in hand, and object and parameter as it kept them.
    Leave {
        kept: Around,
        value: Value,
    },
    // A value is written into a cell, and the row is taken off.
    Write {
        object: u32,
        place: usize,
        value: Value,
    },
    // The run ends.
    Ends(End),
}

// What a step came to, where a line applies.
#[derive(Clone, Copy)]
pub enum Stepped {
    // a line: hand, and object and parameter, are now these
    Next(Hand, Around),
    // an end, with all as before
    Ends(End),
    // no rows were left: no step
    Finished,
}
