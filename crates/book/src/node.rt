// The nodes of a book: the sixteen kinds, each with its numbers by name. A part is given by its node number,
// counted through the whole node part of the file; a name by its name number, a class by its class number.
#[derive(Clone, Copy, PartialEq, Eq, Debug, Default)]
pub enum Node {
    Literal {
        value: i32,
    },
    Minus {
        left: u16,
        right: u16,
    },
    Less {
        left: u16,
        right: u16,
    },
    Equal {
        left: u16,
        right: u16,
    },
    IsNull {
        operand: u16,
    },
    This,
    Parameter,
    FieldRead {
        target: u16,
        name: u16,
    },
    Call {
        target: u16,
        argument: u16,
        name: u16,
    },
    New {
        class: u16,
    },
    Reading {
        index: u16,
    },
    FieldWrite {
        target: u16,
        value: u16,
        name: u16,
    },
    Sequence {
        first: u16,
        second: u16,
    },
    If {
        test: u16,
        then: u16,
        otherwise: u16,
    },
    While {
        test: u16,
        body: u16,
    },
    #[default]
    Skip,
}

// A type: int, boolean, or a class by its class number.
#[derive(Clone, Copy, PartialEq, Eq, Debug, Default)]
pub enum Type {
    #[default]
    Int,
    Boolean,
    Class(u16),
}

// The type that a number of the file stands for.
impl From<u16> for Type {
    ghost use Rattle.std.specs.Prelude.{◌≡◌};
    ghost use Rattle.book.specs.Layout.{typed};

    ghost from_gives = { λ number result. result ≡ typed number };

    fn from(number: u16) -> Type {
        match number {
            0 => Type::Int,
            1 => Type::Boolean,
            _ => Type::Class(number - 2),
        }
    }
}

// A node as it stands in the file: a kind and three numbers.
#[derive(Clone, Copy)]
pub struct Raw {
    pub kind: u16,
    pub a: u16,
    pub b: u16,
    pub d: u16,
}

// A node's kind is none of the sixteen.
#[derive(Clone, Copy, PartialEq, Eq, Debug)]
pub struct UnknownKind(pub u16);

// What a node is: an expression, which has a value, or a command.
#[derive(Clone, Copy, PartialEq, Eq)]
pub enum Sort {
    Expression,
    Command,
}

// A part of a node: the node it refers to, and the sort that this must be of.
#[derive(Clone, Copy)]
pub struct Part {
    pub node: u16,
    pub sort: Sort,
}

// The parts of a node, by the number that names them.
#[derive(Clone, Copy)]
pub struct Parts {
    pub a: Option<Part>,
    pub b: Option<Part>,
    pub d: Option<Part>,
}
