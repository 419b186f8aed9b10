// The entries of a book, as they stand in the file.
use crate::node::{Sort, Type};

// How many classes, fields, methods, nodes and names a book has.
#[derive(Clone, Copy)]
pub struct Counts {
    pub classes: u16,
    pub fields: u16,
    pub methods: u16,
    pub nodes: u16,
    pub names: u16,
}

// A class: its name number, and which fields and methods are its own.
#[derive(Clone, Copy, Default)]
pub struct Class {
    pub name: u16,
    pub first_field: u32,
    pub fields: u16,
    pub first_method: u32,
    pub methods: u16,
}

// A field: its name number and its type.
#[derive(Clone, Copy, Default)]
pub struct Field {
    pub name: u16,
    pub typed: Type,
}

// A strip: a stretch of nodes, whose last node, the root, is of a sort.
#[derive(Clone, Copy)]
pub struct Strip {
    pub first: usize,
    pub nodes: u16,
    pub sort: Sort,
}

impl Strip {
    ghost use Rattle.std.specs.Prelude.{◌≡◌};
    ghost use Rattle.book.specs.Strips.{holds_node, is_root};

    // Whether a node is in the strip.
    pub(crate) fn holds(self, node: u16) -> bool
        ensures { result ≡ holds_node self node }
    {
        let (node, nodes) = (usize::from(node), usize::from(self.nodes));
        self.first <= node && node - self.first < nodes
    }

    // Whether a node is the strip's root, its last node.
    pub(crate) fn has_root(self, node: u16) -> bool
        ensures { result ≡ is_root self node }
    {
        let next = usize::from(node) + 1;
        self.first <= next && next - self.first == usize::from(self.nodes)
    }
}

// A method: its name number, its types, and its two strips.
#[derive(Clone, Copy)]
pub struct Method {
    pub name: u16,
    pub result: Type,
    pub parameter: Type,
    pub command: Strip,
    pub returned: Strip,
}
