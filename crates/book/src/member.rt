// A node of the file against the node rules. It stands in a file of its own, so that its meaning can be imported where it
// is used.
ghost use Rattle.std.specs.Prelude.{◌≡◌, ◌<◌, min, Some};
ghost use Rattle.book.specs.Layout.{raw_node, node_count};
ghost use Rattle.book.specs.Kinds.{decoded};
ghost use Rattle.book.specs.Strips.{strip_of};
ghost use Rattle.book.specs.Faults.{lies_right, part_right, parts_right, use_right, uses, shape_right, wrong_node};

use crate::entry::Strip;
use crate::layout::{CLASSES, NAMES, header_at, raw_node};
use crate::node::{Node, Part, Parts, Raw};

// A node of the file, and the strip that holds it.
#[derive(Clone, Copy)]
pub(crate) struct Member<'a> {
    pub(crate) bytes: &'a [u8],
    pub(crate) strip: Strip,
    pub(crate) node: u16,

    // It is the strip in which the node stands.
    pub ghost held: { strip_of bytes.now node ≡ strip },
}

impl Member<'_> {
    // The node as it stands in the file.
    pub(crate) fn raw(&self) -> Raw
        ensures { result ≡ raw_node self.now.bytes.now self.now.node }
    {
        raw_node(self.bytes, self.node)
    }

    // Whether a part lies right: in the node's strip, before the node.
    pub(crate) fn lies_right(&self, part: u16) -> bool
        ensures { result ≡ lies_right self.now.bytes.now self.now.node part }
    {
        self.strip.holds(part) && part < self.node
    }

    fn is_part_right(&self, part: Option<Part>) -> bool
        ensures { result ≡ part_right self.now.bytes.now self.now.node part }
    {
        match part {
            None => true,
            Some(Part { node, sort }) => {
                self.lies_right(node) && sort.includes(raw_node(self.bytes, node).kind)
            }
        }
    }

    fn are_parts_right(&self, parts: Parts) -> bool
        ensures { result ≡ parts_right self.now.bytes.now self.now.node parts }
    {
        self.is_part_right(parts.a) && self.is_part_right(parts.b) && self.is_part_right(parts.d)
    }

    // Whether the node is of a kind, and its numbers are as its kind asks.
    fn is_shape_right(&self) -> bool
        ensures { result ≡ shape_right self.now.bytes.now self.now.node (decoded (raw_node self.now.bytes.now self.now.node)) }
    {
        let raw = self.raw();
        let Ok(node) = Node::try_from(raw) else {
            return false;
        };
        let classes = header_at(self.bytes, CLASSES);
        let names = header_at(self.bytes, NAMES);
        node.are_numbers_right(raw, classes, names) && self.are_parts_right(node.parts())
    }

    // Whether the node is of its strip's sort, if it is the root, and else a part exactly once.
    fn is_use_right(&self, mark: u8) -> bool
        requires { mark ≡ min (uses self.now.bytes.now self.now.node) 255 }
        ensures { result ≡ use_right self.now.bytes.now self.now.node }
    {
        if self.strip.has_root(self.node) {
            self.strip.sort.includes(self.raw().kind)
        } else {
            mark == 1
        }
    }

    // Whether the node is against the node rules, by how often it is a part, up to 255 times.
    pub(crate) fn is_wrong(&self, mark: u8) -> bool
        requires there { self.now.node < node_count self.now.bytes.now }
        requires counted { mark ≡ min (uses self.now.bytes.now self.now.node) 255 }
        ensures { result ≡ wrong_node self.now.bytes.now self.now.node }
    {
        !self.is_shape_right() || !self.is_use_right(mark)
    }
}
