// The kinds of nodes: from numbers to a node, and what a node's numbers name.
ghost use Rattle.std.specs.Prelude.{◌≡◌, ◌+◌, ◌*◌, Some, None, MatchResult};
ghost use Rattle.book.specs.Kinds.{signed32, decoded, of_sort, parts, numbers_right};

use crate::node::Sort::{Command, Expression};
use crate::node::{Node, Part, Parts, Raw, Sort, UnknownKind};

// The number of 32 bits, two's complement, that two halves make: low + 65,536·high.
pub fn signed_number(low: u16, high: u16) -> i32
    ensures { result ≡ signed32 (low + 65536 * high) }
{
    (u32::from(low) + 65_536 * u32::from(high)).cast_signed()
}

// The node that stands in the file, if it is of one of the kinds.
impl TryFrom<Raw> for Node {
    type Error = UnknownKind;

    ghost try_from_gives = { λ raw result. MatchResult result (λ node. decoded raw ≡ Some node) (λ _. decoded raw ≡ None) };

    #[tactic(auto, unfolding(crate::specs::Kinds::decoded))]
    fn try_from(raw: Raw) -> Result<Node, UnknownKind> {
        let Raw { kind, a, b, d } = raw;
        Ok(match kind {
            0 => Node::Literal {
                value: signed_number(b, d),
            },
            1 => Node::Minus { left: a, right: b },
            2 => Node::Less { left: a, right: b },
            3 => Node::Equal { left: a, right: b },
            4 => Node::IsNull { operand: a },
            5 => Node::This,
            6 => Node::Parameter,
            7 => Node::FieldRead { target: a, name: d },
            8 => Node::Call {
                target: a,
                argument: b,
                name: d,
            },
            9 => Node::New { class: d },
            10 => Node::Reading { index: a },
            11 => Node::FieldWrite {
                target: a,
                value: b,
                name: d,
            },
            12 => Node::Sequence {
                first: a,
                second: b,
            },
            13 => Node::If {
                test: a,
                then: b,
                otherwise: d,
            },
            14 => Node::While { test: a, body: b },
            15 => Node::Skip,
            _ => return Err(UnknownKind(kind)),
        })
    }
}

impl Sort {
    // Whether a kind is of the sort: by its number in the file, since what a part names need not be of any kind.
    pub(crate) fn includes(self, kind: u16) -> bool
        ensures { result ≡ of_sort self kind }
    {
        match self {
            Sort::Expression => kind < 11,
            Sort::Command => (11..16).contains(&kind),
        }
    }
}

fn part(sort: Sort, node: u16) -> Option<Part>
    ensures { result ≡ Some (record { node = node; sort = sort }) }
{
    Some(Part { node, sort })
}

impl Node {
    // The parts of the node.
    pub(crate) fn parts(self) -> Parts
        ensures { result ≡ parts self }
    {
        let (a, b, d) = match self {
            Node::Literal { .. } | Node::This | Node::Parameter | Node::New { .. } | Node::Skip => (
                None, None, None,
            ),
            Node::Minus { left, right }
            | Node::Less { left, right }
            | Node::Equal { left, right } => (
                part(Expression, left),
                part(Expression, right),
                None,
            ),
            Node::IsNull { operand: only }
            | Node::FieldRead { target: only, .. }
            | Node::Reading { index: only } => (part(Expression, only), None, None),
            Node::Call {
                target,
                argument: other,
                ..
            }
            | Node::FieldWrite {
                target,
                value: other,
                ..
            } => (part(Expression, target), part(Expression, other), None),
            Node::Sequence { first, second } => (part(Command, first), part(Command, second), None),
            Node::If {
                test,
                then,
                otherwise,
            } => (
                part(Expression, test),
                part(Command, then),
                part(Command, otherwise),
            ),
            Node::While { test, body } => (part(Expression, test), part(Command, body), None),
        };
        Parts { a, b, d }
    }

    // Whether the numbers that name no part are right, in a file with so many classes and names.
    pub(crate) fn are_numbers_right(self, raw: Raw, classes: u16, names: u16) -> bool
        ensures { result ≡ numbers_right classes names raw self }
    {
        let Raw { a, b, d, .. } = raw;
        match self {
            Node::Literal { .. } => a == 0,
            Node::Minus { .. }
            | Node::Less { .. }
            | Node::Equal { .. }
            | Node::Sequence { .. }
            | Node::While { .. } => d == 0,
            Node::IsNull { .. } | Node::Reading { .. } => b == 0 && d == 0,
            Node::This | Node::Parameter | Node::Skip => a == 0 && b == 0 && d == 0,
            Node::FieldRead { name, .. } => b == 0 && name < names,
            Node::Call { name, .. } | Node::FieldWrite { name, .. } => name < names,
            Node::New { class } => a == 0 && b == 0 && class < classes,
            Node::If { .. } => true,
        }
    }
}
