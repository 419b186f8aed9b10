// The types of nodes, found from the types of their parts.
ghost use Rattle.std.specs.Prelude.{◌≡◌, Ok};
ghost use Rattle.checker.specs.Checking.{before};
ghost use Rattle.checked.specs.Needing.{needs};

use crate::base::Decoded;
use book::node::{Node, Type};
use checker::fault::TypeFault;
use checker::place::Place;

// A type that must be another one; else the fault.
pub(crate) fn need(found: Type, wanted: Type, fault: TypeFault) -> Result<(), TypeFault>
    ensures { result ≡ needs (Ok found) wanted fault }
{
    if found == wanted { Ok(()) } else { Err(fault) }
}

// Whether the parts of a node lie before node `k`.
fn are_before(k: u16, node: Node) -> bool
    ensures { result ≡ before k node }
{
    match node {
        Node::Literal { .. } | Node::This | Node::Parameter | Node::New { .. } | Node::Skip => true,
        Node::IsNull { operand: a }
        | Node::FieldRead { target: a, .. }
        | Node::Reading { index: a } => a < k,
        Node::Minus { left: a, right: b }
        | Node::Less { left: a, right: b }
        | Node::Equal { left: a, right: b }
        | Node::Call {
            target: a,
            argument: b,
            ..
        }
        | Node::FieldWrite {
            target: a,
            value: b,
            ..
        }
        | Node::Sequence {
            first: a,
            second: b,
        }
        | Node::While { test: a, body: b } => a < k && b < k,
        Node::If {
            test: a,
            then: b,
            otherwise: d,
        } => a < k && b < k && d < k,
    }
}

// Where nodes are typed: the book, and the place of their strip in it.
#[derive(Clone, Copy)]
pub(crate) struct Typing<'b, 'a> {
    pub(crate) book: &'b Decoded<'a>,
    pub(crate) place: Place,
}

impl<'b, 'a> Typing<'b, 'a> {
    ghost use Rattle.std.specs.Prelude.{◌≡◌, Ok, Err, IfOk, IfErr};
    ghost use Rattle.book.specs.declared.node.Node.TheVariants.{Call};
    ghost use Rattle.checker.specs.Checking.{of_class, member, inside, own_field, type_by};
    ghost use Rattle.checked.specs.Needing.{needs};
    ghost use Rattle.checked.specs.Typing.{NodeAt, book_typed, place_typed, type_at, command_at};

    // Node `k`, whose parts must lie before it.
    #[tactic(auto, unfolding(crate::specs::Typing::type_at, crate::specs::Typing::command_at))]
    fn node(&self, k: u16) -> Result<Node, TypeFault>
        ensures ok { IfOk result (NodeAt self.now k) }
        ensures no_type { IfErr result (λ e. type_at self.now k ≡ Err e) }
        ensures no_command { IfErr result (λ e. command_at self.now k ≡ Err e) }
    {
        match self.book.node(k) {
            Some(node) if are_before(k, node) => Ok(node),
            _ => Err(TypeFault::Part(usize::from(k))),
        }
    }

    // A part that must have a type; else the fault.
    #[cycle(types)]
    fn typed_part(&self, part: u16, wanted: Type, fault: TypeFault) -> Result<(), TypeFault>
        ensures { result ≡ needs (type_at self.now part) wanted fault }
    {
        need(self.type_of(part)?, wanted, fault)
    }

    // A part of node `k` that must be of a class.
    #[cycle(types)]
    fn class_part(&self, k: u16, part: u16) -> Result<u16, TypeFault>
        ensures { result ≡ of_class k (type_at self.now part) (λ c. Ok c) }
    {
        match self.type_of(part)? {
            Type::Class(class) => Ok(class),
            _ => Err(TypeFault::Part(usize::from(k))),
        }
    }

    // The type of a field that node `k` may read and write: only one of the current class.
    fn own_field(&self, k: u16, class: u16, name: u16) -> Result<Type, TypeFault>
        ensures { result ≡ member k (own_field (book_typed self.now) (place_typed self.now) class name) (λ u. Ok u) }
    {
        let field = match self.place {
            Place::In { class: current, .. } if class == current => {
                self.book.field_type(class, name)
            }
            _ => None,
        };
        field.ok_or(TypeFault::Member(usize::from(k)))
    }

    // The class, and the parameter's type, of the method that node `k` stands in.
    fn inside(&self, k: u16) -> Result<(u16, Type), TypeFault>
        ensures { result ≡ inside k (place_typed self.now) (λ c u. Ok (c, u)) }
    {
        match self.place {
            Place::Top => Err(TypeFault::Top(usize::from(k))),
            Place::In { class, parameter } => Ok((class, parameter)),
        }
    }

    // The type of a call at node `k`.
    #[cycle(types)]
    #[tactic(auto, using(crate::proofs::Arms::arms))]
    fn call(&self, k: u16, target: u16, argument: u16, name: u16) -> Result<Type, TypeFault>
        ensures { result ≡ type_by (book_typed self.now) (place_typed self.now) k (type_at self.now) (Call target argument name) }
    {
        let class = self.class_part(k, target)?;
        let Some(method) = self.book.method(class, name) else {
            return Err(TypeFault::Member(usize::from(k)));
        };
        self.typed_part(argument, method.takes, TypeFault::Argument(usize::from(k)))?;
        Ok(method.gives)
    }

    // The type of node `k`, an expression: from its root to its parts, the node number falling.
    #[cycle(types)]
    #[tactic(auto, using(crate::proofs::Arms::arms))]
    pub(crate) fn type_of(&self, k: u16) -> Result<Type, TypeFault>
        ensures { result ≡ type_at self.now k }
    {
        let part = TypeFault::Part(usize::from(k));
        match self.node(k)? {
            Node::Literal { .. } => Ok(Type::Int),
            Node::Minus { left, right } => {
                self.typed_part(left, Type::Int, part)?;
                self.typed_part(right, Type::Int, part)?;
                Ok(Type::Int)
            }
            Node::Less { left, right } | Node::Equal { left, right } => {
                self.typed_part(left, Type::Int, part)?;
                self.typed_part(right, Type::Int, part)?;
                Ok(Type::Boolean)
            }
            Node::IsNull { operand } => {
                self.class_part(k, operand)?;
                Ok(Type::Boolean)
            }
            Node::This => Ok(Type::Class(self.inside(k)?.0)),
            Node::Parameter => Ok(self.inside(k)?.1),
            Node::FieldRead { target, name } => {
                let class = self.class_part(k, target)?;
                self.own_field(k, class, name)
            }
            Node::Call {
                target,
                argument,
                name,
            } => self.call(k, target, argument, name),
            Node::New { class } => Ok(Type::Class(class)),
            Node::Reading { index } => {
                self.typed_part(index, Type::Int, part)?;
                Ok(Type::Int)
            }
            _ => Err(part),
        }
    }

    // Whether node `k` is a well typed command: from its root to its parts, the node number falling.
    #[tactic(auto, using(crate::proofs::Arms::arms))]
    pub(crate) fn check_command(&self, k: u16) -> Result<(), TypeFault>
        ensures { result ≡ command_at self.now k }
    {
        let part = TypeFault::Part(usize::from(k));
        match self.node(k)? {
            Node::FieldWrite {
                target,
                value,
                name,
            } => {
                let class = self.class_part(k, target)?;
                let wanted = self.own_field(k, class, name)?;
                self.typed_part(value, wanted, TypeFault::Argument(usize::from(k)))
            }
            Node::Sequence { first, second } => {
                self.check_command(first)?;
                self.check_command(second)
            }
            Node::If {
                test,
                then,
                otherwise,
            } => {
                self.typed_part(test, Type::Boolean, part)?;
                self.check_command(then)?;
                self.check_command(otherwise)
            }
            Node::While { test, body } => {
                self.typed_part(test, Type::Boolean, part)?;
                self.check_command(body)
            }
            Node::Skip => Ok(()),
            _ => Err(part),
        }
    }
}
