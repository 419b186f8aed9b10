// A value in hand, under the top row: what it comes to, by the row's node and stage.
ghost use Rattle.std.specs.Prelude.{ℕ, List, ◌∷◌, ℤ, Some};
ghost use Rattle.numbers.specs.Rule.{Rule};
ghost use Rattle.store.specs.declared.Value.TheVariants.{Int, Handle};
ghost use Rattle.store.specs.Meaning.{Store, store};
ghost use Rattle.cool.specs.Book.{Book as RuleBook};
ghost use Rattle.machine.specs.declared.state.Around.{Around as Surround};
ghost use Rattle.machine.specs.declared.state.Hand.TheVariants.{Go, Done};
ghost use Rattle.machine.specs.declared.state.Stage.TheVariants.{First, Second, Turn, Fourth};
ghost use Rattle.machine.specs.Machine.{Given as MachineGiven, state, row, next, or_ends, a_test, not_null, result₁, op_null, op_field, op_reading, call₂, write₂, frame};
ghost use Rattle.engine.specs.Runs.{given, given_by, book_in};
ghost use Rattle.engine.specs.Moves.{ComesTo, HasMove, has_result};

use crate::base::Given;
use crate::moves::Move;
use crate::readings;
use book::node::Node;
use machine::state::{Around, End, Hand, Row, Stage};
use numbers::NumberRule;
use store::{ObjectStore, Value};

// Whether the value is null or a record.
#[tactic(auto, unfolding(machine::specs::Machine::null_or))]
fn null_test(value: Value) -> Option<Move>
    ensures { (G : MachineGiven) (k : ℕ) (ε : Surround) (S : Store) → ComesTo result k ε S (λ ρ. result₁ G k S op_null value (has_result ε ρ S)) }
{
    match value {
        Value::Null => Some(Move::TakeOff(Hand::Have(Value::Boolean(true)))),
        Value::Handle(_) => Some(Move::TakeOff(Hand::Have(Value::Boolean(false)))),
        Value::Int(_) | Value::Boolean(_) => None,
    }
}

// The reading that the value tells; the run ends where it is not there or beyond the ends.
#[tactic(auto, unfolding(machine::specs::Machine::an_int, machine::specs::Machine::or_ends, machine::specs::Machine::unless))]
fn reading<N: NumberRule>(day: &[i32], k: u16, value: Value) -> Option<Move>
    ensures { (B : RuleBook) (n : ℕ) (ε : Surround) (S : Store) → ComesTo result k ε S (λ ρ. result₁ (given B N.NumberRule.rule day.now n) k S op_reading value (has_result ε ρ S)) }
{
    let Value::Int(i) = value else {
        return None;
    };
    let Some(n) = readings::reading_at(day, i) else {
        return Some(Move::Ends(End::NoReading(k)));
    };
    if numbers::is_within::<N>(n) {
        Some(Move::TakeOff(Hand::Have(Value::Int(n))))
    } else {
        Some(Move::Ends(End::BeyondEnds(k)))
    }
}

// A target is kept while the hand goes to a part; the run ends at null.
#[tactic(auto, unfolding(machine::specs::Machine::not_null))]
fn keep_target(k: u16, value: Value, part: u16) -> Move
    ensures { (ε : Surround) (S : Store) → ComesTo (Some result) k ε S (λ ρ. not_null k value (next (state (Go part) ε (row k (Second value) ∷ ρ) S))) }
{
    match value {
        Value::Null => Move::Ends(End::NullTarget(k)),
        Value::Int(_) | Value::Boolean(_) | Value::Handle(_) => Move::Stay {
            stage: Stage::Second(value),
            node: part,
        },
    }
}

// The difference; where there is none, the run ends.
#[tactic(auto, unfolding(machine::specs::Machine::or_ends))]
fn difference<N: NumberRule>(k: u16, m: i32, n: i32) -> Move
    ensures { (ε : Surround) (S : Store) → ComesTo (Some result) k ε S (λ ρ. or_ends 33 k (N.NumberRule.rule.difference m n) (λ d. has_result ε ρ S (Int d))) }
{
    match N::difference(m, n) {
        Some(d) => Move::TakeOff(Hand::Have(Value::Int(d))),
        None => Move::Ends(End::BeyondEnds(k)),
    }
}

// An if's row is taken off, and the hand goes to one of its branches.
#[tactic(auto, unfolding(machine::specs::Machine::a_test))]
fn branch(value: Value, then: u16, otherwise: u16) -> Option<Move>
    ensures { (k : ℕ) (ε : Surround) (S : Store) → ComesTo result k ε S (λ ρ. a_test value (next (state (Go then) ε ρ S)) (next (state (Go otherwise) ε ρ S))) }
{
    match value {
        Value::Boolean(true) => Some(Move::TakeOff(Hand::Go(then))),
        Value::Boolean(false) => Some(Move::TakeOff(Hand::Go(otherwise))),
        Value::Int(_) | Value::Null | Value::Handle(_) => None,
    }
}

// A while goes through its body, or is done.
#[tactic(auto, unfolding(machine::specs::Machine::a_test))]
fn turn(value: Value, body: u16) -> Option<Move>
    ensures { (k : ℕ) (ε : Surround) (S : Store) → ComesTo result k ε S (λ ρ. a_test value (next (state (Go body) ε (row k Turn ∷ ρ) S)) (next (state Done ε ρ S))) }
{
    match value {
        Value::Boolean(true) => Some(Move::Stay {
            stage: Stage::Turn,
            node: body,
        }),
        Value::Boolean(false) => Some(Move::TakeOff(Hand::Done)),
        Value::Int(_) | Value::Null | Value::Handle(_) => None,
    }
}

// A call's row at stage 4.
fn leave(node: Node, kept: Around, value: Value) -> Option<Move>
    ensures { (G : MachineGiven) (k : ℕ) (ε : Surround) (S : Store) → HasMove G (frame (Some node) (Fourth kept)) k value ε S result }
{
    match node {
        Node::Call { .. } => Some(Move::Leave { kept, value }),
        _ => None,
    }
}

impl<N: NumberRule> Given<'_, N> {
    // The move for a value in hand under the row `top`; none where no line applies.
    pub(crate) fn have<S: ObjectStore>(&self, objects: &S, top: Row, value: Value) -> Option<Move>
        ensures { (n : ℕ) (ε : Surround) → HasMove (given_by N.NumberRule.rule self.now n) (frame ((book_in self.now).node top.node) top.stage) top.node value ε (store (S.ObjectStore.means objects.now)) result }
    {
        let node = self.book.node(top.node)?;
        match top.stage {
            Stage::First => self.at_first(objects, top.node, node, value),
            Stage::Second(kept) => self.at_second(objects, top.node, node, kept, value),
            Stage::Fourth(kept) => leave(node, kept, value),
            // these need done
            Stage::Turn | Stage::Third(_) => None,
        }
    }

    // A row at stage 1.
    fn at_first<S: ObjectStore>(
        &self,
        objects: &S,
        k: u16,
        node: Node,
        value: Value,
    ) -> Option<Move>
        ensures { (n : ℕ) (ε : Surround) → HasMove (given_by N.NumberRule.rule self.now n) (frame (Some node) First) k value ε (store (S.ObjectStore.means objects.now)) result }
    {
        match node {
            Node::Minus { right: part, .. }
            | Node::Less { right: part, .. }
            | Node::Equal { right: part, .. } => Some(Move::Stay {
                stage: Stage::Second(value),
                node: part,
            }),
            Node::IsNull { .. } => null_test(value),
            Node::FieldRead { name, .. } => self.field_read(objects, k, name, value),
            Node::Call { argument: part, .. } | Node::FieldWrite { value: part, .. } => {
                Some(keep_target(k, value, part))
            }
            Node::Reading { .. } => reading::<N>(self.readings, k, value),
            Node::If {
                then,
                otherwise,
                ..
            } => branch(value, then, otherwise),
            Node::While { body, .. } => turn(value, body),
            Node::Literal { .. }
            | Node::This
            | Node::Parameter
            | Node::New { .. }
            | Node::Sequence { .. }
            | Node::Skip => None,
        }
    }

    // A row at stage 2 that keeps a value.
    #[tactic(auto, unfolding(machine::specs::Machine::two_ints, machine::specs::Machine::null_or))]
    fn at_second<S: ObjectStore>(
        &self,
        objects: &S,
        k: u16,
        node: Node,
        kept: Value,
        value: Value,
    ) -> Option<Move>
        ensures { (n : ℕ) (ε : Surround) → HasMove (given_by N.NumberRule.rule self.now n) (frame (Some node) (Second kept)) k value ε (store (S.ObjectStore.means objects.now)) result }
    {
        match (node, kept, value) {
            (Node::Minus { .. }, Value::Int(m), Value::Int(n)) => Some(difference::<N>(k, m, n)),
            (Node::Less { .. }, Value::Int(m), Value::Int(n)) => {
                Some(Move::TakeOff(Hand::Have(Value::Boolean(m < n))))
            }
            (Node::Equal { .. }, Value::Int(m), Value::Int(n)) => {
                Some(Move::TakeOff(Hand::Have(Value::Boolean(m == n))))
            }
            (Node::Call { name, .. }, Value::Handle(object), _) => {
                self.enter(objects, name, object, value)
            }
            (Node::FieldWrite { name, .. }, Value::Handle(object), _) => {
                self.write(objects, name, object, value)
            }
            _ => None,
        }
    }

    // The cell of a field; the run ends at null.
    #[tactic(auto, unfolding(machine::specs::Machine::null_or))]
    fn field_read<S: ObjectStore>(
        &self,
        objects: &S,
        k: u16,
        name: u16,
        value: Value,
    ) -> Option<Move>
        ensures { (R : Rule) (n : ℕ) (ε : Surround) → ComesTo result k ε (store (S.ObjectStore.means objects.now)) (λ ρ. result₁ (given_by R self.now n) k (store (S.ObjectStore.means objects.now)) (op_field name) value (has_result ε ρ (store (S.ObjectStore.means objects.now)))) }
    {
        match value {
            Value::Null => Some(Move::Ends(End::NullTarget(k))),
            Value::Handle(handle) => {
                let cell = self.cell_of(objects, handle, name)?;
                Some(Move::TakeOff(Hand::Have(cell)))
            }
            Value::Int(_) | Value::Boolean(_) => None,
        }
    }

    // A call: the target's object and the argument take their places, and the hand goes to the method's command.
    #[tactic(auto, unfolding(machine::specs::Machine::null_or))]
    fn enter<S: ObjectStore>(
        &self,
        objects: &S,
        name: u16,
        object: u32,
        argument: Value,
    ) -> Option<Move>
        ensures { (R : Rule) (n k : ℕ) (ε : Surround) → HasMove (given_by R self.now n) (call₂ name (Handle object)) k argument ε (store (S.ObjectStore.means objects.now)) result }
    {
        let method = self.method_of(objects, object, name)?;
        Some(Move::Enter {
            object,
            argument,
            command: method.body,
        })
    }

    // A write into a field's cell.
    #[tactic(auto, unfolding(machine::specs::Machine::null_or))]
    fn write<S: ObjectStore>(
        &self,
        objects: &S,
        name: u16,
        object: u32,
        value: Value,
    ) -> Option<Move>
        ensures { (R : Rule) (n k : ℕ) (ε : Surround) → HasMove (given_by R self.now n) (write₂ name (Handle object)) k value ε (store (S.ObjectStore.means objects.now)) result }
    {
        let place = self.place_of(objects, object, name)?;
        Some(Move::Write {
            object,
            place,
            value,
        })
    }
}
