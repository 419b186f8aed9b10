// The hand goes to a node.
ghost use Rattle.std.specs.Prelude.{◌≡◌, List, ℤ, Some};
ghost use Rattle.numbers.specs.Rule.{Rule, within};
ghost use Rattle.pile.specs.Pile.{size, Kept};
ghost use Rattle.store.specs.declared.Value.TheVariants.{Int, Handle};
ghost use Rattle.store.specs.Meaning.{Store, store};
ghost use Rattle.cool.specs.Book.{Book as RuleBook};
ghost use Rattle.machine.specs.declared.state.Hand.TheVariants.{Go, Have};
ghost use Rattle.machine.specs.declared.state.Row.{Row as Waiting};
ghost use Rattle.machine.specs.Machine.{state, next, unless, or_misfit, put_on};
ghost use Rattle.engine.specs.Runs.{rows_of, given, given_by, book_in};
ghost use Rattle.engine.specs.Moves.{CarriedOut, Steps};

use crate::base::Given;
use crate::moves::Stepped;
use book::node::Node;
use machine::state::{Around, End, Hand, Row, Stage};
use numbers::NumberRule;
use pile::Pile;
use store::{ObjectStore, Value};

#[tactic(auto, unfolding(machine::specs::Machine::unless))]
fn literal<N: NumberRule>(k: u16, value: i32, around: Around) -> Stepped
    ensures { (ρ : List Waiting) (S : Store) → CarriedOut (unless 33 k (within N.NumberRule.rule value) (next (state (Have (Int value)) around ρ S))) ρ S (Some result) ρ S }
{
    if numbers::is_within::<N>(value) {
        Stepped::Next(Hand::Have(Value::Int(value)), around)
    } else {
        Stepped::Ends(End::BeyondEnds(k))
    }
}

#[tactic(auto, unfolding(machine::specs::Machine::or_misfit))]
fn this(around: Around) -> Option<Stepped>
    ensures { (ρ : List Waiting) (S : Store) → CarriedOut (or_misfit around.object (λ l. next (state (Have (Handle l)) around ρ S))) ρ S result ρ S }
{
    let object = around.object?;
    Some(Stepped::Next(Hand::Have(Value::Handle(object)), around))
}

#[tactic(auto, unfolding(machine::specs::Machine::or_misfit))]
fn parameter(around: Around) -> Option<Stepped>
    ensures { (ρ : List Waiting) (S : Store) → CarriedOut (or_misfit around.parameter (λ v. next (state (Have v) around ρ S))) ρ S result ρ S }
{
    let value = around.parameter?;
    Some(Stepped::Next(Hand::Have(value), around))
}

// A row for the node is put on, and the hand goes to its first part.
#[tactic(auto, unfolding(machine::specs::Machine::put_on, machine::specs::Machine::unless))]
fn put_on(k: u16, part: u16, around: Around, rows: &mut Pile<Row>) -> Stepped
    ensures kept { Kept rows.old rows.new }
    ensures does { (B : RuleBook) (R : Rule) (day : List ℤ) (S : Store) → CarriedOut (put_on (given B R day (size rows.old)) k part around (rows_of rows.old) S) (rows_of rows.old) S (Some result) (rows_of rows.new) S }
{
    let row = Row {
        node: k,
        stage: Stage::First,
    };
    if rows.push(row) {
        Stepped::Next(Hand::Go(part), around)
    } else {
        Stepped::Ends(End::NoPlace(k))
    }
}

impl<N: NumberRule> Given<'_, N> {
    // Goes to node `k`.
    pub(crate) fn go<S: ObjectStore>(
        &self,
        k: u16,
        around: Around,
        rows: &mut Pile<Row>,
        objects: &mut S,
    ) -> Option<Stepped>
        ensures kept { Kept rows.old rows.new }
        ensures does { Steps (given_by N.NumberRule.rule self.now (size rows.old)) (Go k) around (rows_of rows.old) (store (S.ObjectStore.means objects.old)) result (rows_of rows.new) (store (S.ObjectStore.means objects.new)) }
    {
        let node = self.book.node(k)?;
        self.go_to(k, node, around, rows, objects)
    }

    // By what node `k` is.
    fn go_to<S: ObjectStore>(
        &self,
        k: u16,
        node: Node,
        around: Around,
        rows: &mut Pile<Row>,
        objects: &mut S,
    ) -> Option<Stepped>
        ensures kept { Kept rows.old rows.new }
        ensures does { (book_in self.now).node k ≡ Some node → Steps (given_by N.NumberRule.rule self.now (size rows.old)) (Go k) around (rows_of rows.old) (store (S.ObjectStore.means objects.old)) result (rows_of rows.new) (store (S.ObjectStore.means objects.new)) }
    {
        match node {
            Node::Literal { value } => Some(literal::<N>(k, value, around)),
            Node::This => this(around),
            Node::Parameter => parameter(around),
            Node::New { class } => self.new_record(k, class, around, objects),
            Node::Skip => Some(Stepped::Next(Hand::Done, around)),
            Node::Minus { left: part, .. }
            | Node::Less { left: part, .. }
            | Node::Equal { left: part, .. }
            | Node::IsNull { operand: part }
            | Node::FieldRead { target: part, .. }
            | Node::Call { target: part, .. }
            | Node::Reading { index: part }
            | Node::FieldWrite { target: part, .. }
            | Node::Sequence { first: part, .. }
            | Node::If { test: part, .. }
            | Node::While { test: part, .. } => Some(put_on(k, part, around, rows)),
        }
    }
}
