// A command is done, under the top row: what that comes to, by the row's node and stage.
ghost use Rattle.std.specs.Prelude.{ℕ, Some};
ghost use Rattle.numbers.specs.Rule.{Rule};
ghost use Rattle.store.specs.Meaning.{store};
ghost use Rattle.machine.specs.Machine.{call₃, frame};
ghost use Rattle.engine.specs.Runs.{given_by, book_in};
ghost use Rattle.engine.specs.Moves.{DoneMove};

use crate::base::Given;
use crate::moves::Move;
use book::node::Node;
use machine::state::{Around, Hand, Row, Stage};
use store::ObjectStore;

impl<N> Given<'_, N> {
    // The move for done under the row `top`; none where no line applies.
    pub(crate) fn done<S: ObjectStore>(&self, objects: &S, top: Row, around: Around) -> Option<Move>
        ensures { (R : Rule) (n : ℕ) → DoneMove (given_by R self.now n) (frame ((book_in self.now).node top.node) top.stage) top.node around (store (S.ObjectStore.means objects.now)) result }
    {
        match (self.book.node(top.node)?, top.stage) {
            (Node::Sequence { second, .. }, Stage::First) => Some(Move::TakeOff(Hand::Go(second))),
            (Node::While { test, .. }, Stage::Turn) => Some(Move::Stay {
                stage: Stage::First,
                node: test,
            }),
            (Node::Call { name, .. }, Stage::Third(kept)) => {
                self.returned(objects, name, kept, around)
            }
            _ => None,
        }
    }

    // A call's command is done: the hand goes to what the method of the current object returns.
    fn returned<S: ObjectStore>(
        &self,
        objects: &S,
        name: u16,
        kept: Around,
        around: Around,
    ) -> Option<Move>
        ensures { (R : Rule) (n k : ℕ) → DoneMove (given_by R self.now n) (call₃ name kept) k around (store (S.ObjectStore.means objects.now)) result }
    {
        let object = around.object?;
        let method = self.method_of(objects, object, name)?;
        Some(Move::Stay {
            stage: Stage::Fourth(kept),
            node: method.result,
        })
    }
}
