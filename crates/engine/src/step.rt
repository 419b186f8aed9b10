// One step.
ghost use Rattle.pile.specs.Pile.{size, Kept};
ghost use Rattle.store.specs.Meaning.{store};
ghost use Rattle.engine.specs.Runs.{rows_of, given_by};
ghost use Rattle.engine.specs.Moves.{Steps};

use crate::base::Given;
use crate::moves::Stepped;
use machine::state::{Around, Hand, Row};
use numbers::NumberRule;
use pile::Pile;
use store::ObjectStore;

impl<N: NumberRule> Given<'_, N> {
    // One step from the hand, with the current object and parameter, on rows and store; none where no line applies.
    pub(crate) fn step<S: ObjectStore>(
        &self,
        hand: Hand,
        around: Around,
        rows: &mut Pile<Row>,
        objects: &mut S,
    ) -> Option<Stepped>
        ensures kept { Kept rows.old rows.new }
        ensures does { Steps (given_by N.NumberRule.rule self.now (size rows.old)) hand around (rows_of rows.old) (store (S.ObjectStore.means objects.old)) result (rows_of rows.new) (store (S.ObjectStore.means objects.new)) }
    {
        match hand {
            Hand::Go(k) => self.go(k, around, rows, objects),
            Hand::Have(value) => {
                let Some(top) = rows.top() else {
                    return Some(Stepped::Finished);
                };
                let found = self.have(objects, top, value)?;
                found.perform(top, around, rows, objects)
            }
            Hand::Done => {
                let Some(top) = rows.top() else {
                    return Some(Stepped::Finished);
                };
                let found = self.done(objects, top, around)?;
                found.perform(top, around, rows, objects)
            }
        }
    }
}
