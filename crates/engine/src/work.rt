// Working a run.
ghost use Rattle.std.specs.Prelude.{◌≡◌, ◌+◌, ◌<◌, ◌≤◌};
ghost use Rattle.pile.specs.Pile.{size, Kept};
ghost use Rattle.machine.specs.declared.state.End.TheVariants.{Unfinished};
ghost use Rattle.engine.specs.Runs.{rows_of, state_of, given_by, counted, gone_on, ended_with};
ghost use Rattle.engine.specs.Moves.{at_rest};
ghost use Rattle.engine.specs.Calls.{WorkedFrom};

use crate::base::{Given, Run};
use crate::moves::Stepped;
use crate::refused::Refused;
use machine::state::{Around, End, Hand, Row};
use numbers::NumberRule;
use pile::Pile;
use store::ObjectStore;

// Nothing is left to do.
fn is_finished(hand: Hand, rows: &Pile<Row>) -> bool
    ensures { result ≡ at_rest hand (rows_of rows.now) }
{
    match hand {
        Hand::Go(_) => false,
        Hand::Have(_) | Hand::Done => rows.height() == 0,
    }
}

impl Run {
    // One step more is worked. That there is room for it is asked here and below, and is no fact of a run's type: a run may
    // stand at the most steps.
    fn count(&mut self)
        requires { self.old.steps < 4000000000 }
        ensures { self.new ≡ counted self.old }
    {
        self.steps += 1;
    }

    // A line was worked.
    fn go_on(&mut self, hand: Hand, around: Around)
        requires { self.old.steps < 4000000000 }
        ensures { self.new ≡ gone_on hand around (counted self.old) }
    {
        self.count();
        self.hand = hand;
        self.around = around;
    }

    // The ending step was worked: all stays but the count and the end.
    fn end_with(&mut self, end: End)
        requires { self.old.steps < 4000000000 }
        ensures { self.new ≡ ended_with end (counted self.old) }
    {
        self.count();
        self.end = end;
    }

    // Steps until the allowance is used up, or the run is finished or ends, or no line applies.
    pub(crate) fn work<S: ObjectStore, N: NumberRule>(
        &mut self,
        given: &Given<N>,
        rows: &mut Pile<Row>,
        objects: &mut S,
        allowance: u32,
    ) -> Result<(), Refused>
        requires far { self.old.steps + allowance ≤ 4000000000 }
        requires open { self.old.end ≡ Unfinished }
        ensures kept { Kept rows.old rows.new }
        ensures places { self.new.places ≡ self.old.places }
        ensures works { WorkedFrom (given_by N.NumberRule.rule given.now (size rows.old)) allowance (state_of self.old rows.old (S.ObjectStore.means objects.old)) self.old.steps result (state_of self.new rows.new (S.ObjectStore.means objects.new)) self.new.steps self.new.end }
    {
        for _ in 0..allowance {
            let stepped = given.step(self.hand, self.around, rows, objects);
            match stepped.ok_or(Refused::Misfit)? {
                Stepped::Next(hand, around) => self.go_on(hand, around),
                Stepped::Ends(end) => {
                    self.end_with(end);
                    return Ok(());
                }
                Stepped::Finished => {
                    self.end = End::Finished;
                    return Ok(());
                }
            }
        }
        if is_finished(self.hand, rows) {
            self.end = End::Finished;
        }
        Ok(())
    }
}
