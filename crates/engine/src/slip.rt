// The slip of a settled run.
ghost use Rattle.checked.specs.Checked.{book_of, top_type};
ghost use Rattle.engine.specs.Telling.{Prints};

use crate::base::SettledRun;
use checked::CheckedBook;
use numbers::NumberRule;
use pile::Pile;
use slips::{Outcome, SlipRefused, write_slip};
use store::ObjectStore;

impl SettledRun {
    // Writes the slip into a buffer and tells its length. The pile is for the handles found on the way.
    pub fn slip<S: ObjectStore, N: NumberRule>(
        &self,
        book: &CheckedBook,
        objects: &S,
        found: &mut Pile<u32>,
        out: &mut [u8],
    ) -> Result<usize, SlipRefused>
        ensures { Prints (book_of book.now) (top_type book.now) N.NumberRule.rule (S.ObjectStore.means objects.now) self.now.0 found.old out.old result found.new out.new }
    {
        let run = &self.0;
        let outcome = Outcome {
            end: run.end,
            steps: run.steps,
            hand: run.hand,
        };
        write_slip::<S, N>(outcome, book, objects, found, out)
    }
}
