// Answering a call for the slip.
ghost use Rattle.std.specs.Prelude.{◌≡◌, ◌≤◌, [], length};
ghost use Rattle.pile.specs.Pile.{items, size, Kept};
ghost use Rattle.store.specs.Meaning.{store};
ghost use Rattle.checked.specs.Checked.{book_of, top_type};
ghost use Rattle.slips.specs.Slip.{text_of};
ghost use Rattle.slips.specs.Writing.{told};
ghost use Rattle.slips.specs.Answer.{Writes, Finds, Slips, asked_of};

use crate::Outcome;
use crate::explore::Sources;
use crate::print::Slip;
use crate::refused::SlipRefused;
use crate::writer::Writer;
use machine::state::{End, Hand};
use numbers::NumberRule;
use pile::Pile;
use store::{ObjectStore, Value};

impl<S: ObjectStore> Slip<'_, '_, S> {
    // The number of bytes that will be printed; the greatest usize where there are more.
    fn measure(&self) -> usize
        ensures { told result ≡ told (length (text_of S.means self.now)) }
    {
        let mut meter = Writer {
            out: &mut [],
            at: 0,
        };
        self.print(&mut meter);
        meter.at
    }

    // Prints to the output, if there is room for all.
    fn print_within(&self, out: &mut [u8]) -> Result<usize, SlipRefused>
        ensures { Writes (text_of S.means self.now) out.old out.new result }
    {
        let length = self.measure();
        if out.len() < length {
            return Err(SlipRefused::ShortOutput);
        }
        let mut w = Writer { out, at: 0 };
        self.print(&mut w);
        Ok(length)
    }
}

impl<S: ObjectStore> Sources<'_, '_, S> {
    // The value that is shown, if the run is finished; refused unless all that is reached from it fits.
    fn find_shown<N: NumberRule>(
        &self,
        outcome: Outcome,
        found: &mut Pile<u32>,
    ) -> Result<Option<Value>, SlipRefused>
        requires empty { items found.old ≡ [] }
        requires places { (store (S.means self.now.objects.now)).count ≤ size found.old }
        ensures kept { Kept found.old found.new }
        ensures answer { Finds (book_of self.now.book.now) N.rule (store (S.means self.now.objects.now)) (top_type self.now.book.now) outcome.end outcome.hand (items found.new) result }
    {
        let End::Finished = outcome.end else {
            return Ok(None);
        };
        let Hand::Have(value) = outcome.hand else {
            return Err(SlipRefused::Misfit);
        };
        self.explore::<N>(value, found)
            .map(Some)
            .ok_or(SlipRefused::Misfit)
    }

    // Writes the slip of a run. The found pile is emptied first.
    pub(crate) fn answer<N: NumberRule>(
        &self,
        outcome: Outcome,
        found: &mut Pile<u32>,
        out: &mut [u8],
    ) -> Result<usize, SlipRefused>
        ensures kept { Kept found.old found.new }
        ensures answer { Slips (asked_of outcome self.now.book.now N.rule (store (S.means self.now.objects.now))) (size found.old) out.old out.new result }
    {
        found.clear();
        if found.places() < self.objects.record_count() {
            return Err(SlipRefused::FewPlaces);
        }
        let shown = self.find_shown::<N>(outcome, found)?;
        let slip = Slip {
            end: outcome.end,
            steps: outcome.steps,
            shown,
            book: self.book,
            objects: self.objects,
            found: found.as_slice(),
        };
        slip.print_within(out)
    }
}
