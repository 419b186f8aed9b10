// A run from begin to slip.
ghost use Rattle.checked.specs.Checked.{book_of, top_type};
ghost use Rattle.answer.specs.Worked.{ComesOut};

use crate::stopped::Stopped;
use checked::CheckedBook;
use engine::{advance, begin};
use machine::state::Row;
use numbers::NumberRule;
use pile::Pile;
use store::ObjectStore;

// Begins a run, advances it by an allowance, settles it and writes its slip: the slip's length, or what stopped the run first.
pub fn slip_of<S: ObjectStore, N: NumberRule>(
    book: &CheckedBook,
    readings: &[i32],
    allowance: u32,
    rows: &mut Pile<Row>,
    objects: &mut S,
    found: &mut Pile<u32>,
    out: &mut [u8],
) -> Result<usize, Stopped>
    ensures { ComesOut (book_of book.now) (top_type book.now) N.NumberRule.rule readings.now allowance rows.old (S.ObjectStore.means objects.old) found.old out.old result (S.ObjectStore.means objects.new) out.new }
{
    let mut run = begin(book, rows, objects)?;
    advance::<S, N>(&mut run, book, readings, rows, objects, allowance)?;
    Ok(run.settle().slip::<S, N>(book, objects, found, out)?)
}
