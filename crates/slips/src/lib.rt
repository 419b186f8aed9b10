// The slip: what is printed of a run that is settled.
#![tactic(auto)]

ghost use Rattle.std.specs.Prelude.{◌≡◌, []};
ghost use Rattle.numbers.specs.Rule.{Rule};
ghost use Rattle.pile.specs.Pile.{items, size, Kept};
ghost use Rattle.store.specs.declared.Value.{Value};
ghost use Rattle.store.specs.Meaning.{Store, Means, Sound, store};
ghost use Rattle.cool.specs.Book.{Book};
ghost use Rattle.machine.specs.declared.state.Hand.{Hand};
ghost use Rattle.machine.specs.Fit.{RecordsFit};
ghost use Rattle.machine.specs.Likeness.{Naming, Exact, Stores, Hands};
ghost use Rattle.slips.specs.Answer.{Slips, asked_of};
ghost use Rattle.slips.specs.Laws.{ListsReached, FittingReached, AlikeSlips};
ghost use Rattle.slips.specs.Specimens.{Specimens};

use checked::CheckedBook;
use explore::Sources;
use machine::state::{End, Hand};
use numbers::NumberRule;
use pile::Pile;
use store::ObjectStore;

mod explore;
mod print;
mod refused;
mod write;
mod writer;

pub use refused::SlipRefused;

// How a run came out: its end, the steps that were worked, and what was in hand then.
#[derive(Clone, Copy, PartialEq, Eq, Debug)]
pub struct Outcome {
    pub end: End,
    pub steps: u32,
    pub hand: Hand,
}

// Writes the slip of a run that came out so, and answers its length. The found pile is emptied first, and left empty
// whatever the answer. Nothing is allocated.
pub fn write_slip<S: ObjectStore, N: NumberRule>(
    outcome: Outcome,
    book: &CheckedBook,
    objects: &S,
    found: &mut Pile<u32>,
    out: &mut [u8],
) -> Result<usize, SlipRefused>
    ensures kept { Kept found.old found.new }
    ensures empty { items found.new ≡ [] }
    ensures answer { Slips (asked_of outcome book.now N.rule (store (S.means objects.now))) (size found.old) out.old out.new result }
{
    let sources = Sources { book, objects };
    let answer = sources.answer::<N>(outcome, found, out);
    found.clear();
    answer
}

// The records on a slip are exactly those reached from its value, each once, in order of finding.
pub fn slips_list_what_is_reached()
    ensures { (m : Means) (v : Value) → Sound m → ListsReached (store m) v }
{}

// A value that fits, in a store whose records fit, is not refused.
pub fn what_fits_is_shown()
    ensures { (B : Book) (R : Rule) (S : Store) → RecordsFit B R S → FittingReached B R S }
{}

// Hands and stores alike by a naming of handles have the same slip, and what they show fits alike.
pub fn alike_slips_are_same()
    ensures { (β : Naming) (S T : Store) (x y : Hand) → Exact β → Stores β S T → Hands β x y → AlikeSlips S T x y }
{}

// Worked specimens: among them a slip of 57 bytes, and four records listed breadth first.
pub fn specimens_are_printed()
    ensures { Specimens 57 }
{}
