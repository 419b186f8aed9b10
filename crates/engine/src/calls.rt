// The calls of a run: begin, advance, settle.
ghost use Rattle.std.specs.Prelude.{◌≡◌, nat_lt};
ghost use Rattle.pile.specs.Pile.{size, Kept};
ghost use Rattle.store.specs.Meaning.{store};
ghost use Rattle.checked.specs.Checked.{book_of};
ghost use Rattle.engine.specs.Runs.{given};
ghost use Rattle.engine.specs.Calls.{fresh, too_far, Begins, Advances, WorksNothing, Settles};

use crate::base::{Given, Run, SettledRun, Steps};
use crate::refused::Refused;
use checked::CheckedBook;
use machine::state::{Around, End, Hand, Row};
use numbers::NumberRule;
use pile::Pile;
use std::marker::PhantomData;
use store::ObjectStore;

const MOST_PLACES: usize = 4096;

const MOST_ALLOWED: u32 = 1_000_000;

const MOST_STEPS: Steps = 4_000_000_000;

fn are_fresh(rows: &Pile<Row>) -> bool
    ensures { result ≡ fresh rows.now }
{
    rows.height() == 0 && (1..=MOST_PLACES).contains(&rows.places())
}

fn has_records<S: ObjectStore>(objects: &S) -> bool
    ensures { result ≡ nat_lt 0 (store (S.ObjectStore.means objects.now)).count }
{
    objects.record_count() > 0
}

fn is_too_far(steps: Steps, allowance: u32) -> bool
    ensures { result ≡ too_far steps allowance }
{
    allowance > MOST_ALLOWED || steps > MOST_STEPS - allowance as Steps
}

// Begins a run of a checked book, on empty rows and an empty store.
pub fn begin<S: ObjectStore>(
    book: &CheckedBook,
    rows: &Pile<Row>,
    objects: &S,
) -> Result<Run, Refused>
    ensures { Begins (book_of book.now) rows.now (S.ObjectStore.means objects.now) result }
{
    if !are_fresh(rows) {
        return Err(Refused::WrongRows);
    }
    if has_records(objects) {
        return Err(Refused::StoreHasRecords);
    }
    Ok(Run {
        hand: Hand::Go(book.root()),
        around: Around {
            object: None,
            parameter: None,
        },
        steps: 0,
        end: End::Unfinished,
        places: rows.places(),
    })
}

// Works a run until the allowance is used up or it ends; an ended run stays as it is.
pub fn advance<S: ObjectStore, N: NumberRule>(
    run: &mut Run,
    book: &CheckedBook,
    readings: &[i32],
    rows: &mut Pile<Row>,
    objects: &mut S,
    allowance: u32,
) -> Result<(), Refused>
    ensures kept { Kept rows.old rows.new }
    ensures does { Advances (given (book_of book.now) N.NumberRule.rule readings.now (size rows.old)) allowance run.old rows.old (S.ObjectStore.means objects.old) result run.new rows.new (S.ObjectStore.means objects.new) }
    ensures untouched { WorksNothing allowance run.old rows.old → objects.new ≡ objects.old }
{
    if is_too_far(run.steps, allowance) {
        return Err(Refused::TooFar);
    }
    if rows.places() != run.places {
        return Err(Refused::WrongRows);
    }
    let given = Given::<N> {
        book,
        readings,
        rule: PhantomData,
    };
    match run.end {
        End::Unfinished => run.work(&given, rows, objects, allowance),
        _ => Ok(()),
    }
}

impl Run {
    // Ends the run's use.
    pub fn settle(self) -> SettledRun
        ensures { Settles self result }
    {
        SettledRun(self)
    }
}
