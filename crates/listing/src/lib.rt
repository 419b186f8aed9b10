// The listing of a book: what is in a file, or the exact reason why it is no book.
#![tactic(auto)]

ghost use Rattle.std.specs.Prelude.{Some, IfOk, MatchResult, string_bytes};
ghost use Rattle.book.specs.Books.{bytes_of};
ghost use Rattle.listing.specs.Listing.{day_text};
ghost use Rattle.listing.specs.Answer.{IsDay, IsRefused, Answers};

use book::ReadBook;
use book::fault::Refusal;
use std::alloc::{AllocError, Global};
use std::fmt;

pub mod lines;

use lines::Listing;

// A day's input whose book was read: how many readings it has, and the book.
#[derive(Drop)]
pub struct ReadDay<'a> {
    pub readings: u16,
    pub book: ReadBook<'a>,
}

// The day that an input is, or why it is none: for the input itself, else for the first fault of its book.
pub fn read<'a>(input: &'a [u8]) -> Result<ReadDay<'a>, Refusal>
    ensures { MatchResult result (IsDay input.now) (IsRefused input.now) }
{
    let day = input::split(input).ok_or(Refusal {
        number: 9,
        place: 0,
    })?;
    let book = book::read(day.book)?;
    Ok(ReadDay {
        readings: day.readings,
        book,
    })
}

// The number of readings and the listing of the book.
impl fmt::Display for ReadDay<'_> {
    ghost output = { λ day. Some (day_text day.readings (bytes_of day.book)) };

    fn fmt<W: fmt::Write>(&self, f: &mut fmt::Formatter<W>) -> fmt::Result {
        let readings = self.readings;
        let listing = Listing { book: &self.book };
        write!(f, "readings {readings}\n{listing}")
    }
}

// The answer to an input: a refusal, or the number of readings and the listing of the book. It fails only for want of memory.
pub fn answer(alloc: Global, input: &[u8]) -> Result<String, AllocError>
    ensures { IfOk result (λ out. Answers input.now (string_bytes out)) }
{
    match read(input) {
        Err(refusal) => format!(in alloc; "{refusal}\n"),
        Ok(day) => day.to_string(alloc),
    }
}
