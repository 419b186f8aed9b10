// Checking a book: it is accepted exactly when COOL's typing rules derive a type for it.
#![tactic(auto)]

ghost use Rattle.std.specs.Prelude.{◌≡◌, IfOk};
ghost use Rattle.book.specs.Books.{bytes_of};
ghost use Rattle.checked.specs.Checked.{checked_bytes};
ghost use Rattle.checked.specs.Checks.{Checks};
ghost use Rattle.checked.specs.Rejecting.{Accepts};

use book::ReadBook;

mod base;
mod decode;
mod lookup;
mod methods;
mod names;
pub mod rejection;
pub mod table;
mod told;
mod types;

pub use base::CheckedBook;
use checker::fault::TypeFault;
use checker::place::Place;
use rejection::Rejection;
use types::Typing;

// The checked book of a read book that has a type, or why it has none.
pub fn check<'a>(book: ReadBook<'a>) -> Result<CheckedBook<'a>, TypeFault>
    ensures bytes { IfOk result (λ b. checked_bytes b ≡ bytes_of book.entry) }
    ensures answer { Checks (bytes_of book.entry) result }
{
    let decoded = decode::decode(book);
    if let Some(entry) = names::repeated_entry(&decoded) {
        return Err(TypeFault::Repeated(entry));
    }
    methods::check_classes(&decoded)?;
    let typing = Typing {
        book: &decoded,
        place: Place::Top,
    };
    let top = typing.type_of(decoded.root)?;
    Ok(CheckedBook { decoded, top })
}

// The checked book of a file, or why it is not accepted: the first fault of the file, or a cause why the book has no type.
pub fn accept<'a>(bytes: &'a [u8]) -> Result<CheckedBook<'a>, Rejection>
    ensures { Accepts bytes.now result }
{
    Ok(check(book::read(bytes)?)?)
}
