// The lines that say what checking finds.
ghost use Rattle.std.specs.Prelude.{◌≡◌, ◌++◌, OnOk, string_bytes};
ghost use Rattle.book.specs.Books.{bytes_of};
ghost use Rattle.checked.specs.Checked.{book_of, top_type};
ghost use Rattle.judge.specs.Verdict.{class_called, type_line, Judged};

use book::ReadBook;
use book::fault::Refusal;
use checked::CheckedBook;
use listing::lines::{ClassNames, type_name};
use std::alloc::AllocError;

// A checked book, as it names its classes: both the trait and the book's type are other crates'.
#[derive(Clone, Copy)]
struct Named<'a> {
    book: &'a CheckedBook<'a>,
}

impl ClassNames for Named<'_> {
    ghost class_name_text = { λ named c. class_called (book_of named.book.now) ((book_of named.book.now).class c) };

    fn class_name(&self, class: u16) -> &str {
        match self.book.class(class) {
            Some(found) => self.book.name(found.name),
            None => "",
        }
    }
}

fn write_type(out: &mut String, book: &CheckedBook) -> Result<(), AllocError>
    ensures { OnOk result (string_bytes out.new ≡ string_bytes out.old ++ type_line (book_of book.now) (top_type book.now)) }
{
    let named = Named { book };
    let top = type_name(&named, book.top_type());
    writeln!(out, "type {top}")
}

// Checks a book, and writes its type or why it has none.
pub(crate) fn write_verdict(out: &mut String, book: ReadBook) -> Result<(), AllocError>
    ensures { OnOk result (Judged (bytes_of book.entry) (string_bytes out.old) (string_bytes out.new)) }
{
    match checked::check(book) {
        Err(fault) => {
            let refusal = Refusal::from(fault);
            writeln!(out, "{refusal}")
        }
        Ok(book) => write_type(out, &book),
    }
}
