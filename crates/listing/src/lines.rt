// The lines of a listing.
ghost use Rattle.std.specs.Prelude.{◌≡◌, ℕ, List, codes, Some};
ghost use Rattle.std.specs.Fmt.{WritesOnOk};
ghost use Rattle.book.specs.Books.{bytes_of};
ghost use Rattle.book.specs.Layout.{class_at};
ghost use Rattle.listing.specs.Text.{each};
ghost use Rattle.listing.specs.Listing.{name_text, class_text, type_text, nth_class_text, nth_field_line, nth_method_line, nth_class_lines, counts_line, listing};

use book::ReadBook;
use book::entry::{Class, Counts, Field, Method};
use book::node::Type;
use std::fmt;

fn name<'a>(book: &ReadBook<'a>, number: u16) -> &'a str
    ensures { result.now ≡ name_text (bytes_of book.now) number }
{
    book.name(usize::from(number)).unwrap_or("")
}

// A book that tells what its classes are called.
pub trait ClassNames {
    // The bytes of a class's name, by its number: none where there is no such class.
    ghost class_name_text: { Self → ℕ → List ℕ };

    fn class_name(&self, class: u16) -> &str
        ensures { result.now ≡ class_name_text self.now class };
}

impl ClassNames for ReadBook<'_> {
    ghost class_name_text = { λ book. nth_class_text (bytes_of book) };

    fn class_name(&self, class: u16) -> &str {
        match self.class(usize::from(class)) {
            Some(class) => name(self, class.name),
            None => "",
        }
    }
}

// What a type of a book is called: int, boolean, or the name of its class.
pub fn type_name<'a, B: ClassNames>(book: &'a B, typed: Type) -> &'a str
    ensures { result.now ≡ type_text (B.class_name_text book.now) typed }
{
    match typed {
        Type::Int => "int",
        Type::Boolean => "boolean",
        Type::Class(class) => book.class_name(class),
    }
}

// A kind of entry that has lines of its own in a listing.
trait Entry {
    // The lines of the entry with a number, in the listing of the book that some bytes are.
    ghost lines: { List ℕ → ℕ → List ℕ };

    // Writes the lines of the entry with a number. The three stay apart: a formatter comes from the caller of each `fmt`.
    fn write<W: fmt::Write>(
        book: &ReadBook,
        number: usize,
        f: &mut fmt::Formatter<W>,
    ) -> fmt::Result
        ensures { WritesOnOk W.write_str_gives f.old result (lines (bytes_of book.now) number) f.new };
}

// Writes the lines of `count` entries, from the first on.
fn write_entries<E: Entry, W: fmt::Write>(
    book: &ReadBook,
    first: u32,
    count: u16,
    f: &mut fmt::Formatter<W>,
) -> fmt::Result
    ensures { WritesOnOk W.write_str_gives f.old result (each (E.lines (bytes_of book.now)) first count) f.new }
{
    // By number, which counts entries through the whole file.
    for i in 0..usize::from(count) {
        E::write(book, first as usize + i, f)?;
    }
    Ok(())
}

impl Entry for Field {
    ghost lines = { nth_field_line };

    fn write<W: fmt::Write>(
        book: &ReadBook,
        number: usize,
        f: &mut fmt::Formatter<W>,
    ) -> fmt::Result {
        let Some(field) = book.field(number) else {
            return Ok(());
        };
        let typed = type_name(book, field.typed);
        let name = name(book, field.name);
        writeln!(f, "  field {typed} {name}")
    }
}

impl Entry for Method {
    ghost lines = { nth_method_line };

    fn write<W: fmt::Write>(
        book: &ReadBook,
        number: usize,
        f: &mut fmt::Formatter<W>,
    ) -> fmt::Result {
        let Some(method) = book.method(number) else {
            return Ok(());
        };
        let result = type_name(book, method.result);
        let name = name(book, method.name);
        let parameter = type_name(book, method.parameter);
        let command = method.command.nodes;
        let returned = method.returned.nodes;
        writeln!(
            f,
            "  method {result} {name}({parameter}) command {command} returned {returned}"
        )
    }
}

impl Entry for Class {
    ghost lines = { nth_class_lines };

    fn write<W: fmt::Write>(
        book: &ReadBook,
        number: usize,
        f: &mut fmt::Formatter<W>,
    ) -> fmt::Result {
        let Some(class) = book.class(number) else {
            return Ok(());
        };
        let name = name(book, class.name);
        writeln!(f, "class {name}")?;
        write_entries::<Field, W>(book, class.first_field, class.fields, f)?;
        write_entries::<Method, W>(book, class.first_method, class.methods, f)
    }
}

fn write_counts<W: fmt::Write>(counts: Counts, f: &mut fmt::Formatter<W>) -> fmt::Result
    ensures { WritesOnOk W.write_str_gives f.old result (counts_line counts) f.new }
{
    let Counts {
        classes,
        fields,
        methods,
        nodes,
        names,
    } = counts;
    writeln!(
        f,
        "classes {classes} fields {fields} methods {methods} nodes {nodes} names {names}"
    )
}

// The listing of a book.
#[derive(Clone, Copy)]
pub struct Listing<'a> {
    pub book: &'a ReadBook<'a>,
}

impl fmt::Display for Listing<'_> {
    ghost output = { λ shown. Some (listing (bytes_of shown.book.now)) };

    fn fmt<W: fmt::Write>(&self, f: &mut fmt::Formatter<W>) -> fmt::Result {
        let book = self.book;
        let counts = book.counts();
        write_counts(counts, f)?;
        write_entries::<Class, W>(book, 0, counts.classes, f)?;
        let top = book.top().nodes;
        writeln!(f, "top {top}")
    }
}
