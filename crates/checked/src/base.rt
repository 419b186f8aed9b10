// The types of a decoded and of a checked book. They stand in a file of their own, so that their meaning can be imported
// where their methods are.
ghost use Rattle.std.specs.Prelude.{◌≡◌, ℕ, ◌<◌};
ghost use Rattle.book.specs.Books.{bytes_of};
ghost use Rattle.book.specs.Layout.{class_count, class_at};
ghost use Rattle.cool.specs.View.{view};
ghost use Rattle.cool.specs.Accepts.{NamesDistinct};
ghost use Rattle.checked.specs.Tables.{Tabled, book_in};
ghost use Rattle.checked.specs.Methods.{MethodsTyped, TopTyped};

use crate::table::Method;
use arrayvec::ArrayVec;
use book::ReadBook;
use book::entry::{Class, Field};
use book::node::{Node, Type};

// A read book whose entries are decoded, once, so that no step has to add up counts or to read bytes.
#[derive(Drop)]
pub struct Decoded<'a> {
    pub(crate) book: ReadBook<'a>,
    pub(crate) classes: ArrayVec<Class, 64>,
    pub(crate) fields: ArrayVec<Field, 512>,
    pub(crate) methods: ArrayVec<Method, 256>,
    pub(crate) nodes: ArrayVec<Node, 4000>,
    pub(crate) root: u16,

    // The classes are the file's, and the tables mean the book that the file's bytes are.
    ghost listed: { Tabled (class_at (bytes_of book)) classes.items },
    ghost means: { book_in (bytes_of book) classes.items fields.items methods.items nodes.items root ≡ view (bytes_of book) },
}

// A book that has a type: `top` is that of its top-level expression. Only checking makes one; it is moved on, never copied.
#[derive(Drop)]
pub struct CheckedBook<'a> {
    pub(crate) decoded: Decoded<'a>,
    pub(crate) top: Type,

    // What checking has found: no two entries share a name, all methods are well typed, and so is the top.
    ghost names: { NamesDistinct (view (bytes_of decoded.book)) },
    ghost methods: { (c : ℕ) → c < class_count (bytes_of decoded.book) → MethodsTyped (view (bytes_of decoded.book)) c },
    ghost top_typed: { TopTyped (view (bytes_of decoded.book)) top },
}
