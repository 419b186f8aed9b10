// What a checked book tells.
use crate::base::CheckedBook;
use crate::table::Method;
use book::entry::{Class, Field};
use book::node::{Node, Type};

impl<'a> CheckedBook<'a> {
    ghost use Rattle.std.specs.Prelude.{◌≡◌, ◌≤◌, map, length};
    ghost use Rattle.std.specs.Option.{option_map};
    ghost use Rattle.std.specs.List.{slice_get};
    ghost use Rattle.cool.specs.Book.{fields_of, method_of, place};
    ghost use Rattle.checked.specs.Accepting.{HasType};
    ghost use Rattle.checked.specs.Checked.{named_field, meth, part_of, book_of, top_type};

    // The type of the top-level expression: the rules derive it for the program that the book stands for.
    #[tactic(auto, using(crate::proofs::Accepting::typed))]
    pub fn top_type(&self) -> Type
        ensures value { result ≡ top_type self.now }
        ensures typed { HasType (book_of self.now) result }
    {
        self.top
    }

    // The root of the top-level expression.
    pub fn root(&self) -> u16
        ensures { result ≡ (book_of self.now).root }
    {
        self.decoded.root
    }

    // Node `k`, if there is one.
    pub fn node(&self, k: u16) -> Option<Node>
        ensures { result ≡ (book_of self.now).node k }
    {
        self.decoded.node(k)
    }

    // Class `c`, if there is one.
    pub fn class(&self, c: u16) -> Option<Class>
        ensures { option_map (part_of self.now.decoded) result ≡ (book_of self.now).class c }
    {
        self.decoded.class(c)
    }

    // The fields of class `c`, in order; none where there is no such class.
    pub fn fields(&self, c: u16) -> &[Field]
        ensures value { map named_field result.now ≡ fields_of ((book_of self.now).class c) }
        ensures few { length result.now ≤ 512 }
    {
        match self.decoded.class(c) {
            Some(class) => self.decoded.fields_of(class),
            None => &[],
        }
    }

    // The field at place `i` of class `c`.
    pub fn field(&self, c: u16, i: usize) -> Option<Field>
        ensures { option_map named_field result ≡ slice_get (fields_of ((book_of self.now).class c)) i }
    {
        self.decoded.field(c, i)
    }

    // The place of a field of class `c`, by its name number.
    pub fn field_place(&self, c: u16, name: u16) -> Option<usize>
        ensures { result ≡ place (fields_of ((book_of self.now).class c)) name }
    {
        self.decoded.field_place(c, name)
    }

    // A method of class `c`, by its name number.
    pub fn method(&self, c: u16, name: u16) -> Option<Method>
        ensures { option_map meth result ≡ method_of ((book_of self.now).class c) name }
    {
        self.decoded.method(c, name)
    }

    // Name `n`, as a part of the file's bytes; empty where there is no such name.
    pub fn name(&self, n: u16) -> &'a str
        ensures { result.now ≡ (book_of self.now).text n }
    {
        self.decoded.book.name(usize::from(n)).unwrap_or("")
    }
}
