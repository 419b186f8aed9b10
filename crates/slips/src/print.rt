// The lines of a slip.
ghost use Rattle.std.specs.Prelude.{◌≡◌, Some};
ghost use Rattle.store.specs.Meaning.{store};
ghost use Rattle.cool.specs.Book.{fields_of};
ghost use Rattle.checked.specs.Checked.{book_of, named_field};
ghost use Rattle.slips.specs.Slip.{label, truth, cell_words, cell_text, cells_text, class_name, values_of, record_line, record_lines, value_words, value_lines, node_words, first_line, text_of};
ghost use Rattle.slips.specs.Writing.{Puts};

use crate::writer::Writer;
use book::entry::Field;
use checked::CheckedBook;
use machine::state::End;
use store::{ObjectStore, Value};

// What is printed: the end and the steps of a run, and, where a value is shown, that value and the records found, by their
// book and store.
#[derive_where(Clone, Copy)]
pub(crate) struct Slip<'a, 'b, S> {
    pub(crate) end: End,
    pub(crate) steps: u32,
    pub(crate) shown: Option<Value>,
    pub(crate) book: &'a CheckedBook<'b>,
    pub(crate) objects: &'a S,
    pub(crate) found: &'a [u32],
}

fn truth_word(b: bool) -> &'static [u8]
    ensures { result.now ≡ truth b }
{
    if b { b"true" } else { b"false" }
}

fn put_words(w: &mut Writer, value: Value)
    ensures { Puts w.old w.new (value_words value) }
{
    match value {
        Value::Int(n) => {
            w.put(b"int ");
            w.put_decimal(n);
        }
        Value::Boolean(b) => {
            w.put(b"boolean ");
            w.put(truth_word(b));
        }
        Value::Null => w.put(b"null"),
        Value::Handle(_) => w.put(b"object 0"),
    }
}

fn put_node(w: &mut Writer, node: Option<u16>)
    ensures { Puts w.old w.new (node_words node) }
{
    match node {
        Some(k) => w.put_decimal(k),
        None => w.put(b"-"),
    }
}

impl<S: ObjectStore> Slip<'_, '_, S> {
    // A record's label: its place among the handles found.
    fn label_of(&self, handle: u32) -> usize
        ensures { result ≡ label self.now.found.now handle }
    {
        self.found
            .iter()
            .position(|&other| handle == other)
            .unwrap_or(self.found.len())
    }

    // A value in a record's line.
    fn put_cell(&self, w: &mut Writer, value: Value)
        ensures { Puts w.old w.new (cell_words self.now.found.now value) }
    {
        match value {
            Value::Int(n) => w.put_decimal(n),
            Value::Boolean(b) => w.put(truth_word(b)),
            Value::Null => w.put(b"null"),
            Value::Handle(handle) => {
                w.put(b"#");
                w.put_decimal(self.label_of(handle));
            }
        }
    }

    fn put_field(&self, w: &mut Writer, field: Field, value: Value)
        ensures { Puts w.old w.new (cell_text (book_of self.now.book.now) self.now.found.now (Some (named_field field)) (Some value)) }
    {
        w.put(b" ");
        w.put(self.book.name(field.name).as_bytes());
        w.put(b"=");
        self.put_cell(w, value);
    }

    // The fields of a record of a class, each with its value.
    fn put_cells(&self, w: &mut Writer, class: u16, handle: u32)
        ensures { Puts w.old w.new (cells_text (book_of self.now.book.now) self.now.found.now (fields_of ((book_of self.now.book.now).class class)) (values_of ((store (S.means self.now.objects.now)).look handle))) }
    {
        for (i, field) in self.book.fields(class).iter().enumerate() {
            if let Some(value) = self.objects.value_at(handle, i) {
                self.put_field(w, *field, value);
            }
        }
    }

    fn name_of(&self, class: u16) -> &[u8]
        ensures { result.now ≡ class_name (book_of self.now.book.now) ((book_of self.now.book.now).class class) }
    {
        match self.book.class(class) {
            Some(known) => self.book.name(known.name).as_bytes(),
            None => &[],
        }
    }

    // The line of a record with its label.
    fn put_record(&self, w: &mut Writer, label: usize, handle: u32)
        ensures { Puts w.old w.new (record_line (book_of self.now.book.now) self.now.found.now label ((store (S.means self.now.objects.now)).look handle)) }
    {
        let Some(class) = self.objects.class_of(handle) else {
            return;
        };
        w.put_decimal(label);
        w.put(b" ");
        w.put(self.name_of(class));
        self.put_cells(w, class, handle);
        w.put(b"\n");
    }

    fn put_records(&self, w: &mut Writer)
        ensures { Puts w.old w.new (record_lines (book_of self.now.book.now) (store (S.means self.now.objects.now)) self.now.found.now) }
    {
        for (i, handle) in self.found.iter().enumerate() {
            self.put_record(w, i, *handle);
        }
    }

    fn put_value(&self, w: &mut Writer, value: Value)
        ensures { Puts w.old w.new (value_lines (book_of self.now.book.now) (store (S.means self.now.objects.now)) self.now.found.now value) }
    {
        put_words(w, value);
        w.put(b"\n");
        self.put_records(w);
    }

    fn put_first(&self, w: &mut Writer)
        ensures { Puts w.old w.new (first_line self.now.end self.now.steps) }
    {
        w.put(b"end ");
        w.put_decimal(self.end.number());
        w.put(b" node ");
        put_node(w, self.end.node());
        w.put(b" steps ");
        w.put_decimal(self.steps);
        w.put(b"\n");
    }

    // Prints the first line and, where a value is shown, its line and those of the records found.
    pub(crate) fn print(&self, w: &mut Writer)
        ensures { Puts w.old w.new (text_of S.means self.now) }
    {
        self.put_first(w);
        if let Some(value) = self.shown {
            self.put_value(w, value);
        }
    }
}
