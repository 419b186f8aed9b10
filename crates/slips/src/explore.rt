// Finding the records that are reached from a value, and seeing whether they fit.
ghost use Rattle.std.specs.Prelude.{◌≡◌, ◌≤◌, true, [], length};
ghost use Rattle.pile.specs.Pile.{items, size, Kept};
ghost use Rattle.store.specs.Meaning.{store};
ghost use Rattle.cool.specs.Book.{fields_of};
ghost use Rattle.checked.specs.Checked.{book_of, top_type};
ghost use Rattle.slips.specs.Slip.{noted, all_noted, values_of};
ghost use Rattle.slips.specs.Fitting.{fits, cells_fit, record_fits, Found, Explores};

use book::node::Type;
use checked::CheckedBook;
use numbers::{NumberRule, is_within};
use pile::Pile;
use store::{ObjectStore, Value};

// The book and the store that a slip tells of.
#[derive_where(Clone, Copy)]
pub(crate) struct Sources<'a, 'b, S> {
    pub(crate) book: &'a CheckedBook<'b>,
    pub(crate) objects: &'a S,
}

// Puts a value's handle behind those found, unless it was found before.
fn note(found: &mut Pile<u32>, value: Value)
    ensures kept { Kept found.old found.new }
    ensures after { length (noted (items found.old) value) ≤ size found.old → items found.new ≡ noted (items found.old) value }
{
    if let Value::Handle(handle) = value {
        if !found.contains(handle) {
            let _ = found.push(handle);
        }
    }
}

// That the pile has a place for each record ties it to the store: both are the caller's, so no type of ours keeps it.
impl<S: ObjectStore> Sources<'_, '_, S> {
    // An int within the ends fits int, a boolean boolean, null every class, a handle its record's class.
    fn value_fits<N: NumberRule>(&self, value: Value, typed: Type) -> bool
        ensures { result ≡ fits N.rule (store (S.means self.now.objects.now)) value typed }
    {
        match (value, typed) {
            (Value::Int(n), Type::Int) => is_within::<N>(n),
            (Value::Boolean(_), Type::Boolean) | (Value::Null, Type::Class(_)) => true,
            (Value::Handle(handle), Type::Class(class)) => {
                self.objects.class_of(handle) == Some(class)
            }
            _ => false,
        }
    }

    // Whether a record of a class has a value for each field, and no other, and each fits. If so their handles are noted.
    fn cells_fit<N: NumberRule>(&self, handle: u32, class: u16, found: &mut Pile<u32>) -> bool
        requires there { Found (store (S.means self.now.objects.now)) (items found.old) }
        requires places { (store (S.means self.now.objects.now)).count ≤ size found.old }
        ensures kept { Kept found.old found.new }
        ensures answer { result ≡ cells_fit N.rule (store (S.means self.now.objects.now)) (fields_of ((book_of self.now.book.now).class class)) (values_of ((store (S.means self.now.objects.now)).look handle)) }
        ensures after { result ≡ true → items found.new ≡ all_noted (items found.old) (values_of ((store (S.means self.now.objects.now)).look handle)) }
    {
        let fields = self.book.fields(class);
        for (i, field) in fields.iter().enumerate() {
            let Some(value) = self.objects.value_at(handle, i) else {
                return false;
            };
            if !self.value_fits::<N>(value, field.typed) {
                return false;
            }
            note(found, value);
        }
        self.objects.value_at(handle, fields.len()).is_none()
    }

    // Whether a record fits: it and its class are there, and its cells fit. If so the handles in them are noted.
    fn record_fits<N: NumberRule>(&self, handle: u32, found: &mut Pile<u32>) -> bool
        requires there { Found (store (S.means self.now.objects.now)) (items found.old) }
        requires places { (store (S.means self.now.objects.now)).count ≤ size found.old }
        ensures kept { Kept found.old found.new }
        ensures answer { result ≡ record_fits (book_of self.now.book.now) N.rule (store (S.means self.now.objects.now)) handle }
        ensures after { result ≡ true → items found.new ≡ all_noted (items found.old) (values_of ((store (S.means self.now.objects.now)).look handle)) }
    {
        let Some(class) = self.objects.class_of(handle) else {
            return false;
        };
        self.book.class(class).is_some() && self.cells_fit::<N>(handle, class, found)
    }

    // Finds the records reached from a value, in order, as long as they fit; the value, if all do.
    pub(crate) fn explore<N: NumberRule>(
        &self,
        value: Value,
        found: &mut Pile<u32>,
    ) -> Option<Value>
        requires empty { items found.old ≡ [] }
        requires places { (store (S.means self.now.objects.now)).count ≤ size found.old }
        ensures kept { Kept found.old found.new }
        ensures answer { Explores (book_of self.now.book.now) N.rule (store (S.means self.now.objects.now)) (top_type self.now.book.now) value (items found.new) result }
    {
        if !self.value_fits::<N>(value, self.book.top_type()) {
            return None;
        }
        note(found, value);
        // by index, since the pile grows while it is walked, which no iterator over it allows
        let mut i = 0;
        while let Some(handle) = found.get(i) {
            if !self.record_fits::<N>(handle, found) {
                return None;
            }
            i += 1;
        }
        Some(value)
    }
}
