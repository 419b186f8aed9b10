// New records.
ghost use Rattle.std.specs.Prelude.{◌≡◌, ℕ, ◌≤◌, List, map, length, take, Some};
ghost use Rattle.book.specs.declared.node.Node.TheVariants.{New};
ghost use Rattle.numbers.specs.Rule.{Rule};
ghost use Rattle.store.specs.Meaning.{Makes, store};
ghost use Rattle.checked.specs.Checked.{named_field};
ghost use Rattle.machine.specs.declared.state.Hand.TheVariants.{Go};
ghost use Rattle.machine.specs.declared.state.Row.{Row as Waiting};
ghost use Rattle.machine.specs.Fields.{first_value, first_values};
ghost use Rattle.engine.specs.Runs.{given_by, book_in};
ghost use Rattle.engine.specs.Moves.{Steps};

use crate::base::Given;
use crate::moves::Stepped;
use book::entry::Field;
use book::node::Type;
use machine::state::{Around, End, Hand};
use store::{ObjectStore, Value};

// Most classes have few fields: their first values need little room.
const FEW: usize = 16;

const MOST: usize = 512;

// A field's first value: 0, false or null.
fn first_value(typed: Type) -> Value
    ensures { result ≡ first_value typed }
{
    match typed {
        Type::Int => Value::Int(0),
        Type::Boolean => Value::Boolean(false),
        Type::Class(_) => Value::Null,
    }
}

// Writes the fields' first values from the first place on.
// By index: over iter_mut and zip the proof didn't close, in what the loans of the places leave in the slice.
fn fill(fields: &[Field], values: &mut [Value])
    requires { length fields.now ≤ length values.old }
    ensures { take (length fields.now) values.new ≡ first_values (map named_field fields.now) }
{
    for (i, field) in fields.iter().enumerate() {
        values[i] = first_value(field.typed);
    }
}

// A record with the fields' first values, made in a room for N values.
// The room is an array: to collect into a vector of fixed capacity takes an allocator, and the calls have none.
fn make_within<S: ObjectStore, const N: usize>(
    fields: &[Field],
    class: u16,
    objects: &mut S,
) -> Option<u32>
    requires enough { length fields.now ≤ N }
    requires small { N ≤ 512 }
    ensures { Makes (S.ObjectStore.means objects.old) class (first_values (map named_field fields.now)) result (S.ObjectStore.means objects.new) }
{
    let mut room = [Value::Null; N];
    fill(fields, &mut room);
    objects.make(class, &room[..fields.len()])
}

// A record with the fields' first values.
fn make<S: ObjectStore>(fields: &[Field], class: u16, objects: &mut S) -> Option<u32>
    requires { length fields.now ≤ 512 }
    ensures { Makes (S.ObjectStore.means objects.old) class (first_values (map named_field fields.now)) result (S.ObjectStore.means objects.new) }
{
    if fields.len() <= FEW {
        make_within::<S, FEW>(fields, class, objects)
    } else {
        make_within::<S, MOST>(fields, class, objects)
    }
}

impl<N> Given<'_, N> {
    // Goes to node `k`, a new record of a class: its handle is in hand, or the run ends for want of room.
    pub(crate) fn new_record<S: ObjectStore>(
        &self,
        k: u16,
        class: u16,
        around: Around,
        objects: &mut S,
    ) -> Option<Stepped>
        ensures { (R : Rule) (n : ℕ) (ρ : List Waiting) → (book_in self.now).node k ≡ Some (New class) → Steps (given_by R self.now n) (Go k) around ρ (store (S.ObjectStore.means objects.old)) result ρ (store (S.ObjectStore.means objects.new)) }
    {
        let _ = self.book.class(class)?;
        match make(self.book.fields(class), class, objects) {
            Some(handle) => Some(Stepped::Next(Hand::Have(Value::Handle(handle)), around)),
            None => Some(Stepped::Ends(End::NoRoom(k))),
        }
    }
}
