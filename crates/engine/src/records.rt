// What a record's own class has: places of fields, methods.
ghost use Rattle.std.specs.Prelude.{◌≡◌};
ghost use Rattle.std.specs.Option.{option_map};
ghost use Rattle.store.specs.declared.Value.{Value as Val};
ghost use Rattle.store.specs.Meaning.{store};
ghost use Rattle.cool.specs.Book.{fields_of};
ghost use Rattle.checked.specs.Checked.{meth};
ghost use Rattle.machine.specs.Machine.{Outcome, or_misfit, the_cell};
ghost use Rattle.engine.specs.Runs.{book_in};
ghost use Rattle.engine.specs.Moves.{place_in, method_in};

use crate::base::Given;
use checked::table::Method;
use store::{ObjectStore, Value};

impl<N> Given<'_, N> {
    // The place of a field of a record.
    pub(crate) fn place_of<S: ObjectStore>(
        &self,
        objects: &S,
        handle: u32,
        name: u16,
    ) -> Option<usize>
        ensures { result ≡ place_in (book_in self.now) ((store (S.ObjectStore.means objects.now)).look handle) name }
    {
        let class = objects.class_of(handle)?;
        self.book.field_place(class, name)
    }

    // A method of a record.
    pub(crate) fn method_of<S: ObjectStore>(
        &self,
        objects: &S,
        handle: u32,
        name: u16,
    ) -> Option<Method>
        ensures { option_map meth result ≡ method_in (book_in self.now) ((store (S.ObjectStore.means objects.now)).look handle) name }
    {
        let class = objects.class_of(handle)?;
        self.book.method(class, name)
    }

    // The cell of a field of a record.
    pub(crate) fn cell_of<S: ObjectStore>(
        &self,
        objects: &S,
        handle: u32,
        name: u16,
    ) -> Option<Value>
        ensures { (f : Val → Outcome) → or_misfit result f ≡ or_misfit ((store (S.ObjectStore.means objects.now)).look handle) (λ o. the_cell (fields_of ((book_in self.now).class o.class)) o.values name (λ i w. f w)) }
    {
        let place = self.place_of(objects, handle, name)?;
        objects.value_at(handle, place)
    }
}
