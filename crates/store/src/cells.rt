// What the two stores do each in its own way: how the values of records lie in memory.
ghost use Rattle.std.specs.Prelude.{ℕ, ◌≡◌, ◌+◌, ◌<◌, ◌≤◌, length, IfOk};
ghost use Rattle.std.specs.List.{slice_get};
ghost use Rattle.store.specs.Layouts.{Layout, Appends, IsEmpty, rewritten};

use crate::Value;
use std::alloc::{AllocError, Global};

// The cells of a store, each with one value. A record takes its cells when it is made, and keeps them.
pub trait Cells: Drop {
    ghost layout: { Self → Layout };

    // How many cells there is memory for.
    ghost room: { Self → ℕ };

    fn with_capacity(alloc: Global, most: usize) -> Result<Self, AllocError>
        ensures empty { IfOk result (λ c. IsEmpty (layout c)) }
        ensures room { IfOk result (λ c. most ≤ room c) };

    // Cells for one record more, with these values: tells where it begins.
    fn append(&mut self, values: &[Value]) -> usize
        requires { length (layout self.old).row + length values.now ≤ room self.old }
        ensures appends { Appends (layout self.old) values.now result (layout self.new) }
        ensures room { room self.old ≤ room self.new };

    // The cell at a place of the record that begins at `first`.
    fn locate(&self, first: usize, place: usize) -> usize
        requires { (k : ℕ) → k ≤ place → (layout self.now).lies first k < length (layout self.now).row }
        ensures { result ≡ (layout self.now).lies first place };

    fn get(&self, at: usize) -> Option<Value>
        ensures { result ≡ slice_get (layout self.now).row at };

    fn set(&mut self, at: usize, value: Value)
        requires { at < length (layout self.old).row }
        ensures cells { layout self.new ≡ rewritten (layout self.old) at value }
        ensures room { room self.new ≡ room self.old };

    fn count(&self) -> usize
        ensures { result ≡ length (layout self.now).row };
}
