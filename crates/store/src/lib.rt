// Object stores: records with handles, within limits that are fixed when a store is made.
#![tactic(auto)]

ghost use Rattle.std.specs.Prelude.{◌≡◌};
ghost use Rattle.std.specs.List.{slice_get};
ghost use Rattle.store.specs.declared.StoreError.TheVariants.{NoMemory};
ghost use Rattle.store.specs.Meaning.{Means, Sound, store, handles, Makes, Puts, class_at, value_at};
ghost use Rattle.store.specs.Trying.{Tries, room_for_two};

mod cells;
pub mod chained;
pub mod packed;
mod records;

use std::alloc::AllocError;

// A value: an int, a boolean, null, or a record by its handle.
#[derive(Clone, Copy, PartialEq, Eq, Debug)]
pub enum Value {
    Int(i32),
    Boolean(bool),
    Null,
    Handle(u32),
}

// Why no store was made: a limit beyond its bound, 4,096 records or 65,535 cells, or want of memory.
#[derive(Clone, Copy, PartialEq, Eq, Debug)]
pub enum StoreError {
    BeyondBounds,
    NoMemory,
}

impl From<AllocError> for StoreError {
    ghost from_gives = { λ _ e. e ≡ NoMemory };

    fn from(_error: AllocError) -> StoreError {
        StoreError::NoMemory
    }
}

// A store is known by what it means. All its memory is taken when it is made, so that no call fails for want of it.
pub trait ObjectStore {
    ghost means: { Self → Means };

    // One record more, under a handle that no record has; refused when there is no room.
    fn make(&mut self, class: u16, values: &[Value]) -> Option<u32>
        ensures { Makes (means self.old) class values.now result (means self.new) };

    fn class_of(&self, handle: u32) -> Option<u16>
        ensures { result ≡ class_at (store (means self.now)) handle };

    fn value_at(&self, handle: u32, place: usize) -> Option<Value>
        ensures { result ≡ value_at (store (means self.now)) handle place };

    // Writes one cell; refused when the handle or the place is not there.
    fn put(&mut self, handle: u32, place: usize, value: Value) -> bool
        ensures { Puts (means self.old) handle place value result (means self.new) };

    // The handle of the n-th record in the store's own order.
    fn nth(&self, n: usize) -> Option<u32>
        ensures { result ≡ slice_get (handles (means self.now)) n };

    fn record_count(&self) -> usize
        ensures { result ≡ (store (means self.now)).count };

    fn cell_count(&self) -> usize
        ensures { result ≡ (store (means self.now)).used };

    fn record_limit(&self) -> usize
        ensures { result ≡ (store (means self.now)).most_records };

    fn cell_limit(&self) -> usize
        ensures { result ≡ (store (means self.now)).most_cells };

    ghost sound: { (s : Self) → Sound (means s) };
}

fn has_room_for_two<S: ObjectStore>(objects: &S) -> bool
    ensures { result ≡ room_for_two (store (S.ObjectStore.means objects.now)) }
{
    objects.record_limit() - objects.record_count() >= 2
        && objects.cell_limit() - objects.cell_count() >= 2
}

// Makes two records of one cell each, writes into the first and reads both back: proved once, for every store.
pub fn try_two<S: ObjectStore>(
    objects: &mut S,
    class: u16,
    old: Value,
    new: Value,
) -> Option<(Value, Value)>
    ensures { Tries (S.ObjectStore.means objects.old) class old new result (S.ObjectStore.means objects.new) }
{
    if !has_room_for_two(objects) {
        return None;
    }
    let values = [old];
    let first = objects.make(class, &values)?;
    let second = objects.make(class, &values)?;
    let _ = objects.put(first, 0, new);
    Some((objects.value_at(first, 0)?, objects.value_at(second, 0)?))
}
