// Both stores against one table of calls, filled to their limits and one beyond: `stdout` has what each answers.
#![tactic(auto)]

ghost use Rattle.std.specs.Prelude.{◌≡◌, ℕ, Some, MatchResult};
ghost use Rattle.store.specs.Meaning.{Opens};
ghost use Rattle.store.specs.declared.StoreError.TheVariants.{NoMemory};

use std::io;
use store::chained::ChainedStore;
use store::packed::PackedStore;
use store::{ObjectStore, StoreError, Value};

// The generic trial in a new store with room for two records: what was written, and what was not.
fn trial<S: ObjectStore + Drop>(
    opened: Result<S, StoreError>,
    old: Value,
    new: Value,
) -> Result<Option<(Value, Value)>, StoreError>
    requires { Opens S.ObjectStore.means 2 2 opened }
    ensures { MatchResult result (λ o. o ≡ Some (new, old)) (λ e. e ≡ NoMemory) }
{
    let mut objects = opened?;
    Ok(store::try_two(&mut objects, 0, old, new))
}

fn counts<S: ObjectStore>(rt: &HostRuntime, objects: &S) -> io::Result<()> {
    let records = objects.record_count();
    let most_records = objects.record_limit();
    let cells = objects.cell_count();
    let most_cells = objects.cell_limit();
    println!(rt; "{records} of {most_records} records, {cells} of {most_cells} cells")
}

fn record<S: ObjectStore>(rt: &HostRuntime, objects: &S, handle: u32) -> io::Result<()> {
    let class = objects.class_of(handle);
    println!(rt; "class {class:?}")?;
    // one place more than any record has
    for place in 0..3 {
        let value = objects.value_at(handle, place);
        println!(rt; "  {place}: {value:?}")?;
    }
    Ok(())
}

// The table, for a store of at most three records and four cells.
fn table<S: ObjectStore>(rt: &HostRuntime, objects: &mut S) -> io::Result<()> {
    let pair = [Value::Int(-7), Value::Null];
    let single = [Value::Boolean(true)];
    let Some(first) = objects.make(1, &pair) else {
        return println!(rt; "no first record");
    };
    let Some(second) = objects.make(2, &single) else {
        return println!(rt; "no second record");
    };
    println!(rt; "one cell too many: {}", objects.make(3, &pair).is_none())?;
    println!(rt; "the last cell: {}", objects.make(3, &single).is_some())?;
    println!(rt; "one record too many: {}", objects.make(4, &[]).is_none())?;
    counts(rt, objects)?;
    println!(rt; "put: {}", objects.put(first, 1, Value::Handle(second)))?;
    println!(rt;
        "put past the record: {}",
        objects.put(second, 1, Value::Null)
    )?;
    let handle = objects.value_at(first, 1);
    println!(rt; "linked: {}", handle == Some(Value::Handle(second)))?;
    println!(rt; "put again: {}", objects.put(first, 1, Value::Int(5)))?;
    record(rt, objects, first)?;
    record(rt, objects, second)?;
    record(rt, objects, u32::MAX)?;
    each(rt, objects)
}

// Every record in the order of `nth`, and one place further.
fn each<S: ObjectStore>(rt: &HostRuntime, objects: &S) -> io::Result<()> {
    let sum = (0..4).fold(0, |sum: u16, n| {
        let class = match objects.nth(n) {
            Some(handle) => objects.class_of(handle).unwrap_or(0),
            None => 100,
        };
        sum.wrapping_add(class)
    });
    println!(rt; "classes and the end: {sum}")
}

// The trial and the table, for one kind of store.
fn kind<S: ObjectStore + Drop, F: Fn(usize, usize) -> Result<S, StoreError>>(
    rt: &HostRuntime,
    name: &str,
    opener: F,
) -> io::Result<()>
    requires callable { F.IsAlwaysCallable opener }
    requires opens { (r q : ℕ) (o : _) → F.post opener r q o → Opens S.ObjectStore.means r q o }
{
    println!(rt;
        "{name}: {:?}",
        trial(opener(2, 2), Value::Null, Value::Int(1))
    )?;
    match opener(3, 4) {
        Ok(mut objects) => table(rt, &mut objects),
        Err(error) => println!(rt; "{error:?}"),
    }
}

// What opening at and beyond the bounds answers.
#[derive(Drop)]
struct Answers {
    at: bool,
    records: Option<StoreError>,
    cells: Option<StoreError>,
}

fn answers_of<S: Drop, F: Fn(usize, usize) -> Result<S, StoreError>>(opener: F) -> Answers
    requires { F.IsAlwaysCallable opener }
{
    Answers {
        at: opener(4096, 65535).is_ok(),
        records: opener(4097, 0).err(),
        cells: opener(0, 65536).err(),
    }
}

fn main(rt: HostRuntime) -> anyhow::Result<()> {
    let alloc = rt.alloc();
    let packed = |records, cells| PackedStore::new(alloc, records, cells);
    let chained = |records, cells| ChainedStore::new(alloc, records, cells);
    kind(&rt, "packed", &packed)?;
    kind(&rt, "chained", &chained)?;
    let both = [answers_of(packed), answers_of(chained)];
    for answers in &both {
        println!(rt; "at the bounds: {}", answers.at)?;
    }
    for answers in &both {
        println!(rt; "records beyond: {:?}", answers.records)?;
    }
    for answers in &both {
        println!(rt; "cells beyond: {:?}", answers.cells)?;
    }
    Ok(())
}
