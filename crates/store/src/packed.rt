// The packed store.
ghost use Rattle.std.specs.Prelude.{◌+◌, vec_capacity};
ghost use Rattle.store.specs.Packing.{packed_layout};

use crate::Value;
use crate::cells::Cells;
use crate::records::Records;
use std::alloc::{AllocError, Global};

// A store whose records lie end to end in one row of cells.
pub type PackedStore = Records<Row>;

// The values of all records, end to end.
#[derive(Drop)]
pub struct Row {
    values: Vec<Value>,
}

impl Cells for Row {
    ghost layout = { λ c. packed_layout c.values.items };

    ghost room = { λ c. vec_capacity c.values };

    fn with_capacity(alloc: Global, most: usize) -> Result<Self, AllocError> {
        Ok(Row {
            values: Vec::with_capacity(alloc, most)?,
        })
    }

    fn append(&mut self, values: &[Value]) -> usize {
        let first = self.values.len();
        // Never an error, since the memory is reserved.
        let _ = self.values.extend_from_slice(values);
        first
    }

    fn locate(&self, first: usize, place: usize) -> usize {
        first + place
    }

    fn get(&self, at: usize) -> Option<Value> {
        self.values.get(at).copied()
    }

    fn set(&mut self, at: usize, value: Value) {
        self.values[at] = value;
    }

    fn count(&self) -> usize {
        self.values.len()
    }
}
