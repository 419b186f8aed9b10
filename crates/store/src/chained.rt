// The chained store.
ghost use Rattle.std.specs.Prelude.{◌≡◌, ◌+◌, ◌≤◌, length, vec_len, vec_capacity};
ghost use Rattle.store.specs.Chaining.{chained_layout, ChainFrom};

use crate::Value;
use crate::cells::Cells;
use crate::records::Records;
use std::alloc::{AllocError, Global};

// A store whose records are chains of single cells.
pub type ChainedStore = Records<Chains>;

// One value, and the index of the next cell; at a record's last cell that index means nothing. An index and no `Box`,
// since all memory is taken at once when a store is made.
#[derive(Clone, Copy)]
struct Cell {
    value: Value,
    next: usize,
}

// The cells of all records, a chain for each.
#[derive(Drop)]
pub struct Chains {
    cells: Vec<Cell>,
}

// Adds a chain with these values, from its last cell to its first, and tells the first.
fn link_up(cells: &mut Vec<Cell>, values: &[Value]) -> usize
    requires { vec_len cells.old + length values.now ≤ vec_capacity cells.old }
    ensures chain { ChainFrom cells.old.items cells.new.items result values.now }
    ensures capacity { vec_capacity cells.new ≡ vec_capacity cells.old }
{
    let mut next = 0;
    for value in values.iter().rev() {
        let here = cells.len();
        cells.push_reserved(Cell {
            value: *value,
            next,
        });
        next = here;
    }
    next
}

impl Cells for Chains {
    ghost layout = { λ c. chained_layout c.cells.items };

    ghost room = { λ c. vec_capacity c.cells };

    fn with_capacity(alloc: Global, most: usize) -> Result<Self, AllocError> {
        Ok(Chains {
            cells: Vec::with_capacity(alloc, most)?,
        })
    }

    fn append(&mut self, values: &[Value]) -> usize {
        link_up(&mut self.cells, values)
    }

    fn locate(&self, first: usize, place: usize) -> usize {
        let mut at = first;
        // One hop a place: a fold is no plainer, and hides that each index is in range.
        for _ in 0..place {
            at = self.cells[at].next;
        }
        at
    }

    fn get(&self, at: usize) -> Option<Value> {
        self.cells.get(at).map(|cell| cell.value)
    }

    fn set(&mut self, at: usize, value: Value) {
        self.cells[at].value = value;
    }

    fn count(&self) -> usize {
        self.cells.len()
    }
}
