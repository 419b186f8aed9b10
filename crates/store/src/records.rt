// What both stores do alike: records over cells, however the cells lie.
ghost use Rattle.std.specs.Prelude.{◌≡◌, ◌≤◌, length, vec_len, vec_capacity};
ghost use Rattle.std.specs.List.{slice_get};
ghost use Rattle.store.specs.Layouts.{Laid, record_of, spot_of};
ghost use Rattle.store.specs.Meaning.{Opens};
ghost use Rattle.store.specs.Numbering.{counted};
ghost use Rattle.store.specs.Numbered.{is_sound};

use crate::cells::Cells;
use crate::{ObjectStore, StoreError, Value};
use std::alloc::Global;

// A record: its class, where its cells begin and how many it has.
#[derive(Clone, Copy)]
pub struct Head {
    class: u16,
    first: usize,
    len: usize,
}

// A head for each record at its handle, and the cells, all in memory that was taken when the store was made.
#[derive(Drop)]
pub struct Records<C: Cells> {
    heads: Vec<Head>,
    cells: C,
    most_records: usize,
    most_cells: usize,
    ghost laid: { Laid heads.items (C.layout cells) },
    // All the memory is there.
    ghost reserved: { (most_records ≤ vec_capacity heads) × (most_cells ≤ C.room cells) },
    ghost few: { (vec_len heads ≤ most_records) × (length (C.layout cells).row ≤ most_cells) },
    ghost bounds: { (most_records ≤ 4096) × (most_cells ≤ 65535) },
}

impl<C: Cells> Records<C> {
    // An empty store for that many records and cells, with the memory for all of them.
    pub fn new(alloc: Global, most_records: usize, most_cells: usize) -> Result<Self, StoreError>
        ensures { Opens ⟦<Records<C> as ObjectStore>⟧.means most_records most_cells result }
    {
        if most_records > 4096 || most_cells > 65535 {
            return Err(StoreError::BeyondBounds);
        }
        Ok(Records {
            heads: Vec::with_capacity(alloc, most_records)?,
            cells: C::with_capacity(alloc, most_cells)?,
            most_records,
            most_cells,
        })
    }

    fn head(&self, handle: u32) -> Option<Head>
        ensures { result ≡ slice_get self.now.heads.items handle }
    {
        self.heads.get(handle as usize).copied()
    }

    // The cell of a record's place.
    #[tactic(auto, using(crate::proofs::Laid::along))]
    fn spot(&self, handle: u32, place: usize) -> Option<usize>
        ensures { result ≡ spot_of (C.layout self.now.cells) self.now.heads.items handle place }
    {
        let head = self.head(handle)?;
        (place < head.len).then(|| self.cells.locate(head.first, place))
    }
}

#[tactic(auto, using(crate::specs::Numbered::counts_are, crate::specs::Numbered::handle_is, crate::proofs::Laid::class_read, crate::proofs::Laid::value_read, crate::proofs::Laid::in_row, crate::proofs::Laid::laid_written, crate::proofs::More::longer))]
impl<C: Cells> ObjectStore for Records<C> {
    ghost means = { λ s. counted (record_of (C.layout s.cells)) s.heads.items s.most_records s.most_cells };

    ghost sound = { λ s. is_sound (C.layout s.cells) s.heads.items s.most_records s.most_cells s.laid _ s.heads.ok.0 s.few s.bounds };

    fn make(&mut self, class: u16, values: &[Value]) -> Option<u32> {
        let handle = self.heads.len();
        if handle >= self.most_records || values.len() > self.most_cells - self.cells.count() {
            return None;
        }
        let first = self.cells.append(values);
        self.heads.push_reserved(Head {
            class,
            first,
            len: values.len(),
        });
        Some(handle as u32)
    }

    fn class_of(&self, handle: u32) -> Option<u16> {
        self.head(handle).map(|head| head.class)
    }

    fn value_at(&self, handle: u32, place: usize) -> Option<Value> {
        self.cells.get(self.spot(handle, place)?)
    }

    fn put(&mut self, handle: u32, place: usize, value: Value) -> bool {
        let Some(at) = self.spot(handle, place) else {
            return false;
        };
        self.cells.set(at, value);
        true
    }

    fn nth(&self, n: usize) -> Option<u32> {
        (n < self.heads.len()).then(|| n as u32)
    }

    fn record_count(&self) -> usize {
        self.heads.len()
    }

    fn cell_count(&self) -> usize {
        self.cells.count()
    }

    fn record_limit(&self) -> usize {
        self.most_records
    }

    fn cell_limit(&self) -> usize {
        self.most_cells
    }
}
