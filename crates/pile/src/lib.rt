// Piles over places that the caller lends.
#![tactic(auto)]

ghost use Rattle.std.specs.Prelude.{◌≡◌, ◌-◌, ◌≤◌, false, [], ◌∷◌, ◌++◌, length, take, if◌then◌else◌, None, nat_lt, slice_set};
ghost use Rattle.std.specs.List.{IsAnyAnswer, slice_get};
ghost use Rattle.pile.specs.Pile.{items, size, Kept, last, without_last};

mod base;

pub use base::Pile;

impl<'a, T: Copy + PartialEq> Pile<'a, T> {
    // An empty pile over these places.
    pub fn new(places: &'a mut [T]) -> Pile<'a, T>
        ensures empty { items result ≡ [] }
        ensures size { size result ≡ length places.old }
        ensures lent { result.places.ghost_name ≡ places.entry.ghost_name }
    {
        Pile { places, height: 0 }
    }

    // The number of places.
    pub fn places(&self) -> usize
        ensures { result ≡ size self.now }
    {
        self.places.len()
    }

    // The number of items.
    pub fn height(&self) -> usize
        ensures count { result ≡ length (items self.now) }
        ensures within { result ≤ size self.now }
    {
        self.as_slice().len()
    }

    // The items, the first put on first.
    pub fn as_slice(&self) -> &[T]
        ensures { result.now ≡ items self.now }
    {
        &self.places[..self.height]
    }

    // The item at place `i`, counted from 0 at the bottom.
    pub fn get(&self, i: usize) -> Option<T>
        ensures { result ≡ slice_get (items self.now) i }
    {
        self.as_slice().get(i).copied()
    }

    pub fn top(&self) -> Option<T>
        ensures { result ≡ last (items self.now) }
    {
        self.as_slice().last().copied()
    }

    // Puts an item on; refused when every place is taken.
    pub fn push(&mut self, item: T) -> bool
        ensures kept { Kept self.old self.new }
        ensures answer { result ≡ nat_lt (length (items self.old)) (size self.old) }
        ensures after { items self.new ≡ (if result then items self.old ++ item ∷ [] else items self.old) }
        ensures refused { result ≡ false → self.new ≡ self.old }
    {
        if self.height == self.places.len() {
            return false;
        }
        self.places[self.height] = item;
        self.height += 1;
        true
    }

    // Takes the top item off; refused when there is none.
    pub fn pop(&mut self) -> Option<T>
        ensures kept { Kept self.old self.new }
        ensures answer { result ≡ last (items self.old) }
        ensures after { items self.new ≡ without_last (items self.old) }
        ensures refused { result ≡ None → self.new ≡ self.old }
    {
        let item = self.top()?;
        self.height -= 1;
        Some(item)
    }

    // Puts another item in the place of the top one; refused when there is none.
    pub fn replace_top(&mut self, item: T) -> bool
        ensures kept { Kept self.old self.new }
        ensures answer { result ≡ nat_lt 0 (length (items self.old)) }
        ensures after { items self.new ≡ (if result then slice_set (items self.old) (length (items self.old) - 1) item else items self.old) }
        ensures refused { result ≡ false → self.new ≡ self.old }
    {
        let Some(top) = self.height.checked_sub(1) else {
            return false;
        };
        self.places[top] = item;
        true
    }

    // Empties the pile.
    pub fn clear(&mut self)
        ensures kept { Kept self.old self.new }
        ensures after { items self.new ≡ [] }
    {
        self.height = 0;
    }

    // Whether an item equal to this one is on the pile.
    pub fn contains(&self, item: T) -> bool
        ensures { IsAnyAnswer (λ y r'. r' ≡ T.PartialEq.eq y item) (items self.now) result }
    {
        self.as_slice().contains(&item)
    }
}

#[cfg(test)]
mod tests {
    use super::*;

    #[derive(Clone, Copy, PartialEq, Eq, Debug)]
    struct Row {
        node: u16,
        stage: u8,
    }

    // Puts a row on through a lent pile and takes it off again: as many rows as before, and the same ones.
    fn on_and_off(rows: &mut Pile<Row>, row: Row) -> bool
        ensures kept { Kept rows.old rows.new }
        ensures answer { result ≡ nat_lt (length (items rows.old)) (size rows.old) }
        ensures after { items rows.new ≡ items rows.old }
    {
        if !rows.push(row) {
            return false;
        }
        let _ = rows.pop();
        true
    }

    #[test]
    fn rows_through_a_helper(rt: HostRuntime) {
        let first = Row { node: 7, stage: 1 };
        let second = Row { node: 7, stage: 2 };
        let mut places = [first; 2];
        let mut rows = Pile::new(&mut places);
        assert!(rt; !rows.contains(first));
        assert!(rt; rows.push(first) && on_and_off(&mut rows, second));
        assert_eq!(rt; rows.top(), Some(first));
        assert!(rt; rows.push(second) && !on_and_off(&mut rows, first));
        assert!(rt; rows.contains(second) && rows.height() == rows.places());
    }

    #[test]
    fn handles_filled_and_emptied(rt: HostRuntime) {
        let mut places = [0u32; 2];
        let mut handles = Pile::new(&mut places);
        assert_eq!(rt; handles.pop(), None);
        assert!(rt; !handles.replace_top(1));
        assert!(rt; handles.push(4) && handles.push(5) && !handles.push(6));
        assert!(rt; handles.replace_top(7) && !handles.contains(5));
        assert_eq!(rt; handles.get(1), Some(7));
        assert_eq!(rt; handles.get(2), None);
        assert_eq!(rt; handles.pop(), Some(7));
        handles.clear();
        assert_eq!(rt; handles.top(), None);
    }
}
