// How a table is made and read.
ghost use Rattle.std.specs.Prelude.{◌≡◌, ◌<◌, ◌≤◌, [], length, Some, slice_get, slice_index_or};

use crate::table::Table;

impl<T: Copy, const N: usize> Table<T, N> {
    // A table with no items. The blank fills the places that hold no row.
    pub fn new(blank: T) -> Table<T, N>
        ensures { result.items ≡ [] }
    {
        Table {
            rows: [blank; N],
            len: 0,
        }
    }

    // How many items there are.
    pub fn len(&self) -> usize
        ensures count { result ≡ length self.now.items }
        ensures fits { result ≤ N }
    {
        self.len
    }

    // The item at a place, counted from 0, or None past the last.
    pub fn get(&self, place: usize) -> Option<T>
        ensures item { result ≡ slice_get self.now.items place }
        ensures there { place < length self.now.items → (d : T) → result ≡ Some (slice_index_or self.now.items place d) }
    {
        self.as_slice().get(place).copied()
    }

    // The items as a slice.
    pub fn as_slice(&self) -> &[T]
        ensures items { result.now ≡ self.now.items }
        ensures fits { length result.now ≤ N }
    {
        &self.rows[..self.len]
    }

    // A second table with equal items. No derived `Copy`: it asks for the places that hold no row too, and a clause sees the items alone.
    // Nor `Clone`, which may fail where this cannot.
    pub fn copied(&self) -> Table<T, N>
        ensures items { result.items ≡ self.now.items }
        ensures value { result ≡ self.now }
    {
        Table {
            rows: self.rows,
            len: self.len,
        }
    }
}
