// How a table is changed.
ghost use Rattle.std.specs.Prelude.{◌≡◌, ◌<◌, ◌↔◌, [], ◌∷◌, ◌++◌, length, IsOk, OnOk, OnErr, slice_get, slice_set};
ghost use Rattle.std.specs.List.{remove};

use crate::full::Full;
use crate::table::Table;
use std::mem;

impl<T: Copy, const N: usize> Table<T, N> {
    // Adds a row behind the last item; where there is no room nothing changes.
    pub fn push(&mut self, row: T) -> Result<(), Full>
        ensures room { IsOk result ↔ (length self.old.items < N) }
        ensures ok { OnOk result (self.new.items ≡ self.old.items ++ row ∷ []) }
        ensures err { OnErr result (self.new ≡ self.old) }
    {
        if self.len == N {
            return Err(Full);
        }
        self.rows[self.len] = row;
        self.len += 1;
        Ok(())
    }

    // Puts a row in the place of an item, and hands that item out; past the last nothing changes.
    pub fn set(&mut self, place: usize, row: T) -> Option<T>
        ensures was { result ≡ slice_get self.old.items place }
        ensures after { self.new.items ≡ slice_set self.old.items place row }
    {
        if place >= self.len {
            return None;
        }
        Some(mem::replace(&mut self.rows[place], row))
    }

    // Takes an item out, and hands it out; past the last nothing changes. The items behind it keep their order.
    pub fn remove(&mut self, place: usize) -> Option<T>
        ensures was { result ≡ slice_get self.old.items place }
        ensures after { self.new.items ≡ remove self.old.items place }
    {
        if place >= self.len {
            return None;
        }
        let was = self.rows[place];
        self.rows.copy_within(place + 1..self.len, place);
        self.len -= 1;
        Some(was)
    }

    // Takes every item out.
    pub fn clear(&mut self)
        ensures { self.new.items ≡ [] }
    {
        self.len = 0;
    }
}
