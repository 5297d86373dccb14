// The first 201 bytes of what is put into it: of a line, enough to tell that it is too long.
ghost use Rattle.std.specs.Prelude.{◌≡◌, ◌≤◌, [], ◌∷◌, ◌++◌, length, take};

use std::marker::Model;

// One byte more than the longest line.
const SIZE: usize = 201;

// An array and a length, and no `ArrayVec`, whose `clear` writes every byte that is held.
#[derive(Drop)]
pub struct Front {
    bytes: [u8; SIZE],
    len: usize,
    ghost within: { len ≤ 201 },
}

// Clauses see the bytes that are held, and that they are at most 201.
impl Model for Front {
    ghost use Rattle.console.specs.Fronts.{Held, held_code, first_bytes};

    ghost Value = { Held };

    ghost coded = { held_code };

    ghost view = { λ f. first_bytes f.len f.bytes f.within };
}

impl Front {
    pub fn new() -> Front
        ensures { result.bytes ≡ [] }
    {
        Front {
            bytes: [0; SIZE],
            len: 0,
        }
    }

    // The bytes that are held.
    pub fn as_slice(&self) -> &[u8]
        ensures value { result.now ≡ self.now.bytes }
        ensures within { length result.now ≤ 201 }
    {
        &self.bytes[..self.len]
    }

    pub fn clear(&mut self)
        ensures { self.new.bytes ≡ [] }
    {
        self.len = 0;
    }

    // Bytes more, as far as there is room.
    pub fn put(&mut self, part: &[u8])
        ensures { self.new.bytes ≡ take 201 (self.old.bytes ++ part.now) }
    {
        let n = part.len().min(SIZE - self.len);
        self.bytes[self.len..self.len + n].copy_from_slice(&part[..n]);
        self.len += n;
    }

    // One byte more, if there is room.
    pub(crate) fn put_byte(&mut self, byte: u8)
        ensures { self.new.bytes ≡ take 201 (self.old.bytes ++ byte ∷ []) }
    {
        if self.len < SIZE {
            self.bytes[self.len] = byte;
            self.len += 1;
        }
    }
}
