// The name of a product or a contract, kept in the row.
ghost use Rattle.std.specs.Prelude.{◌≡◌};
ghost use Rattle.books.specs.Names.{name_if_fit, name_bytes, is_same_name};

use entry::is_name;

// The most bytes of a name.
const LONGEST: usize = 8;

// 1 to 8 bytes, and zeros behind them.
// No `impl Model`, by which a clause would see the bytes: tried, and a row with a name is then moved, not copied, when it is passed on.
// No `ArrayVec` in place of the buffer and the length: rows are `Copy`, and it is not.
#[derive(Clone, Copy, Drop)]
pub struct Name {
    bytes: [u8; LONGEST],
    len: usize,
}

impl Name {
    // A name of 1 to 8 capitals or digits; other bytes are none. No `TryFrom`: its error would say no more than None.
    pub fn new(bytes: &[u8]) -> Option<Name>
        ensures { result ≡ name_if_fit bytes.now }
    {
        if !is_name(bytes) {
            return None;
        }
        let mut padded = [0; LONGEST];
        padded[..bytes.len()].copy_from_slice(bytes);
        Some(Name {
            bytes: padded,
            len: bytes.len(),
        })
    }

    // Its bytes, without the zeros. `min`, since the type cannot say that the length fits: in `specs/` a name is made of any bytes.
    pub fn as_bytes(&self) -> &[u8]
        ensures { result.now ≡ name_bytes self.now }
    {
        &self.bytes[..self.len.min(LONGEST)]
    }

    // Whether these are its bytes. No `==`: its two sides would be of two types.
    pub(crate) fn is(&self, bytes: &[u8]) -> bool
        ensures { result ≡ is_same_name bytes.now self.now }
    {
        self.as_bytes() == bytes
    }
}
