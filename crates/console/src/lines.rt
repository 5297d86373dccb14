// Lines out of blocks of input, however it is cut into them.
ghost use Rattle.std.specs.Prelude.{◌≡◌, ◌<◌, ◌++◌, length, take, IfSome};
ghost use Rattle.std.specs.Option.{option_map};
ghost use Rattle.memchr.specs.Find.{IsFirstByte, is_byte};
ghost use Rattle.console.specs.Streams.{line_front, line_rest, GoesOn};

use crate::front::Front;
use memchr::memchr;

// How many bytes are looked at one by one, before the search for a line feed further on, which costs more than a short line.
const NEAR: usize = 8;

// The place of the first line feed in a few bytes.
fn near_line_end(near: &[u8]) -> Option<usize>
    ensures { IsFirstByte (is_byte 10) near.now result }
{
    near.iter().position(|b| *b == b'\n')
}

// The place of the first line feed.
fn line_end(block: &[u8]) -> Option<usize>
    ensures { IsFirstByte (is_byte 10) block.now result }
{
    match near_line_end(&block[..block.len().min(NEAR)]) {
        Some(end) => Some(end),
        None => memchr(b'\n', block),
    }
}

impl Front {
    // Goes on with the line of which this is the front: what the block has behind the line feed, or none where the line does
    // not end in the block.
    pub fn fill<'a>(&mut self, block: &'a [u8]) -> Option<&'a [u8]>
        ensures kept { self.new.bytes ≡ take 201 (self.old.bytes ++ line_front block.now) }
        ensures rest { option_map (λ x. x.now) result ≡ line_rest block.now }
        ensures shorter { IfSome result (λ rest. length rest.now < length block.now) }
        ensures same_lines { GoesOn 201 self.old.bytes block.now self.new.bytes (option_map (λ x. x.now) result) }
    {
        let Some(end) = line_end(block) else {
            self.put(block);
            return None;
        };
        self.put(&block[..end]);
        Some(&block[end + 1..])
    }
}
