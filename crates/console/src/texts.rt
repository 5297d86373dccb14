// The texts of answers. No `Display` (tried): what std writes is promised only where the write succeeds, and an answer into fixed memory
// cannot fail.
ghost use Rattle.std.specs.Prelude.{◌≡◌, ◌++◌, take, decimal};
ghost use Rattle.console.specs.Texts.{field, done_text, decline_text};

use crate::front::Front;
use entry::Decline;
use itoa::Buffer;

impl Front {
    // The digits of a number. One digit is put as a byte: most numbers of an answer have no more, and `itoa` costs more than it.
    fn put_number(&mut self, n: u64)
        ensures { self.new.bytes ≡ take 201 (self.old.bytes ++ decimal n) }
    {
        if n < 10 {
            self.put_byte(b'0' + n as u8);
        } else {
            self.put(Buffer::new().format(n).as_bytes());
        }
    }

    fn put_field(&mut self, key: &[u8], n: u64)
        ensures { self.new.bytes ≡ take 201 (self.old.bytes ++ field key.now n) }
    {
        self.put(key);
        self.put_number(n);
    }

    // The answer to a line that was taken, in place of what was held: the number of its order, or 0, which is printed too.
    pub fn answer_done(&mut self, line: u64, order: u64)
        ensures { self.new.bytes ≡ done_text line order }
    {
        self.clear();
        self.put_field(b"line=", line);
        self.put_field(b" ok=", order);
        self.put(b"\n");
    }

    // The answer to a line that was declined, in place of what was held.
    pub fn answer_declined(&mut self, line: u64, decline: Decline)
        ensures { self.new.bytes ≡ decline_text line decline }
    {
        self.clear();
        self.put_field(b"line=", line);
        self.put_field(b" refused=", decline.number as u64);
        self.put_field(b" layer=", decline.layer as u64);
        self.put_field(b" at=", decline.at as u64);
        self.put_field(b" short=", decline.short);
        self.put(b"\n");
    }
}
