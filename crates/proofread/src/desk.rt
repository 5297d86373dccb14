// One line after another, answered with no account behind it.
ghost use Rattle.std.specs.Prelude.{◌≡◌, ◌==◌, [], ◌++◌, length, if◌then◌else◌, OnOk};
ghost use Rattle.proofread.specs.Proof.{proof_text, next, printed, EachLineOf, Answered};

use console::Front;
use entry::{Decline, read_line};
use std::alloc::{AllocError, Global};

// The answer to a line, told by its first 201 bytes.
fn answer_to(text: &mut Front, number: u64, line: &[u8])
    ensures { EachLineOf line.now (λ all. text.new.bytes ≡ proof_text number all) }
{
    match read_line(line) {
        Ok(_) => text.answer_done(number, 0),
        Err(fault) => text.answer_declined(number, Decline::from(fault)),
    }
}

// The line that has begun, the number of the last line that ended, and the answers that are not yet written.
#[derive(Drop)]
pub struct Desk {
    line: Front,
    number: u64,
    text: Front,
    pub out: Vec<u8>,
}

impl Desk {
    pub fn new(heap: Global) -> Desk
        ensures line { result.line.bytes ≡ [] }
        ensures number { result.number ≡ 0 }
        ensures out { result.out.items ≡ [] }
    {
        Desk {
            line: Front::new(),
            number: 0,
            text: Front::new(),
            out: Vec::new(heap),
        }
    }

    // Answers the line that has begun, and begins the next.
    fn answer(&mut self) -> Result<(), AllocError>
        ensures line { self.new.line.bytes ≡ [] }
        ensures number { self.new.number ≡ next self.old.number }
        ensures out { OnOk result (EachLineOf self.old.line.bytes (λ all. self.new.out.items ≡ self.old.out.items ++ proof_text (next self.old.number) all)) }
    {
        self.number = self.number.saturating_add(1);
        answer_to(&mut self.text, self.number, self.line.as_slice());
        self.line.clear();
        self.out.extend_from_slice(self.text.as_slice())
    }

    // Answers the lines that end in the block.
    pub fn answer_block(&mut self, block: &[u8]) -> Result<(), AllocError>
        ensures { OnOk result (EachLineOf self.old.line.bytes (λ begun. Answered self.old self.new block.now [] begun)) }
    {
        let mut rest = block;
        while let Some(behind) = self.line.fill(rest) {
            self.answer()?;
            rest = behind;
        }
        Ok(())
    }

    // Answers a last line that has no line feed.
    #[tactic(auto, using(crate::proofs::Desks::last_printed, crate::proofs::Desks::none_printed))]
    pub fn finish(&mut self) -> Result<(), AllocError>
        ensures number { self.new.number ≡ (if length self.old.line.bytes == 0 then self.old.number else next self.old.number) }
        ensures out { OnOk result (EachLineOf self.old.line.bytes (λ begun. self.new.out.items ≡ self.old.out.items ++ printed self.old.number begun [])) }
    {
        if self.line.as_slice().is_empty() {
            return Ok(());
        }
        self.answer()
    }
}
