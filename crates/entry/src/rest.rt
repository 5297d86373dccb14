// What is left of a line: fields, each a blank, a key that ends in an equals sign, and a value up to the next blank or the line's end.
ghost use Rattle.std.specs.Prelude.{◌≡◌, ◌+◌, ◌≤◌, ◌==◌, length, Ok};
ghost use Rattle.std.specs.List.{position};
ghost use Rattle.figure.specs.Figure.{and_then};
ghost use Rattle.entry.specs.Entries.{asked, enters, said};
ghost use Rattle.entry.specs.Fields.{map_ok, ending, all_of, word, value_at, key_at, end_at, field_at, unread, figure_in, name_in, letter_in};

use crate::fault::{LineFault, Misfigure};
use crate::letters::Letter;
use crate::names::is_name;
use crate::types::{Entry, Request};
use figure::read_figure;

// The longest line, without its line feed.
const LONGEST: usize = 200;

// A line, and the place where its next field begins. Not only the part that is left: faults are told by their column in the line.
#[derive(Drop)]
pub(crate) struct Rest<'a> {
    line: &'a [u8],
    at: usize,
    ghost within: { at ≤ length line.now },
    ghost short: { length line.now ≤ 200 },
}

// The value of a field, and the column where it begins, by which its fault is told.
#[derive(Clone, Copy, Drop)]
struct Value<'a> {
    bytes: &'a [u8],
    column: usize,
}

// The place of the first blank. No `memchr`: a word is a few bytes long.
fn first_blank(bytes: &[u8]) -> Option<usize>
    ensures { result ≡ position (λ b. b == 32) bytes.now }
{
    bytes.iter().position(|b| *b == b' ')
}

// The bytes up to the first blank, or all of them.
#[tactic(auto, using(crate::proofs::Blanks::word_found, crate::proofs::Blanks::word_alone))]
fn word(bytes: &[u8]) -> &[u8]
    ensures value { result.now ≡ word bytes.now }
    ensures within { length result.now ≤ length bytes.now }
{
    match first_blank(bytes) {
        Some(end) => &bytes[..end],
        None => bytes,
    }
}

// Each method that goes on says that the line stays: a fact of two moments, which no type can hold. A definition for it and the place
// would take both lines, both places and the answer, and be no plainer.
impl<'a> Rest<'a> {
    // All of a line, unless it is too long.
    pub(crate) fn of(line: &'a [u8]) -> Result<Rest<'a>, LineFault>
        ensures { map_ok (λ rest. (rest.line.now, rest.at)) result ≡ all_of line.now }
    {
        if line.len() > LONGEST {
            return Err(LineFault::Form { at: LONGEST + 1 });
        }
        Ok(Rest { line, at: 0 })
    }

    // Goes past the bytes up to the next blank or the line's end.
    pub(crate) fn value(&mut self) -> &'a [u8]
        ensures value { result.now ≡ value_at self.old.line.now self.old.at }
        ensures behind { self.new.at ≡ self.old.at + length result.now }
        ensures line { self.new.line.now ≡ self.old.line.now }
    {
        let value = word(&self.line[self.at..]);
        self.at += value.len();
        value
    }

    // Goes past a blank and the key.
    fn key(&mut self, key: &[u8]) -> Result<(), LineFault>
        ensures behind { map_ok (λ _. self.new.at) result ≡ key_at key.now self.old.line.now self.old.at }
        ensures line { self.new.line.now ≡ self.old.line.now }
    {
        if self.line.get(self.at) != Some(&b' ') {
            return Err(LineFault::Form { at: self.at + 1 });
        }
        if !self.line[self.at + 1..].starts_with(key) {
            return Err(LineFault::Form { at: self.at + 2 });
        }
        self.at += 1 + key.len();
        Ok(())
    }

    // Goes past a field.
    #[tactic(auto, unfolding(crate::specs::Fields::field_at))]
    fn field(&mut self, key: &[u8]) -> Result<Value<'a>, LineFault>
        ensures value { ending self.new.at (map_ok (λ v. (v.column, v.bytes.now)) result) ≡ field_at unread key.now self.old.line.now self.old.at }
        ensures line { self.new.line.now ≡ self.old.line.now }
    {
        self.key(key)?;
        let column = self.at + 1;
        let bytes = self.value();
        Ok(Value { bytes, column })
    }

    // The figure of a field.
    #[tactic(auto, unfolding(crate::specs::Fields::field_at))]
    pub(crate) fn figure(&mut self, key: &[u8]) -> Result<u64, LineFault>
        ensures value { ending self.new.at result ≡ field_at figure_in key.now self.old.line.now self.old.at }
        ensures line { self.new.line.now ≡ self.old.line.now }
    {
        let Value { bytes, column } = self.field(key)?;
        let figure = read_figure(bytes).map_err(|fault| Misfigure { at: column, fault })?;
        Ok(figure)
    }

    // The name in a field, a part of the line.
    #[tactic(auto, unfolding(crate::specs::Fields::field_at))]
    pub(crate) fn name(&mut self, key: &[u8]) -> Result<&'a [u8], LineFault>
        ensures value { ending self.new.at (map_ok (λ name. name.now) result) ≡ field_at name_in key.now self.old.line.now self.old.at }
        ensures line { self.new.line.now ≡ self.old.line.now }
    {
        let Value { bytes, column } = self.field(key)?;
        if is_name(bytes) {
            Ok(bytes)
        } else {
            Err(LineFault::Form { at: column })
        }
    }

    // What the single letter in a field stands for.
    #[tactic(auto, unfolding(crate::specs::Fields::field_at))]
    pub(crate) fn letter<L: Letter>(&mut self, key: &[u8]) -> Result<L, LineFault>
        ensures value { ending self.new.at result ≡ field_at (letter_in L.Letter.meant) key.now self.old.line.now self.old.at }
        ensures line { self.new.line.now ≡ self.old.line.now }
    {
        let Value { bytes, column } = self.field(key)?;
        let case = match bytes {
            [letter] => L::of_letter(*letter as char),
            _ => None,
        };
        case.ok_or(LineFault::Form { at: column })
    }

    // Nothing more may stand on the line.
    fn end(&self) -> Result<(), LineFault>
        ensures { result ≡ end_at self.now.line.now self.now.at }
    {
        if self.at < self.line.len() {
            Err(LineFault::Form { at: self.at + 1 })
        } else {
            Ok(())
        }
    }

    // What the line enters, if it ends here.
    pub(crate) fn enters(self, entry: Entry<'a>) -> Result<Request<'a>, LineFault>
        ensures { map_ok asked result ≡ and_then (end_at self.entry.line.now self.entry.at) (λ _. Ok (enters (said entry.entry))) }
    {
        self.says(Request::Enter(entry))
    }

    // What the line says, if it ends here.
    pub(crate) fn says(self, request: Request<'a>) -> Result<Request<'a>, LineFault>
        ensures { map_ok asked result ≡ and_then (end_at self.entry.line.now self.entry.at) (λ _. Ok (asked request.entry)) }
    {
        self.end()?;
        Ok(request)
    }
}
