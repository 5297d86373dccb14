// One line of a day's list, read in place: an entry, the question for the report, or a fault with its column.
#![tactic(auto)]

ghost use Rattle.std.specs.Prelude.{◌≡◌, ℕ, ◌≤◌, List, length, take, Ok};
ghost use Rattle.figure.specs.Figure.{and_then};
ghost use Rattle.entry.specs.Entries.{asked};
ghost use Rattle.entry.specs.Faults.{map_err, decline_of};
ghost use Rattle.entry.specs.Fields.{map_ok, end_at};
ghost use Rattle.entry.specs.Lines.{rest_at, line_of, answer_to, Whole};

mod fault;
mod letters;
mod lines;
mod names;
mod rest;
mod types;
mod words;

pub use fault::{Decline, LineFault, Misfigure};
use lines::{
    announce_line, band_line, cancel_line, contract_line, deposit_line, fill_line, mark_line,
    order_line, product_line, spot_line, withdraw_line,
};
pub use names::is_name;
use rest::Rest;
pub use types::{Effect, Entry, Kind, Request, Right, Side, Terms};
use words::{Word, read_word};

// What follows the word. A match, which is held to every word; a table of functions would not be.
fn read_rest(word: Word, rest: Rest<'_>) -> Result<Request<'_>, LineFault>
    ensures { map_ok asked result ≡ rest_at word rest.entry.line.now rest.entry.at }
{
    match word {
        Word::Product => product_line(rest),
        Word::Contract => contract_line(rest),
        Word::Announce => announce_line(rest),
        Word::Band => band_line(rest),
        Word::Spot => spot_line(rest),
        Word::Mark => mark_line(rest),
        Word::Deposit => deposit_line(rest),
        Word::Withdraw => withdraw_line(rest),
        Word::Cancel => cancel_line(rest),
        Word::Order => order_line(rest),
        Word::Fill => fill_line(rest),
        Word::Open => rest.enters(Entry::Open),
        Word::Close => rest.enters(Entry::Close),
        Word::Deadline => rest.enters(Entry::Deadline),
        Word::Report => rest.says(Request::Report),
    }
}

// What a line says, or its first fault. The first 201 bytes of a line tell it.
#[tactic(auto, using(crate::proofs::WholeLine::told_whole))]
pub fn read_line(line: &[u8]) -> Result<Request<'_>, LineFault>
    ensures value { map_ok asked result ≡ line_of line.now }
    ensures told { map_err decline_of (map_ok asked result) ≡ answer_to line.now }
    ensures whole { Whole line.now (map_ok asked result) }
    ensures front { (all : List ℕ) → line.now ≡ take 201 all → map_ok asked result ≡ line_of all }
{
    let mut rest = Rest::of(line)?;
    let word = read_word(rest.value())?;
    read_rest(word, rest)
}
