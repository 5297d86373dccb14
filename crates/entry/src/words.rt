// The words that a line begins with.
ghost use Rattle.std.specs.Prelude.{◌≡◌};
ghost use Rattle.entry.specs.Lines.{words, word_in};

use crate::fault::LineFault;

#[derive(Clone, Copy, Drop)]
pub(crate) enum Word {
    Product,
    Contract,
    Announce,
    Band,
    Spot,
    Mark,
    Deposit,
    Withdraw,
    Cancel,
    Order,
    Fill,
    Open,
    Close,
    Deadline,
    Report,
}

#[tactic(auto, using(crate::proofs::Places::same_at_places))]
pub(crate) fn read_word(bytes: &[u8]) -> Result<Word, LineFault>
    ensures { result ≡ word_in words bytes.now }
{
    match bytes {
        b"product" => Ok(Word::Product),
        b"contract" => Ok(Word::Contract),
        b"announce" => Ok(Word::Announce),
        b"band" => Ok(Word::Band),
        b"spot" => Ok(Word::Spot),
        b"mark" => Ok(Word::Mark),
        b"deposit" => Ok(Word::Deposit),
        b"withdraw" => Ok(Word::Withdraw),
        b"cancel" => Ok(Word::Cancel),
        b"order" => Ok(Word::Order),
        b"fill" => Ok(Word::Fill),
        b"open" => Ok(Word::Open),
        b"close" => Ok(Word::Close),
        b"deadline" => Ok(Word::Deadline),
        b"report" => Ok(Word::Report),
        _ => Err(LineFault::Form { at: 1 }),
    }
}
