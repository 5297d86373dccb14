// Each word's fields, from the end of the word to the end of the line. Words with fields alike (deposit, withdraw and cancel; spot and
// mark) stay apart: what they share is a call or two, and a function for both would take keys and case as parameters.
ghost use Rattle.std.specs.Prelude.{◌≡◌};
ghost use Rattle.entry.specs.Entries.{asked};
ghost use Rattle.entry.specs.Fields.{map_ok, ending};
ghost use Rattle.entry.specs.Lines.{terms_at, rest_at};
ghost use Rattle.entry.specs.declared.words.Word.TheVariants.{Product as ProductWord, Contract as ContractWord, Announce as AnnounceWord, Band as BandWord, Spot as SpotWord, Mark as MarkWord, Deposit as DepositWord, Withdraw as WithdrawWord, Cancel as CancelWord, Order as OrderWord, Fill as FillWord};

use crate::fault::LineFault;
use crate::rest::Rest;
use crate::types::{Entry, Request, Terms};

// What is published of a product. The line stays, as with each method of `Rest`.
#[tactic(auto, unfolding(crate::specs::Lines::terms_at))]
fn read_terms(rest: &mut Rest<'_>) -> Result<Terms, LineFault>
    ensures value { ending rest.new.at result ≡ terms_at rest.old.line.now rest.old.at }
    ensures line { rest.new.line.now ≡ rest.old.line.now }
{
    let fee = rest.figure(b"fee=")?;
    let tax = rest.figure(b"tax=")?;
    let limit = rest.figure(b"limit=")?;
    let share = rest.figure(b"share=")?;
    let ia = rest.figure(b"ia=")?;
    let ib = rest.figure(b"ib=")?;
    let ma = rest.figure(b"ma=")?;
    let mb = rest.figure(b"mb=")?;
    Ok(Terms {
        fee,
        tax,
        limit,
        share,
        ia,
        ib,
        ma,
        mb,
    })
}

pub(crate) fn product_line(mut rest: Rest<'_>) -> Result<Request<'_>, LineFault>
    ensures { map_ok asked result ≡ rest_at ProductWord rest.entry.line.now rest.entry.at }
{
    let name = rest.name(b"name=")?;
    let kind = rest.letter(b"kind=")?;
    let tick = rest.figure(b"tick=")?;
    let terms = read_terms(&mut rest)?;
    let spot = rest.figure(b"spot=")?;
    rest.enters(Entry::Product {
        name,
        kind,
        tick,
        terms,
        spot,
    })
}

#[tactic(auto, unfolding(crate::specs::Fields::field_at))]
pub(crate) fn contract_line(mut rest: Rest<'_>) -> Result<Request<'_>, LineFault>
    ensures { map_ok asked result ≡ rest_at ContractWord rest.entry.line.now rest.entry.at }
{
    let name = rest.name(b"name=")?;
    let product = rest.name(b"product=")?;
    let right = rest.letter(b"right=")?;
    let strike = rest.figure(b"strike=")?;
    let floor = rest.figure(b"floor=")?;
    let ceiling = rest.figure(b"ceiling=")?;
    let mark = rest.figure(b"mark=")?;
    rest.enters(Entry::Contract {
        name,
        product,
        right,
        strike,
        floor,
        ceiling,
        mark,
    })
}

pub(crate) fn announce_line(mut rest: Rest<'_>) -> Result<Request<'_>, LineFault>
    ensures { map_ok asked result ≡ rest_at AnnounceWord rest.entry.line.now rest.entry.at }
{
    let name = rest.name(b"name=")?;
    let terms = read_terms(&mut rest)?;
    rest.enters(Entry::Announce { name, terms })
}

pub(crate) fn band_line(mut rest: Rest<'_>) -> Result<Request<'_>, LineFault>
    ensures { map_ok asked result ≡ rest_at BandWord rest.entry.line.now rest.entry.at }
{
    let contract = rest.name(b"contract=")?;
    let floor = rest.figure(b"floor=")?;
    let ceiling = rest.figure(b"ceiling=")?;
    rest.enters(Entry::Band {
        contract,
        floor,
        ceiling,
    })
}

pub(crate) fn spot_line(mut rest: Rest<'_>) -> Result<Request<'_>, LineFault>
    ensures { map_ok asked result ≡ rest_at SpotWord rest.entry.line.now rest.entry.at }
{
    let product = rest.name(b"product=")?;
    let price = rest.figure(b"price=")?;
    rest.enters(Entry::Spot { product, price })
}

pub(crate) fn mark_line(mut rest: Rest<'_>) -> Result<Request<'_>, LineFault>
    ensures { map_ok asked result ≡ rest_at MarkWord rest.entry.line.now rest.entry.at }
{
    let contract = rest.name(b"contract=")?;
    let price = rest.figure(b"price=")?;
    rest.enters(Entry::Mark { contract, price })
}

pub(crate) fn deposit_line(mut rest: Rest<'_>) -> Result<Request<'_>, LineFault>
    ensures { map_ok asked result ≡ rest_at DepositWord rest.entry.line.now rest.entry.at }
{
    let amount = rest.figure(b"amount=")?;
    rest.enters(Entry::Deposit { amount })
}

pub(crate) fn withdraw_line(mut rest: Rest<'_>) -> Result<Request<'_>, LineFault>
    ensures { map_ok asked result ≡ rest_at WithdrawWord rest.entry.line.now rest.entry.at }
{
    let amount = rest.figure(b"amount=")?;
    rest.enters(Entry::Withdraw { amount })
}

pub(crate) fn cancel_line(mut rest: Rest<'_>) -> Result<Request<'_>, LineFault>
    ensures { map_ok asked result ≡ rest_at CancelWord rest.entry.line.now rest.entry.at }
{
    let order = rest.figure(b"order=")?;
    rest.enters(Entry::Cancel { order })
}

#[tactic(auto, unfolding(crate::specs::Fields::field_at))]
pub(crate) fn order_line(mut rest: Rest<'_>) -> Result<Request<'_>, LineFault>
    ensures { map_ok asked result ≡ rest_at OrderWord rest.entry.line.now rest.entry.at }
{
    let contract = rest.name(b"contract=")?;
    let side = rest.letter(b"side=")?;
    let effect = rest.letter(b"effect=")?;
    let lots = rest.figure(b"lots=")?;
    let price = rest.figure(b"price=")?;
    rest.enters(Entry::Order {
        contract,
        side,
        effect,
        lots,
        price,
    })
}

pub(crate) fn fill_line(mut rest: Rest<'_>) -> Result<Request<'_>, LineFault>
    ensures { map_ok asked result ≡ rest_at FillWord rest.entry.line.now rest.entry.at }
{
    let order = rest.figure(b"order=")?;
    let lots = rest.figure(b"lots=")?;
    let price = rest.figure(b"price=")?;
    rest.enters(Entry::Fill { order, lots, price })
}
