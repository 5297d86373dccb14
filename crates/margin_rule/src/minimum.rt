// A layer: at least so many dollars for any lots at all, and for each lot of an order.
ghost use Rattle.std.specs.Prelude.{◌≡◌, ◌≤◌};
ghost use Rattle.margin_rule.specs.Rules.{at_least, nearest_floor};
ghost use Rattle.std.proofs.Common.{rules};

use crate::rule::MarginRule;

const HIGHEST_FLOOR: u32 = 100_000_000;

#[derive(Drop)]
pub struct Minimum<R> {
    floor: u32,
    below: R,
    ghost most: { floor ≤ 100000000 },
}

impl<R> Minimum<R> {
    // A floor above 100,000,000 dollars is taken as 100,000,000.
    pub fn new(floor: u32, below: R) -> Minimum<R>
        ensures floor { result.floor ≡ nearest_floor floor }
        ensures below { result.below ≡ below }
    {
        Minimum {
            floor: floor.min(HIGHEST_FLOOR),
            below,
        }
    }
}

impl<R: MarginRule> MarginRule for Minimum<R> {
    ghost meaning = { λ x. at_least x.floor (R.MarginRule.meaning x.below) };

    ghost keeps = { Prim.search rules };

    fn need(&self, long: u32, short: u32, figure: u32) -> u64 {
        if long == 0 && short == 0 {
            0
        } else {
            self.below.need(long, short, figure).max(self.floor as u64)
        }
    }

    fn lot(&self, figure: u32) -> u64 {
        self.below.lot(figure).max(self.floor as u64)
    }

    fn reach(&self) -> u32 {
        self.below.reach()
    }
}
