// A layer: Need, Lot and Reach of the rule below times a percentage, each rounded up.
ghost use Rattle.std.specs.Prelude.{◌≡◌, ◌≤◌, if◌then◌else◌};
ghost use Rattle.margin_rule.specs.Bounds.{highest_need};
ghost use Rattle.margin_rule.specs.Rules.{raised, stays_in_reach, percent_of, nearest_percent};
ghost use Rattle.margin_rule.specs.Keeping.{raised_keeps};

use crate::rule::MarginRule;

const LEAST_PERCENT: u32 = 100;

const MOST_PERCENT: u32 = 500;

// The furthest Reach that a rule may have.
const MOST_REACH: u64 = 2_000;

#[derive(Drop)]
pub struct Raise<R> {
    percent: u32,
    below: R,
    ghost least: { 100 ≤ percent },
    ghost most: { percent ≤ 500 },
}

impl<R> Raise<R> {
    // A percentage outside 100 to 500 is taken as the nearest end.
    pub fn new(percent: u32, below: R) -> Raise<R>
        ensures percent { result.percent ≡ nearest_percent percent }
        ensures below { result.below ≡ below }
    {
        Raise {
            percent: percent.clamp(LEAST_PERCENT, MOST_PERCENT),
            below,
        }
    }
}

impl<R: MarginRule> Raise<R> {
    // What is answered where the rule below answers so; as the rule below does where the raised Reach would go too far.
    fn raised(&self, answer: u64) -> u64
        requires { answer ≤ highest_need }
        ensures { result ≡ (if stays_in_reach self.now.percent (R.MarginRule.meaning self.now.below) then percent_of self.now.percent answer else answer) }
    {
        let reach = percent_of(self.percent, self.below.reach() as u64);
        if reach <= MOST_REACH {
            percent_of(self.percent, answer)
        } else {
            answer
        }
    }
}

// So many percent of x, rounded up.
fn percent_of(percent: u32, x: u64) -> u64
    requires percent { percent ≤ 500 }
    requires x { x ≤ highest_need }
    ensures { result ≡ percent_of percent x }
{
    (x * percent as u64 + 99) / 100
}

impl<R: MarginRule> MarginRule for Raise<R> {
    ghost meaning = { λ x. raised x.percent (R.MarginRule.meaning x.below) };

    ghost keeps = { λ x. raised_keeps _ (R.MarginRule.keeps x.below) x.percent x.least };

    #[tactic(auto, using(crate::proofs::Following::need_within))]
    fn need(&self, long: u32, short: u32, figure: u32) -> u64 {
        self.raised(self.below.need(long, short, figure))
    }

    #[tactic(auto, using(crate::proofs::Following::lot_within))]
    fn lot(&self, figure: u32) -> u64 {
        self.raised(self.below.lot(figure))
    }

    fn reach(&self) -> u32 {
        self.raised(self.below.reach() as u64) as u32
    }
}
