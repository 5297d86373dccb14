// Long and short lots offset each other: the lots of the larger side need the published figure.
ghost use Rattle.margin_rule.specs.Rules.{spread};
ghost use Rattle.margin_rule.specs.Keeping.{spread_keeps};

use crate::rule::{MarginRule, nearest_figure, nearest_lots};

// `lot` and `reach` are as those of `Outright`; to share two lines, a trait of its own with laws of its own would be needed.
#[derive(Clone, Copy)]
pub struct Spread;

impl MarginRule for Spread {
    ghost meaning = { λ _. spread };

    ghost keeps = { λ x. spread_keeps };

    fn need(&self, long: u32, short: u32, figure: u32) -> u64 {
        let lots = nearest_lots(long).max(nearest_lots(short));
        self.lot(figure) * lots as u64
    }

    fn lot(&self, figure: u32) -> u64 {
        nearest_figure(figure) as u64
    }

    fn reach(&self) -> u32 {
        100
    }
}
