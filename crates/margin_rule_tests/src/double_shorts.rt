// A margin rule of somebody else's: a short lot needs twice the published figure.
ghost use Rattle.margin_rule_tests.specs.Shorts.{double_shorts, double_shorts_keeps};

use margin_rule::{MarginRule, nearest_figure, nearest_lots};

#[derive(Clone, Copy)]
pub struct DoubleShorts;

impl MarginRule for DoubleShorts {
    ghost meaning = { λ _. double_shorts };

    ghost keeps = { λ x. double_shorts_keeps };

    fn need(&self, long: u32, short: u32, figure: u32) -> u64 {
        let lots = nearest_lots(long) + nearest_lots(short) * 2;
        nearest_figure(figure) as u64 * lots as u64
    }

    fn lot(&self, figure: u32) -> u64 {
        nearest_figure(figure) as u64 * 2
    }

    fn reach(&self) -> u32 {
        200
    }
}
