// Every lot needs the published figure.
ghost use Rattle.margin_rule.specs.Rules.{outright};
ghost use Rattle.margin_rule.specs.Keeping.{outright_keeps};

use crate::rule::{MarginRule, nearest_figure, nearest_lots};

#[derive(Clone, Copy)]
pub struct Outright;

impl MarginRule for Outright {
    ghost meaning = { λ _. outright };

    ghost keeps = { λ x. outright_keeps };

    fn need(&self, long: u32, short: u32, figure: u32) -> u64 {
        let lots = nearest_lots(long) + nearest_lots(short);
        self.lot(figure) * lots as u64
    }

    fn lot(&self, figure: u32) -> u64 {
        nearest_figure(figure) as u64
    }

    fn reach(&self) -> u32 {
        100
    }
}
