// Margin rules as another crate asks them, stacks them and writes one of its own. The tests stand apart from the rules, so that
// these are not proved twice.
#![tactic(auto)]

mod double_shorts;

#[cfg(test)]
mod tests {
    use crate::double_shorts::DoubleShorts;
    use margin_rule::{MarginRule, Minimum, Outright, Raise, Spread};

    // Need for so many lots at a figure, Lot at that figure, and Reach.
    fn answers<R: MarginRule>(rule: &R, long: u32, short: u32, figure: u32) -> (u64, u64, u32) {
        (
            rule.need(long, short, figure),
            rule.lot(figure),
            rule.reach(),
        )
    }

    #[test]
    fn every_lot_at_the_figure(rt: HostRuntime) {
        let rule = Outright;
        assert_eq!(rt; answers(&rule, 0, 0, 83_000), (0, 83_000, 100));
        assert_eq!(rt; answers(&rule, 3, 2, 83_000), (415_000, 83_000, 100));
        // a figure of 0 is taken as 1
        assert_eq!(rt; answers(&rule, 1, 0, 0), (1, 1, 100));
        // 102,400 lots at 100,000,000
        assert_eq!(rt;
            answers(&rule, 51_200, 51_200, 100_000_000),
            (10_240_000_000_000, 100_000_000, 100)
        );
        // 51,201 lots are taken as 51,200, and 100,000,001 as 100,000,000
        assert_eq!(rt;
            answers(&rule, 51_201, 0, 100_000_001),
            (5_120_000_000_000, 100_000_000, 100)
        );
    }

    #[test]
    fn the_larger_side_at_the_figure(rt: HostRuntime) {
        let rule = Spread;
        assert_eq!(rt; answers(&rule, 3, 2, 83_000), (249_000, 83_000, 100));
        assert_eq!(rt; answers(&rule, 2, 3, 83_000), (249_000, 83_000, 100));
        assert_eq!(rt; answers(&rule, 1, 1, 1), (1, 1, 100));
        assert_eq!(rt; answers(&rule, 0, 51_201, 2), (102_400, 2, 100));
        assert_eq!(rt;
            answers(&rule, u32::MAX, u32::MAX, u32::MAX),
            (5_120_000_000_000, 100_000_000, 100)
        );
    }

    #[test]
    fn a_percentage_is_rounded_up(rt: HostRuntime) {
        // 19,005 x 110 / 100 = 20,905.5
        let rule = Raise::new(110, Outright);
        assert_eq!(rt; answers(&rule, 1, 0, 19_005), (20_906, 20_906, 110));
        assert_eq!(rt; answers(&rule, 0, 0, 19_005), (0, 20_906, 110));
        // 99 is taken as 100, and 501 as 500
        assert_eq!(rt;
            answers(&Raise::new(99, Outright), 3, 2, 83_000),
            (415_000, 83_000, 100)
        );
        assert_eq!(rt; answers(&Raise::new(501, Outright), 1, 1, 7), (70, 35, 500));
    }

    #[test]
    fn a_reach_past_two_thousand_is_not_raised(rt: HostRuntime) {
        // Reach 400 x 5 is 2,000: 51,200 + 51,200 lots at 100,000,000, times 4, times 5
        let furthest = Raise::new(500, Raise::new(400, Outright));
        assert_eq!(rt;
            answers(&furthest, 51_201, 51_201, 100_000_001),
            (204_800_000_000_000, 2_000_000_000, 2_000)
        );
        // Reach 401 x 5 is 2,005: as the rule below, 7 x 401 / 100 = 28.07
        let too_far = Raise::new(500, Raise::new(401, Outright));
        assert_eq!(rt; answers(&too_far, 1, 0, 7), (29, 29, 401));
    }

    #[test]
    fn any_lots_need_the_minimum(rt: HostRuntime) {
        let rule = Minimum::new(10_000, Spread);
        assert_eq!(rt; answers(&rule, 0, 0, 83_000), (0, 83_000, 100));
        assert_eq!(rt; answers(&rule, 0, 1, 1), (10_000, 10_000, 100));
        assert_eq!(rt; answers(&rule, 2, 1, 83_000), (166_000, 83_000, 100));
        // 100,000,001 is taken as 100,000,000
        assert_eq!(rt;
            answers(&Minimum::new(100_000_001, Outright), 1, 1, 1),
            (100_000_000, 100_000_000, 100)
        );
    }

    #[test]
    fn three_layers(rt: HostRuntime) {
        // Need: 3 x 5,001 = 15,003, x 1.5 = 22,504.5, so 22,505, above 10,000, x 1.1 = 24,755.5, so 24,756
        // Lot: 5,001 x 1.5 = 7,501.5, so 7,502, below 10,000, x 1.1 = 11,000; Reach: 150, 150, 165
        let pile = Raise::new(110, Minimum::new(10_000, Raise::new(150, Spread)));
        assert_eq!(rt; answers(&pile, 3, 2, 5_001), (24_756, 11_000, 165));
        assert_eq!(rt; answers(&pile, 0, 0, 5_001), (0, 11_000, 165));
        // Reach: 300, 1,500, and 7,500 would be too far. Need: 7 x 3 = 21, x 5 = 105
        let high = Raise::new(500, Raise::new(500, Raise::new(300, Outright)));
        assert_eq!(rt; answers(&high, 0, 1, 7), (105, 105, 1_500));
    }

    #[test]
    fn a_rule_of_somebody_elses(rt: HostRuntime) {
        // 3 + 2 x 2 = 7 lots
        assert_eq!(rt;
            answers(&DoubleShorts, 3, 2, 83_000),
            (581_000, 166_000, 200)
        );
        assert_eq!(rt; answers(&DoubleShorts, 0, 51_201, 0), (102_400, 2, 200));
        // 581,000 x 1.25 = 726,250; 166,000 x 1.25 = 207,500
        assert_eq!(rt;
            answers(
                &Raise::new(125, Minimum::new(500_000, DoubleShorts)),
                3,
                2,
                83_000,
            ),
            (726_250, 625_000, 250)
        );
    }
}
