// What a margin rule is asked, what it answers, and the laws that it keeps.
ghost use Rattle.std.specs.Prelude.{◌≡◌};
ghost use Rattle.margin_rule.specs.Meanings.{Meaning, asked, nearest_figure, nearest_lots};
ghost use Rattle.margin_rule.specs.Laws.{Laws};

// The most lots of a side that a question may name.
pub const MOST_LOTS: u32 = 51_200;

// The highest published figure that a question may name; the lowest is 1.
pub const HIGHEST_FIGURE: u32 = 100_000_000;

// A rule is unchanged by being asked, and declines no question: lots and figures outside their ranges are taken as the nearest end.
pub trait MarginRule {
    ghost meaning: { Self → Meaning };

    // The dollars that so many long and short lots need at a published figure. The questions are of plain numbers (scalars), so long
    // and short are two parameters and no struct.
    fn need(&self, long: u32, short: u32, figure: u32) -> u64
        ensures { result ≡ (asked (meaning self.now)).need long short figure };

    // The dollars that an order reserves for one lot at a published figure.
    fn lot(&self, figure: u32) -> u64
        ensures { result ≡ (asked (meaning self.now)).lot figure };

    // A percentage: one lot takes at most so many times 1,000,000 dollars.
    fn reach(&self) -> u32
        ensures { result ≡ (asked (meaning self.now)).reach };

    ghost keeps: { (x : Self) → Laws (meaning x) };
}

// Lots as a rule takes them.
pub fn nearest_lots(lots: u32) -> u32
    ensures { result ≡ nearest_lots lots }
{
    lots.min(MOST_LOTS)
}

// A published figure as a rule takes it.
pub fn nearest_figure(figure: u32) -> u32
    ensures { result ≡ nearest_figure figure }
{
    figure.clamp(1, HIGHEST_FIGURE)
}
