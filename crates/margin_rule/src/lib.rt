// Margin rules: what an account must hold for its lots, the laws that every rule keeps, two rules that stand alone and two layers
// that stand on any rule.
#![tactic(auto)]

mod bounds;
mod minimum;
mod outright;
mod raise;
mod rule;
mod spread;

pub use bounds::bounds_follow;
pub use minimum::Minimum;
pub use outright::Outright;
pub use raise::Raise;
pub use rule::{HIGHEST_FIGURE, MOST_LOTS, MarginRule, nearest_figure, nearest_lots};
pub use spread::Spread;
