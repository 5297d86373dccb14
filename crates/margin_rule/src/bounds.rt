// What follows from the laws, of every rule.
ghost use Rattle.margin_rule.specs.Bounds.{Bounds, BoundsEverywhere};

use crate::rule::MarginRule;

// For proofs about accounts: how Need and Lot grow and how far, inside the ranges and for every question. It does nothing.
pub fn bounds_follow<R: MarginRule>(rule: &R)
    ensures inside { Bounds (R.MarginRule.meaning rule.now) }
    ensures everywhere { BoundsEverywhere (R.MarginRule.meaning rule.now) }
{}
