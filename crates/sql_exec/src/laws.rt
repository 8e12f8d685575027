//! What follows from the bounds that a condition sets.

ghost use Rattle.sql_exec.specs.Laws.{BoundsHold};

/// Where a condition is true at a row, the value in a column lies within the bounds that the condition sets to it.
#[tactic(auto, using(crate::proofs::Within::bounds_hold))]
pub fn bounds_hold()
    ensures { BoundsHold }
{}
