//! The three ways of combining numbers.

ghost use Rattle.std.specs.Prelude.{◌≡◌};
ghost use Rattle.fold_kit.specs.Combination.{IsWithin, combined};
ghost use Rattle.fold_kit.specs.declared.how.How.TheVariants.{Add, Max, Min};

use crate::combiner::Combiner;
use crate::how::How;

/// Combines numbers within plus and minus 2^100, in each of the ways.
pub trait Folds {
    /// Two numbers in one.
    fn combine(&self, how: How, a: i128, b: i128) -> i128
        requires first { IsWithin a }
        requires second { IsWithin b }
        ensures { result ≡ combined how a b };
}

/// A combiner for each of the ways.
#[derive(Drop)]
pub struct FoldSet {
    min: Combiner,
    max: Combiner,
    add: Combiner,
    ghost takes_least: { min.how ≡ Min },
    ghost takes_greatest: { max.how ≡ Max },
    ghost adds: { add.how ≡ Add },
}

impl FoldSet {
    /// A combiner for each of the ways.
    pub fn new(min: Combiner, max: Combiner, add: Combiner) -> FoldSet
        requires takes_least { min.how ≡ How.Min }
        requires takes_greatest { max.how ≡ How.Max }
        requires adds { add.how ≡ How.Add }
    {
        FoldSet { min, max, add }
    }
}

impl Folds for FoldSet {
    fn combine(&self, how: How, a: i128, b: i128) -> i128 {
        match how {
            How::Min => self.min.combine(a, b),
            How::Max => self.max.combine(a, b),
            How::Add => self.add.combine(a, b),
        }
    }
}
