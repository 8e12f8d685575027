//! A closure beside the fact that it combines.

ghost use Rattle.std.specs.Prelude.{◌≡◌, ℤ};
ghost use Rattle.fold_kit.specs.Combination.{IsWithin, combined};

use crate::how::How;

/// A closure that captures nothing.
pub type Operation = fn(i128, i128) -> i128;

/// A closure that combines any two numbers within plus and minus 2^100, as long as it lives.
#[derive(Drop)]
pub struct Combiner {
    pub how: How,
    f: Operation,
    ghost takes: { (a b : ℤ) → IsWithin a → IsWithin b → Operation.pre f a b },
    ghost combines: { (a b r : ℤ) → IsWithin a → IsWithin b → Operation.post f a b r → r ≡ combined how a b },
}

impl Combiner {
    /// A closure that combines so.
    pub fn new(how: How, f: Operation) -> Combiner
        requires takes { (a b : ℤ) → IsWithin a → IsWithin b → Operation.pre f a b }
        requires combines { (a b r : ℤ) → IsWithin a → IsWithin b → Operation.post f a b r → r ≡ combined how a b }
        ensures { result.how ≡ how }
    {
        Combiner { how, f }
    }

    /// Two numbers in one.
    pub fn combine(&self, a: i128, b: i128) -> i128
        requires first { IsWithin a }
        requires second { IsWithin b }
        ensures { result ≡ combined self.now.how a b }
    {
        (self.f)(a, b)
    }
}
