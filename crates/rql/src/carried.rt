//! Sums that no number of summands takes out of their bounds.

ghost use Rattle.std.specs.Prelude.{◌≡◌, ◌^◌, ◌+ℤ◌, ◌≤ℤ◌, IfErr, IfOk, neg_ℤ, pos};
ghost use Rattle.sql_select.specs.Aggregates.{whole};
ghost use Rattle.rql.specs.Aggregates.{in_parts};

use fold_kit::{Folds, How};
use retro_base::Refusal;
use std::alloc::AllocError;
use values::Value;

/// One of the high part in the low part.
const UNIT: i128 = 1 << 64;

/// A sum in a high and a low part.
#[derive(Clone, Copy, Debug)]
pub(crate) struct Carried {
    pub high: i128,
    pub low: i128,
    ghost not_below: { neg_ℤ (pos (2 ^ 64)) ≤ℤ low },
    ghost not_above: { low ≤ℤ pos (2 ^ 64) },
}

impl Carried {
    ghost use Rattle.std.specs.Prelude.{◌≡◌, ◌^◌, ◌+ℤ◌, ◌≤ℤ◌, IfErr, IfOk, neg_ℤ, pos};
    ghost use Rattle.sql_select.specs.Aggregates.{whole};
    ghost use Rattle.rql.specs.AsOf.{IsOfQuery};
    ghost use Rattle.rql.specs.Aggregates.{in_parts};

    /// The sum of nothing.
    pub(crate) fn zero() -> Carried
        ensures { (result.high ≡ pos 0) × (result.low ≡ pos 0) }
    {
        Carried { high: 0, low: 0 }
    }

    /// The sum with a number more. A high part outside i128 is refused as want of memory.
    pub(crate) fn plus<F: Folds>(self, folds: &F, number: i64) -> Result<Carried, AllocError>
        ensures { IfOk result (λ sum. in_parts sum.high sum.low ≡ in_parts self.high self.low +ℤ number) }
    {
        let low = folds.combine(How::Add, self.low, i128::from(number));
        if low > UNIT {
            let high = self.high.checked_add(1).ok_or(AllocError)?;
            let low = low - UNIT;
            return Ok(Carried { high, low });
        }
        if low < -UNIT {
            let high = self.high.checked_sub(1).ok_or(AllocError)?;
            let low = low + UNIT;
            return Ok(Carried { high, low });
        }
        let high = self.high;
        Ok(Carried { high, low })
    }

    /// The sum as a value; Overflow where it is outside i64.
    pub(crate) fn whole(self) -> Result<Value, Refusal>
        ensures exact { result ≡ whole (in_parts self.high self.low) }
        ensures named { IfErr result IsOfQuery }
    {
        let near = match self.high {
            0 => self.low,
            1 => self.low + UNIT,
            -1 => self.low - UNIT,
            _ => return Err(Refusal::Overflow),
        };
        match i64::try_from(near) {
            Ok(number) => Ok(Value::Int(number)),
            Err(_) => Err(Refusal::Overflow),
        }
    }
}
