//! The better of two values.

ghost use Rattle.std.specs.Prelude.{◌≡◌, IfOk};
ghost use Rattle.std.specs.Ordering.{is_lt};
ghost use Rattle.values.specs.Value.{value_cmp};
ghost use Rattle.values.specs.declared.value.Value.TheVariants.{Int};
ghost use Rattle.rql.specs.Aggregates.{better};
ghost use Rattle.rql.specs.Tallies.{best_with};

use crate::function::Extreme;
use fold_kit::{Folds, How};
use std::alloc::{AllocError, Global};
use values::{Duplicate, Value};

// Whether a value goes before another: integers by number, texts by bytes.
fn is_less(a: &Value, b: &Value) -> bool
    ensures { result ≡ is_lt (value_cmp a.now b.now) }
{
    match (a, b) {
        (Value::Int(m), Value::Int(n)) => m < n,
        (Value::Int(_), Value::Text(_)) => true,
        (Value::Text(_), Value::Int(_)) => false,
        (Value::Text(s), Value::Text(t)) => s.bytes().cmp(t.bytes()).is_lt(),
    }
}

// The lesser or the greater of two numbers.
fn better_number<F: Folds>(folds: &F, extreme: Extreme, a: i64, b: i64) -> i64
    ensures { Int result ≡ better extreme (Int a) (Int b) }
{
    let how = match extreme {
        Extreme::Least => How::Min,
        Extreme::Greatest => How::Max,
    };
    folds.combine(how, i128::from(a), i128::from(b)) as i64
}

/// The best of some values, and of a value more.
pub(crate) fn better<F: Folds>(
    alloc: Global,
    folds: &F,
    extreme: Extreme,
    best: Option<Value>,
    value: &Value,
) -> Result<Value, AllocError>
    ensures { IfOk result (λ found. found ≡ best_with extreme best value.now) }
{
    let Some(best) = best else {
        return value.copy(alloc);
    };
    if let (Value::Int(m), Value::Int(n)) = (&best, value) {
        return Ok(Value::Int(better_number(folds, extreme, *m, *n)));
    }
    let takes_value = match extreme {
        Extreme::Least => is_less(value, &best),
        Extreme::Greatest => !is_less(value, &best),
    };
    if takes_value {
        return value.copy(alloc);
    }
    Ok(best)
}
