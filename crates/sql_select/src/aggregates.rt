//! COUNT, SUM, MIN and MAX over the rows of a group.

ghost use Rattle.std.specs.Option.{option_map};
ghost use Rattle.std.specs.Prelude.{◌≡◌, if◌then◌else◌, pos};
ghost use Rattle.retro_base.specs.Gives.{Gives};
ghost use Rattle.evaluation.specs.Bound.{seen, value_at};
ghost use Rattle.sql_select.specs.Aggregates.{whole};
ghost use Rattle.sql_select.specs.Bound.{best_over, better, choice, counted_over, summed_over};

use crate::ordering::compare_any;
use evaluation::{BoundExpression, JoinedRow, Stack, Worked};
use retro_base::Refusal;
use std::alloc::Global;
use values::Value;

/// A number as a value; Overflow where it is outside i64.
pub fn whole(number: i128) -> Result<Value, Refusal>
    ensures { result ≡ whole number }
{
    match i64::try_from(number) {
        Ok(number) => Ok(Value::Int(number)),
        Err(_) => Err(Refusal::Overflow),
    }
}

/// A number of rows as a value.
pub fn count(rows: usize) -> Result<Value, Refusal>
    ensures { result ≡ whole (pos rows) }
{
    whole(rows as i128)
}

/// COUNT: how many values the expression has at the rows; all are worked out.
pub(crate) fn count_over(
    alloc: Global,
    expression: &BoundExpression,
    rows: &[JoinedRow<'_>],
    stack: &mut Stack<Value>,
) -> Result<Value, Refusal>
    ensures { Gives (λ value. value) result (counted_over (value_at expression.now) rows.now) }
{
    for row in rows {
        let _value = expression.worked(alloc, row, stack)?;
    }
    count(rows.len())
}

/// SUM: the sum of the expression's numbers at the rows. In 128 bits it does not overflow on the way, whatever the rows
/// hold.
pub(crate) fn sum_over(
    alloc: Global,
    expression: &BoundExpression,
    rows: &[JoinedRow<'_>],
    stack: &mut Stack<Value>,
) -> Result<Value, Refusal>
    ensures { Gives (λ value. value) result (summed_over (value_at expression.now) rows.now) }
{
    let mut sum = 0i128;
    let mut has_text = false;
    'add: for i in 0..rows.len() {
        let value = expression.worked(alloc, &rows[i], stack)?;
        match value.get() {
            Value::Int(number) => sum += i128::from(*number),
            Value::Text(_) => has_text = true,
        }
    }
    if has_text {
        Err(Refusal::WrongType)
    } else {
        whole(sum)
    }
}

/// Which of the values of a group.
#[derive(Clone, Copy, Debug)]
pub enum Best {
    Least,
    Greatest,
}

/// MIN or MAX: the least or the greatest value of the expression at the rows, integers by number, texts by bytes.
pub(crate) fn best_over<'a>(
    alloc: Global,
    which: Best,
    expression: &'a BoundExpression,
    rows: &[JoinedRow<'a>],
    stack: &mut Stack<Value>,
) -> Result<Value, Refusal>
    ensures { Gives (λ value. value) result (best_over (choice which) (value_at expression.now) rows.now) }
{
    let mut best: Option<Worked<'a>> = None;
    for row in rows {
        let value = expression.worked(alloc, row, stack)?;
        best = Some(better(which, best, value));
    }
    match best {
        Some(value) => Ok(value.into_value(alloc)?),
        None => Err(Refusal::WrongType),
    }
}

/// The better of a value and the best so far.
pub fn better<'a>(which: Best, best: Option<Worked<'a>>, value: Worked<'a>) -> Worked<'a>
    ensures { seen result ≡ better (choice which) (option_map seen best.entry) (seen value.entry) }
{
    match best {
        None => value,
        Some(best) => {
            if takes_over(which, value.get(), best.get()) {
                value
            } else {
                best
            }
        }
    }
}

fn takes_over(which: Best, value: &Value, best: &Value) -> bool
    ensures { (if result then value.now else best.now) ≡ choice which best.now value.now }
{
    let is_less = compare_any(value, best).is_lt();
    match which {
        Best::Least => is_less,
        Best::Greatest => !is_less,
    }
}
