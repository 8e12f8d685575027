//! Conditions whose names are bound.

ghost use Rattle.std.specs.Prelude.{◌≡◌, ◌∷◌, [], IfOk, map, ◌&&◌, ◌||◌};
ghost use Rattle.retro_base.specs.Gives.{Gives};
ghost use Rattle.sql_tree.specs.Condition.{postfix};
ghost use Rattle.sql_tree.specs.Evaluation.{agrees, compared, is_true};
ghost use Rattle.sql_tree.specs.Steps.{two_truths};
ghost use Rattle.evaluation.specs.Bound.{bound_condition_step, decides, sources_compared, truth_at, truth_left};

use crate::joined_row::JoinedRow;
use crate::source::Source;
use crate::stack::Stack;
use retro_base::Refusal;
use sql_tree::{Comparison, Condition, ConditionStep, Scope};
use std::alloc::{AllocError, Global};
use std::cmp::Ordering;
use values::{Seq, Value, compare};

/// A step over a stack of truths.
#[derive(Debug, Drop)]
pub(crate) enum BoundConditionStep {
    Compare {
        left: Source,
        comparison: Comparison,
        right: Source,
    },
    Not,
    And,
    Or,
}

/// A condition whose names are bound to places of a row.
#[derive(Debug, Drop)]
pub struct BoundCondition {
    steps: Seq<BoundConditionStep>,
}

impl BoundCondition {
    /// The condition over the columns of a scope; `snapshot` is the number of `current_snapshot()`. A name that stands
    /// for nothing is refused at a row.
    pub fn bind(
        alloc: Global,
        scope: &Scope<'_>,
        snapshot: Option<u32>,
        condition: &Condition,
    ) -> Result<BoundCondition, AllocError>
        ensures { IfOk result (λ bound. truth_at bound ≡ (λ row. is_true scope.now snapshot row condition.now)) }
    {
        let steps = bound_steps(alloc, scope, snapshot, condition.steps())?;
        Ok(BoundCondition { steps })
    }

    /// Whether the condition is true at a row. All parts are worked out. `stack` may hold anything. Refused for want of
    /// memory, or for the first of these, left before right: UnknownName at a column that is not there, or a snapshot's
    /// number where there is none; WrongType where a number is compared with a text.
    pub fn holds(&self, row: &JoinedRow<'_>, stack: &mut Stack<bool>) -> Result<bool, Refusal>
        ensures { Gives (λ b. b) result (truth_at self.now row.now) }
    {
        match self.steps.as_slice() {
            [
                BoundConditionStep::Compare {
                    left,
                    comparison,
                    right,
                },
            ] => compare_sources(left, *comparison, right, row),
            steps => decide(steps, row, stack),
        }
    }
}

fn bound_steps(
    alloc: Global,
    scope: &Scope<'_>,
    snapshot: Option<u32>,
    steps: &[ConditionStep],
) -> Result<Seq<BoundConditionStep>, AllocError>
    ensures { IfOk result (λ bound. bound ≡ map (bound_condition_step scope.now snapshot) steps.now) }
{
    let mut bound = Vec::with_capacity(alloc, steps.len())?;
    for step in steps {
        bound.push(bound_step(alloc, scope, snapshot, step)?)?;
    }
    Ok(Seq::from(bound))
}

fn bound_step(
    alloc: Global,
    scope: &Scope<'_>,
    snapshot: Option<u32>,
    step: &ConditionStep,
) -> Result<BoundConditionStep, AllocError>
    ensures { IfOk result (λ bound. bound ≡ bound_condition_step scope.now snapshot step.now) }
{
    match step {
        ConditionStep::Compare {
            left,
            comparison,
            right,
        } => Ok(BoundConditionStep::Compare {
            left: Source::operand(alloc, scope, snapshot, left)?,
            comparison: *comparison,
            right: Source::operand(alloc, scope, snapshot, right)?,
        }),
        ConditionStep::Not => Ok(BoundConditionStep::Not),
        ConditionStep::And => Ok(BoundConditionStep::And),
        ConditionStep::Or => Ok(BoundConditionStep::Or),
    }
}

// The truth that the steps leave.
fn decide(
    steps: &[BoundConditionStep],
    row: &JoinedRow<'_>,
    stack: &mut Stack<bool>,
) -> Result<bool, Refusal>
    ensures { Gives (λ b. b) result (truth_left row.now steps.now) }
{
    stack.clear();
    for step in steps {
        let truth = step_truth(step, row, stack)?;
        stack.push(truth)?;
    }
    stack.last()
}

// The truth that a step puts on the stack, with those gone that it takes.
fn step_truth(
    step: &BoundConditionStep,
    row: &JoinedRow<'_>,
    stack: &mut Stack<bool>,
) -> Result<bool, Refusal>
    ensures { Gives (λ truth. truth ∷ stack.new) result (decides row.now step.now stack.old) }
{
    match step {
        BoundConditionStep::Compare {
            left,
            comparison,
            right,
        } => compare_sources(left, *comparison, right, row),
        BoundConditionStep::Not => match stack.pop() {
            Some(a) => Ok(!a),
            None => Err(Refusal::WrongType),
        },
        BoundConditionStep::And => both(stack),
        BoundConditionStep::Or => either(stack),
    }
}

fn both(stack: &mut Stack<bool>) -> Result<bool, Refusal>
    ensures { Gives (λ truth. truth ∷ stack.new) result (two_truths ◌&&◌ stack.old) }
{
    match (stack.pop(), stack.pop()) {
        (Some(b), Some(a)) => Ok(a && b),
        (_b, _a) => Err(Refusal::WrongType),
    }
}

fn either(stack: &mut Stack<bool>) -> Result<bool, Refusal>
    ensures { Gives (λ truth. truth ∷ stack.new) result (two_truths ◌||◌ stack.old) }
{
    match (stack.pop(), stack.pop()) {
        (Some(b), Some(a)) => Ok(a || b),
        (_b, _a) => Err(Refusal::WrongType),
    }
}

fn compare_sources(
    left: &Source,
    comparison: Comparison,
    right: &Source,
    row: &JoinedRow<'_>,
) -> Result<bool, Refusal>
    ensures { result ≡ sources_compared row.now left.now comparison right.now }
{
    let a = left.value(row)?;
    let b = right.value(row)?;
    compare_values(comparison, a, b)
}

fn compare_values(comparison: Comparison, a: &Value, b: &Value) -> Result<bool, Refusal>
    ensures { result ≡ compared comparison a.now b.now }
{
    if a.kind() == b.kind() {
        Ok(agrees(comparison, compare(a, b)))
    } else {
        Err(Refusal::WrongType)
    }
}

fn agrees(comparison: Comparison, order: Ordering) -> bool
    ensures { result ≡ agrees comparison order }
{
    match comparison {
        Comparison::Equal => order.is_eq(),
        Comparison::NotEqual => order.is_ne(),
        Comparison::Less => order.is_lt(),
        Comparison::AtMost => order.is_le(),
        Comparison::Greater => order.is_gt(),
        Comparison::AtLeast => order.is_ge(),
    }
}
