//! Expressions whose names are bound.

ghost use Rattle.std.specs.Prelude.{◌≡◌, ◌∷◌, [], IfOk, map};
ghost use Rattle.retro_base.specs.Gives.{Gives};
ghost use Rattle.sql_tree.specs.Evaluation.{applied, narrow, result_of, value_of};
ghost use Rattle.sql_tree.specs.Expression.{postfix};
ghost use Rattle.sql_tree.specs.Steps.{apply_top};
ghost use Rattle.evaluation.specs.Bound.{bound_step, pushes, seen, source_value, value_at, value_left};

use crate::joined_row::JoinedRow;
use crate::source::Source;
use crate::stack::Stack;
use crate::worked::Worked;
use retro_base::Refusal;
use sql_tree::{Expression, ExpressionStep, Operator, Scope};
use std::alloc::{AllocError, Global};
use values::{Duplicate, Seq, Value};

/// A step over a stack of values.
#[derive(Debug, Drop)]
pub(crate) enum BoundStep {
    Push(Source),
    Apply(Operator),
}

/// An expression whose names are bound to places of a row.
#[derive(Debug, Drop)]
pub struct BoundExpression {
    steps: Seq<BoundStep>,
}

impl BoundExpression {
    /// The expression over the columns of a scope; `snapshot` is the number of `current_snapshot()`. A name that stands
    /// for nothing is refused at a row.
    pub fn bind(
        alloc: Global,
        scope: &Scope<'_>,
        snapshot: Option<u32>,
        expression: &Expression,
    ) -> Result<BoundExpression, AllocError>
        ensures { IfOk result (λ bound. value_at bound ≡ (λ row. value_of scope.now snapshot row expression.now)) }
    {
        let steps = bound_steps(alloc, scope, snapshot, expression.steps())?;
        Ok(BoundExpression { steps })
    }

    /// The value at a row. `stack` may hold anything. Refused for want of memory, or for the first of these, left
    /// before right: UnknownName at a column that is not there, or a snapshot's number where there is none; WrongType
    /// at an operator over a text; Overflow at a result outside i64.
    pub fn worked<'a>(
        &'a self,
        alloc: Global,
        row: &JoinedRow<'a>,
        stack: &mut Stack<Value>,
    ) -> Result<Worked<'a>, Refusal>
        ensures { Gives seen result (value_at self.now row.now) }
    {
        match self.steps.as_slice() {
            [BoundStep::Push(source)] => Ok(Worked::Standing(source.value(row)?)),
            steps => Ok(Worked::New(run(alloc, steps, row, stack)?)),
        }
    }

    /// A value of its own that is the one at a row, refused as `worked` is.
    pub fn value(
        &self,
        alloc: Global,
        row: &JoinedRow<'_>,
        stack: &mut Stack<Value>,
    ) -> Result<Value, Refusal>
        ensures { Gives (λ v. v) result (value_at self.now row.now) }
    {
        Ok(self.worked(alloc, row, stack)?.into_value(alloc)?)
    }
}

fn bound_steps(
    alloc: Global,
    scope: &Scope<'_>,
    snapshot: Option<u32>,
    steps: &[ExpressionStep],
) -> Result<Seq<BoundStep>, AllocError>
    ensures { IfOk result (λ bound. bound ≡ map (bound_step scope.now snapshot) steps.now) }
{
    let mut bound = Vec::with_capacity(alloc, steps.len())?;
    for step in steps {
        bound.push(bound_step(alloc, scope, snapshot, step)?)?;
    }
    Ok(Seq::from(bound))
}

fn bound_step(
    alloc: Global,
    scope: &Scope<'_>,
    snapshot: Option<u32>,
    step: &ExpressionStep,
) -> Result<BoundStep, AllocError>
    ensures { IfOk result (λ bound. bound ≡ bound_step scope.now snapshot step.now) }
{
    match step {
        ExpressionStep::Literal(value) => {
            let value = value.copy(alloc)?;
            Ok(BoundStep::Push(Source::Constant(value)))
        }
        ExpressionStep::Column(name) => Ok(BoundStep::Push(Source::column(scope, name))),
        ExpressionStep::CurrentSnapshot => Ok(BoundStep::Push(Source::snapshot(snapshot))),
        ExpressionStep::Apply(operator) => Ok(BoundStep::Apply(*operator)),
    }
}

// The value that the steps leave.
fn run(
    alloc: Global,
    steps: &[BoundStep],
    row: &JoinedRow<'_>,
    stack: &mut Stack<Value>,
) -> Result<Value, Refusal>
    ensures { Gives (λ v. v) result (value_left row.now steps.now) }
{
    stack.clear();
    for step in steps {
        let value = step_value(alloc, step, row, stack)?;
        stack.push(value)?;
    }
    stack.last()
}

// The value that a step puts on the stack, with those gone that it takes.
fn step_value(
    alloc: Global,
    step: &BoundStep,
    row: &JoinedRow<'_>,
    stack: &mut Stack<Value>,
) -> Result<Value, Refusal>
    ensures { Gives (λ value. value ∷ stack.new) result (pushes row.now step.now stack.old) }
{
    match step {
        BoundStep::Push(source) => copy_of(alloc, source, row),
        BoundStep::Apply(operator) => apply_top(*operator, stack),
    }
}

fn copy_of(alloc: Global, source: &Source, row: &JoinedRow<'_>) -> Result<Value, Refusal>
    ensures { Gives (λ value. value) result (source_value source.now row.now) }
{
    Ok(source.value(row)?.copy(alloc)?)
}

// The operator's result over the last two values, with these gone.
fn apply_top(operator: Operator, stack: &mut Stack<Value>) -> Result<Value, Refusal>
    ensures { Gives (λ value. value ∷ stack.new) result (apply_top operator stack.old) }
{
    match (stack.pop(), stack.pop()) {
        (Some(b), Some(a)) => apply(operator, &a, &b),
        (_b, _a) => Err(Refusal::WrongType),
    }
}

fn apply(operator: Operator, a: &Value, b: &Value) -> Result<Value, Refusal>
    ensures { result ≡ applied operator a.now b.now }
{
    match (a, b) {
        (Value::Int(m), Value::Int(n)) => match number(operator, *m, *n) {
            Some(number) => Ok(Value::Int(number)),
            None => Err(Refusal::Overflow),
        },
        (_a, _b) => Err(Refusal::WrongType),
    }
}

#[tactic(auto, using(crate::proofs::Narrow::narrow_is))]
fn number(operator: Operator, m: i64, n: i64) -> Option<i64>
    ensures { result ≡ narrow (result_of operator m n) }
{
    match operator {
        Operator::Add => m.checked_add(n),
        Operator::Subtract => m.checked_sub(n),
        Operator::Multiply => m.checked_mul(n),
    }
}
