//! The outputs of a select over the rows of a group.

ghost use Rattle.std.specs.Prelude.{◌≡◌, IfOk, map};
ghost use Rattle.retro_base.specs.Gives.{Gives};
ghost use Rattle.sql_tree.specs.declared.select.Output.{Output as OutputRecord};
ghost use Rattle.evaluation.specs.Bound.{value_at};
ghost use Rattle.sql_select.specs.Bound.{aggregated, list_over, over};
ghost use Rattle.sql_select.specs.Each.{each};
ghost use Rattle.sql_select.specs.Outputs.{aggregate_over, first_row, is_there_over_none, output_over, outputs_over};

use crate::aggregates::{Best, best_over, count, count_over, sum_over};
use evaluation::{BoundExpression, JoinedRow, Stack};
use retro_base::Refusal;
use sql_tree::{Aggregate, Output, OutputValue, Scope, SelectList};
use std::alloc::{AllocError, Global};
use values::{Row, Seq, Value};

/// An aggregate whose names are bound.
#[derive(Debug, Drop)]
pub enum BoundAggregate {
    CountRows,
    Count(BoundExpression),
    Sum(BoundExpression),
    Extreme(Best, BoundExpression),
}

impl BoundAggregate {
    /// The aggregate over the columns of a scope; `snapshot` is the number of `current_snapshot()`.
    pub fn bind(
        alloc: Global,
        scope: &Scope<'_>,
        snapshot: Option<u32>,
        aggregate: &Aggregate,
    ) -> Result<BoundAggregate, AllocError>
        ensures { IfOk result (λ bound. aggregated bound
            ≡ (λ rows. aggregate_over scope.now snapshot rows aggregate.now)) }
    {
        match aggregate {
            Aggregate::CountRows => Ok(BoundAggregate::CountRows),
            Aggregate::Count(of) => {
                let of = BoundExpression::bind(alloc, scope, snapshot, of)?;
                Ok(BoundAggregate::Count(of))
            }
            Aggregate::Sum(of) => {
                let of = BoundExpression::bind(alloc, scope, snapshot, of)?;
                Ok(BoundAggregate::Sum(of))
            }
            Aggregate::Min(of) => {
                let of = BoundExpression::bind(alloc, scope, snapshot, of)?;
                Ok(BoundAggregate::Extreme(Best::Least, of))
            }
            Aggregate::Max(of) => {
                let of = BoundExpression::bind(alloc, scope, snapshot, of)?;
                Ok(BoundAggregate::Extreme(Best::Greatest, of))
            }
        }
    }

    fn over(
        &self,
        alloc: Global,
        rows: &[JoinedRow<'_>],
        stack: &mut Stack<Value>,
    ) -> Result<Value, Refusal>
        ensures { Gives (λ value. value) result (aggregated self.now rows.now) }
    {
        match self {
            BoundAggregate::CountRows => count(rows.len()),
            BoundAggregate::Count(of) => count_over(alloc, of, rows, stack),
            BoundAggregate::Sum(of) => sum_over(alloc, of, rows, stack),
            BoundAggregate::Extreme(best, of) => best_over(alloc, *best, of, rows, stack),
        }
    }
}

/// An output whose names are bound.
#[derive(Debug, Drop)]
pub enum BoundOutput {
    /// The value at the group's first row.
    Value(BoundExpression),
    Aggregate(BoundAggregate),
}

impl BoundOutput {
    fn bind(
        alloc: Global,
        scope: &Scope<'_>,
        snapshot: Option<u32>,
        output: &OutputValue,
    ) -> Result<BoundOutput, AllocError>
        ensures { IfOk result (λ bound. over bound ≡ (λ rows. output_over scope.now snapshot rows output.now)) }
    {
        match output {
            OutputValue::Expression(of) => {
                let of = BoundExpression::bind(alloc, scope, snapshot, of)?;
                Ok(BoundOutput::Value(of))
            }
            OutputValue::Aggregate(of) => {
                let of = BoundAggregate::bind(alloc, scope, snapshot, of)?;
                Ok(BoundOutput::Aggregate(of))
            }
        }
    }
}

/// What a select gives for each group of rows, with its names bound.
#[derive(Debug, Drop)]
pub enum BoundList {
    All,
    Outputs(Seq<BoundOutput>),
}

impl BoundList {
    /// The list over the columns of a scope; `snapshot` is the number of `current_snapshot()`.
    pub fn bind(
        alloc: Global,
        scope: &Scope<'_>,
        snapshot: Option<u32>,
        list: &SelectList,
    ) -> Result<BoundList, AllocError>
        ensures { IfOk result (λ bound. list_over bound ≡ (λ rows. outputs_over scope.now snapshot list.now rows)) }
    {
        match list {
            SelectList::All => Ok(BoundList::All),
            SelectList::Outputs(outputs) => {
                let bound = bind_outputs(alloc, scope, snapshot, outputs.as_slice())?;
                Ok(BoundList::Outputs(bound))
            }
        }
    }

    /// The outputs over the rows of a group.
    pub(crate) fn over(
        &self,
        alloc: Global,
        rows: &[JoinedRow<'_>],
        stack: &mut Stack<Value>,
    ) -> Result<Row, Refusal>
        ensures { Gives (λ row. row) result (list_over self.now rows.now) }
    {
        match self {
            BoundList::All => match rows.first() {
                Some(row) => Ok(row.to_row(alloc)?),
                None => Ok(Seq::new(alloc)),
            },
            BoundList::Outputs(outputs) => outputs_over(alloc, outputs.as_slice(), rows, stack),
        }
    }
}

fn bind_outputs(
    alloc: Global,
    scope: &Scope<'_>,
    snapshot: Option<u32>,
    outputs: &[Output],
) -> Result<Seq<BoundOutput>, AllocError>
    ensures { IfOk result (λ bound. map over bound ≡ map (λ (output : OutputRecord) rows. output_over scope.now
        snapshot rows output.value) outputs.now) }
{
    let mut bound = Vec::with_capacity(alloc, outputs.len())?;
    for output in outputs {
        bound.push(BoundOutput::bind(alloc, scope, snapshot, &output.value)?)?;
    }
    Ok(Seq::from(bound))
}

fn outputs_over(
    alloc: Global,
    outputs: &[BoundOutput],
    rows: &[JoinedRow<'_>],
    stack: &mut Stack<Value>,
) -> Result<Row, Refusal>
    ensures { Gives (λ row. row) result (each (λ output. over output rows.now) outputs.now) }
{
    let mut values = Vec::with_capacity(alloc, outputs.len())?;
    for output in outputs {
        values.push(output_over(alloc, output, rows, stack)?)?;
    }
    Ok(Seq::from(values))
}

fn output_over(
    alloc: Global,
    output: &BoundOutput,
    rows: &[JoinedRow<'_>],
    stack: &mut Stack<Value>,
) -> Result<Value, Refusal>
    ensures { Gives (λ value. value) result (over output.now rows.now) }
{
    match output {
        BoundOutput::Value(of) => value_at_first(alloc, of, rows, stack),
        BoundOutput::Aggregate(of) => of.over(alloc, rows, stack),
    }
}

fn value_at_first(
    alloc: Global,
    expression: &BoundExpression,
    rows: &[JoinedRow<'_>],
    stack: &mut Stack<Value>,
) -> Result<Value, Refusal>
    ensures { Gives (λ value. value) result (value_at expression.now (first_row rows.now)) }
{
    match rows.first() {
        Some(row) => expression.value(alloc, row, stack),
        None => expression.value(alloc, &JoinedRow::empty(), stack),
    }
}

/// Whether the output has a value over no rows: COUNT, SUM, a literal and `current_snapshot()` have one.
pub(crate) fn is_there_over_none(output: &OutputValue) -> bool
    ensures { result ≡ is_there_over_none output.now }
{
    match output {
        OutputValue::Expression(expression) => expression.is_constant(),
        OutputValue::Aggregate(aggregate) => match aggregate {
            Aggregate::CountRows => true,
            Aggregate::Count(_) => true,
            Aggregate::Sum(_) => true,
            Aggregate::Min(_) => false,
            Aggregate::Max(_) => false,
        },
    }
}
