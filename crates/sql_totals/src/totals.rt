//! The aggregates of a select over one table without GROUP BY, worked out while its rows are read.

ghost use Rattle.std.specs.List.{AllByRecursion, list_all};
ghost use Rattle.std.specs.Prelude.{◌≡◌, ◌+◌, ◌+ℤ◌, ◌++◌, ◌∷◌, [], ℕ, ℤ, List, Option, None, IfOk, IfSome, OnOk};
ghost use Rattle.std.specs.Prelude.{is_some, map};
ghost use Rattle.retro_base.specs.Gives.{Gives};
ghost use Rattle.sql_tree.specs.declared.schema.TableSchema.{TableSchema as TableRecord};
ghost use Rattle.sql_tree.specs.declared.select.Output.{Output as OutputRecord};
ghost use Rattle.sql_tree.specs.declared.select.Select.{Select as SelectRecord};
ghost use Rattle.sql_tree.specs.Select.{is_aggregate};
ghost use Rattle.values.specs.declared.value.Value.{Value as ValueRecord};
ghost use Rattle.evaluation.specs.Bound.{value_at};
ghost use Rattle.sql_select.specs.Bound.{choice, over};
ghost use Rattle.sql_select.specs.Each.{each};
ghost use Rattle.sql_select.specs.Outputs.{output_over};
ghost use Rattle.sql_select.specs.Select.{answer};
ghost use Rattle.sql_select.specs.declared.outputs.BoundOutput.TheVariants.{Aggregate as AggregateOutput};
ghost use Rattle.sql_totals.specs.Totals.{AreOf, IsOver, added, best_with, counted, is_of_one_group, is_summable};
ghost use Rattle.sql_totals.specs.Totals.{output_of, rows_after, tally, tally_with, value_after, wide, with_row};
ghost use Rattle.sql_totals.specs.declared.totals.Total.TheVariants.{Count as CountTotal};

use evaluation::{BoundExpression, JoinedRow, Stack, Worked};
use retro_base::Refusal;
use sql_select::{
    Answer, Best, BoundAggregate, Filter, OutputRow, all_there_over_none, answer_of, better, count,
    whole,
};
use sql_tree::{Column, Output, OutputValue, Scope, Select};
use std::alloc::{AllocError, Global};
use values::{Duplicate, Row, Seq, Value};

/// The sum of an expression's numbers.
#[derive(Debug, Drop)]
pub(crate) struct SumSoFar {
    of: BoundExpression,
    sum: i128,
}

/// An aggregate over the rows so far.
#[derive(Debug, Drop)]
pub(crate) enum Total {
    CountRows,
    Count(BoundExpression),
    Sum(SumSoFar),
    /// The best of the expression's values, once there is one.
    Extreme(Best, BoundExpression, Option<Value>),
}

impl Total {
    // The total of no rows.
    fn of_none(aggregate: BoundAggregate) -> Total
        ensures { (output_of result ≡ AggregateOutput aggregate) × IsOver [] result }
    {
        match aggregate {
            BoundAggregate::CountRows => Total::CountRows,
            BoundAggregate::Count(of) => Total::Count(of),
            BoundAggregate::Sum(of) => Total::Sum(SumSoFar { of, sum: 0 }),
            BoundAggregate::Extreme(which, of) => Total::Extreme(which, of, None),
        }
    }

    // Adds a row. Where that is refused nothing is said of the total.
    fn add(
        &mut self,
        alloc: Global,
        row: &JoinedRow<'_>,
        stack: &mut Stack<Value>,
    ) -> Result<(), Refusal>
        ensures { Gives (λ _. self.new) result (with_row row.now self.old) }
    {
        match self {
            Total::CountRows => {}
            Total::Count(of) => work_out(alloc, of, row, stack)?,
            Total::Sum(so_far) => {
                so_far.sum = added(alloc, &so_far.of, so_far.sum, row, stack)?;
            }
            Total::Extreme(which, of, best) => {
                *best = Some(best_with(alloc, *which, of, best.take(), row, stack)?);
            }
        }
        Ok(())
    }

    // What the total gives after so many rows.
    fn value(&self, alloc: Global, rows: usize) -> Result<Value, Refusal>
        ensures { Gives (λ value. value) result (value_after rows self.now) }
    {
        match self {
            Total::CountRows => count(rows),
            Total::Count(_) => count(rows),
            Total::Sum(so_far) => whole(so_far.sum),
            Total::Extreme(_, _, Some(best)) => Ok(best.copy(alloc)?),
            Total::Extreme(_, _, None) => Err(Refusal::WrongType),
        }
    }
}

// Works an expression out at a row, whatever it gives.
fn work_out(
    alloc: Global,
    expression: &BoundExpression,
    row: &JoinedRow<'_>,
    stack: &mut Stack<Value>,
) -> Result<(), Refusal>
    ensures { Gives (λ _. CountTotal expression.now) result (with_row row.now (CountTotal expression.now)) }
{
    let _value = expression.worked(alloc, row, stack)?;
    Ok(())
}

// A sum with the expression's number at a row. One that 128 bits do not hold, which is of more numbers than there can
// be, is refused by Overflow.
fn added(
    alloc: Global,
    expression: &BoundExpression,
    sum: i128,
    row: &JoinedRow<'_>,
    stack: &mut Stack<Value>,
) -> Result<i128, Refusal>
    ensures { Gives (λ after. after) result (added (value_at expression.now) sum row.now) }
{
    let value = expression.worked(alloc, row, stack)?;
    match value.get() {
        Value::Int(number) => wide_sum(sum, *number).ok_or(Refusal::Overflow),
        Value::Text(_) => Err(Refusal::WrongType),
    }
}

// A sum with a number more, where an i128 holds it.
#[tactic(auto, using(crate::proofs::Machine::wide_is))]
fn wide_sum(sum: i128, number: i64) -> Option<i128>
    ensures { result ≡ wide (sum +ℤ number) }
{
    sum.checked_add(i128::from(number))
}

// The better of the expression's value at a row and the best so far.
fn best_with(
    alloc: Global,
    which: Best,
    expression: &BoundExpression,
    best: Option<Value>,
    row: &JoinedRow<'_>,
    stack: &mut Stack<Value>,
) -> Result<Value, Refusal>
    ensures { Gives (λ after. after) result (best_with (choice which) (value_at expression.now) best row.now) }
{
    let value = expression.worked(alloc, row, stack)?;
    let best = match best {
        Some(best) => Some(Worked::New(best)),
        None => None,
    };
    Ok(better(which, best, value).into_value(alloc)?)
}

/// The aggregates of a select over one table without GROUP BY, so far: rows are added one by one, and none is kept.
#[derive(Drop)]
pub struct Totals {
    filter: Filter,
    totals: Vec<Total>,
    /// How many rows WHERE kept.
    rows: usize,
    conditions: Stack<bool>,
    values: Stack<Value>,
}

impl Totals {
    /// The aggregates of no rows; None where the select has GROUP BY, a second table, or an output that is no
    /// aggregate, and only there. `snapshot` is the number of `current_snapshot()`.
    pub fn bind(
        alloc: Global,
        select: &Select,
        scope: &Scope<'_>,
        snapshot: Option<u32>,
    ) -> Result<Option<Totals>, AllocError>
        ensures found { IfOk result (λ found. is_some found ≡ is_summable select.now) }
        ensures totals { IfOk result (λ found. IfSome found (λ totals. AreOf select.now scope.now snapshot []
            totals)) }
    {
        if !is_of_one_group(select) {
            return Ok(None);
        }
        let filter = Filter::bind(alloc, scope, snapshot, &select.condition)?;
        match bind_totals(alloc, scope, snapshot, select.list.outputs())? {
            Some(totals) => Ok(Some(Totals {
                filter,
                totals,
                rows: 0,
                conditions: Stack::new(alloc),
                values: Stack::new(alloc),
            })),
            None => Ok(None),
        }
    }

    /// Adds a row. Refused for want of memory; as WHERE is at the row; where WHERE keeps it, by Overflow if a usize
    /// counts no row more, or else as the first output is: as its expression is at the row, by WrongType for the sum of
    /// a text, or by Overflow for a sum that 128 bits do not hold. Then nothing is said of the totals.
    pub fn add(&mut self, alloc: Global, row: &[Value]) -> Result<(), Refusal>
        ensures tally { Gives (λ _. tally self.new) result (tally_with row.now self.old) }
        ensures totals { (select : SelectRecord) (scope : List TableRecord) (snapshot : Option ℕ)
            (rows : List (List ValueRecord)) → AreOf select scope snapshot rows self.old
            → OnOk result (AreOf select scope snapshot (rows ++ row.now ∷ []) self.new) }
    {
        let row = JoinedRow::of_one(row);
        if self.filter.keeps(&row, &mut self.conditions)? {
            let rows = one_more(self.rows).ok_or(Refusal::Overflow)?;
            add_to_each(alloc, &mut self.totals, &row, &mut self.values)?;
            self.rows = rows;
        }
        Ok(())
    }

    /// The answer of the select over the rows that were added, with these columns. Refused for want of memory, by
    /// Overflow where the end of a COUNT or of a SUM is outside i64, or by what `select` refuses a key by.
    pub fn answer(
        self,
        alloc: Global,
        select: &Select,
        scope: &Scope<'_>,
        columns: Seq<Column>,
    ) -> Result<Answer, Refusal>
        ensures { (snapshot : Option ℕ) (rows : List (List ValueRecord))
            → AreOf select.now scope.now snapshot rows self
            → Gives (λ answer. answer) result (answer select.now scope.now columns snapshot rows None) }
    {
        let found = output_rows(alloc, select.list.outputs(), &self.totals, self.rows)?;
        answer_of(alloc, select, scope, columns, found)
    }
}

/// Whether a select is over one table and gives one row for all of its rows.
pub fn is_of_one_group(select: &Select) -> bool
    ensures { result ≡ is_of_one_group select.now }
{
    select.second.is_none() && select.group_by.is_empty() && select.is_grouped()
}

// The totals of no rows of these outputs; none where one is no aggregate.
fn bind_totals(
    alloc: Global,
    scope: &Scope<'_>,
    snapshot: Option<u32>,
    outputs: &[Output],
) -> Result<Option<Vec<Total>>, AllocError>
    ensures found { IfOk result (λ found. is_some found ≡ list_all (λ (output : OutputRecord). is_aggregate
        output.value) outputs.now) }
    ensures totals { IfOk result (λ found. IfSome found (λ totals. (map over (map output_of totals.items)
        ≡ map (λ (output : OutputRecord) rows. output_over scope.now snapshot rows output.value) outputs.now)
        × AllByRecursion (IsOver []) totals.items)) }
{
    let mut totals = Vec::with_capacity(alloc, outputs.len())?;
    for output in outputs {
        let OutputValue::Aggregate(aggregate) = &output.value else {
            return Ok(None);
        };
        let bound = BoundAggregate::bind(alloc, scope, snapshot, aggregate)?;
        totals.push(Total::of_none(bound))?;
    }
    Ok(Some(totals))
}

// A count with a row more, where a usize holds it.
#[tactic(auto, using(crate::proofs::Machine::counted_is))]
fn one_more(rows: usize) -> Option<usize>
    ensures { result ≡ counted (rows + 1) }
{
    rows.checked_add(1)
}

fn add_to_each(
    alloc: Global,
    totals: &mut [Total],
    row: &JoinedRow<'_>,
    stack: &mut Stack<Value>,
) -> Result<(), Refusal>
    ensures { Gives (λ _. totals.new) result (each (with_row row.now) totals.old) }
{
    for total in totals.iter_mut() {
        total.add(alloc, row, stack)?;
    }
    Ok(())
}

// The rows of the answer, before DISTINCT, ORDER BY and LIMIT.
fn output_rows<'a>(
    alloc: Global,
    outputs: &[Output],
    totals: &[Total],
    rows: usize,
) -> Result<Vec<OutputRow<'a>>, Refusal>
    ensures { Gives (λ found. found.items) result (rows_after outputs.now rows totals.now) }
{
    let mut found = Vec::new(alloc);
    if rows != 0 || all_there_over_none(outputs) {
        let outputs = values_after(alloc, totals, rows)?;
        let origin = JoinedRow::empty();
        found.push(OutputRow { outputs, origin })?;
    }
    Ok(found)
}

fn values_after(alloc: Global, totals: &[Total], rows: usize) -> Result<Row, Refusal>
    ensures { Gives (λ row. row) result (each (value_after rows) totals.now) }
{
    let mut values = Vec::with_capacity(alloc, totals.len())?;
    for total in totals {
        values.push(total.value(alloc, rows)?)?;
    }
    Ok(Seq::from(values))
}
