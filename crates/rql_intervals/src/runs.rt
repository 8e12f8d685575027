//! The runs of answers in which a row stands.

ghost use Rattle.std.specs.Prelude.{◌≡◌, ◌++◌, ◌<◌, IfOk, length, map};
ghost use Rattle.values.specs.declared.value.Kind.TheVariants as kind;
ghost use Rattle.sql_check.specs.Names.{has_twins};
ghost use Rattle.values.specs.Name.{IsName};
ghost use Rattle.sql_tree.specs.Statement.{IsSelect};
ghost use Rattle.rql.specs.AsOf.{Combines, MayAskEach};
ghost use Rattle.rql.specs.Columns.{name_of};
ghost use Rattle.rql_intervals.specs.Intervals.{RunsAreIntervals, answer_set, end_columns};
ghost use Rattle.rql_intervals.specs.Intervals.{interval_columns, intervals, row_of_run};
ghost use Rattle.rql_intervals.specs.RunsSoFar.{AllFit, AreRuns};

use crate::row_set::RowSet;
use crate::runs_so_far::{Run, RunsSoFar, values_of};
use pager::Stop;
use retro_base::Refusal;
use rql::{AsOf, Takes, gather, has_name, has_twins};
use sql_select::Answer;
use sql_tree::{Column, Select};
use std::alloc::{AllocError, Global};
use values::{Kind, Name, Row, Seq, Value};

const START_SNAPSHOT: &[u8] = b"start_snapshot";

const END_SNAPSHOT: &[u8] = b"end_snapshot";

// Whether a name stands twice among the columns and those of a run's two snapshots.
#[tactic(auto, using(crate::proofs::Twins::twins_with_ends))]
fn has_twins_with_ends(columns: &[Column]) -> bool
    ensures { result ≡ has_twins name_of (columns.now ++ end_columns) }
{
    has_twins(columns) || has_name(START_SNAPSHOT, columns) || has_name(END_SNAPSHOT, columns)
}

// Takes the rows of an answer as a set, and keeps the runs over the sets.
#[derive(Drop)]
struct AnswerSet {
    alloc: Global,
}

impl Takes for AnswerSet {
    type Part = RowSet;

    type State = RunsSoFar;

    ghost take = { λ _. answer_set };

    ghost holds = { λ _ _ runs parts. AreRuns runs parts };

    fn take(&self, _snapshot: u32, columns: &[Column], rows: Seq<Row>) -> Result<RowSet, Refusal> {
        if has_twins_with_ends(columns) {
            return Err(Refusal::NameTaken);
        }
        Ok(RowSet::new(self.alloc, rows)?)
    }

    fn take_again(
        &self,
        _snapshot: u32,
        _columns: &[Column],
        rows: Seq<Row>,
    ) -> Result<RowSet, Refusal> {
        Ok(RowSet::new(self.alloc, rows)?)
    }

    fn start(&self, alloc: Global, _columns: &[Column]) -> Result<RunsSoFar, AllocError> {
        RunsSoFar::new(alloc)
    }

    fn add(
        &self,
        alloc: Global,
        runs: &mut RunsSoFar,
        place: usize,
        part: RowSet,
    ) -> Result<(), AllocError> {
        runs.add(alloc, place, part)
    }
}

// A run as a row.
fn row_of_run(alloc: Global, snapshots: &[u32], run: Run) -> Result<Row, AllocError>
    requires { (run.start < length snapshots.now) × (run.end < length snapshots.now) }
    ensures { IfOk result (λ row. row ≡ row_of_run snapshots.now run) }
{
    let mut row = values_of(alloc, &run.row)?;
    row.push(Value::Int(i64::from(snapshots[run.start])))?;
    row.push(Value::Int(i64::from(snapshots[run.end])))?;
    Ok(Seq::from(row))
}

// The runs over the answers at the snapshots, as rows. Each run is let go once it has its row.
fn rows_of_runs(alloc: Global, snapshots: &[u32], found: RunsSoFar) -> Result<Seq<Row>, AllocError>
    requires { AllFit (length snapshots.now) found.ongoing.items found.runs.items }
    ensures { IfOk result (λ rows. rows ≡ map (row_of_run snapshots.now) found.runs.items) }
{
    let mut rows = Vec::with_capacity(alloc, found.runs.len())?;
    for run in found.runs {
        rows.push(row_of_run(alloc, snapshots, run)?)?;
    }
    Ok(Seq::from(rows))
}

// A column of snapshots.
fn snapshot_column(alloc: Global, name: &[u8]) -> Result<Column, AllocError>
    requires { IsName name.now }
    ensures { IfOk result (λ column. column ≡ record { name = name.now; kind = kind.Int }) }
{
    let name = Name::new(Seq::from(name.to_vec(alloc)?));
    Ok(Column {
        name,
        kind: Kind::Int,
    })
}

// The columns of the runs, from those of the query.
fn interval_columns(
    alloc: Global,
    snapshots: &[u32],
    columns: Seq<Column>,
) -> Result<Seq<Column>, AllocError>
    ensures { IfOk result (λ found. found ≡ interval_columns snapshots.now columns) }
{
    if snapshots.is_empty() {
        return Ok(Seq::new(alloc));
    }
    let mut columns = columns;
    columns.push(snapshot_column(alloc, START_SNAPSHOT)?)?;
    columns.push(snapshot_column(alloc, END_SNAPSHOT)?)?;
    Ok(columns)
}

/// The runs of consecutive snapshots of the list at which a row stands in the query's answer, where the answer is taken
/// as a set of rows: one row of its values, and of the snapshots at the first and the last place of the run. The order
/// is by the first place, and then by the row's first appearance in the answer there. The columns are the query's, and
/// then `start_snapshot` and `end_snapshot`; over no snapshots there are none. Refused by what the query is refused by,
/// by NameTaken where two of these columns have one name, by WrongType for columns that are not those of the first
/// answer, in this order at one snapshot, and the first snapshot's first.
pub fn intervals<A: AsOf>(
    alloc: Global,
    asof: &mut A,
    snapshots: &[u32],
    query: &Select,
) -> Result<Answer, Stop<A::Fault>>
    requires asked { MayAskEach A.may_ask asof.old snapshots.now }
    requires query { IsSelect query.now }
    ensures { Combines A.may_ask A.told A.goes A.faults intervals snapshots.now query.now asof.old
        asof.new result }
{
    let (columns, runs) = gather(alloc, asof, snapshots, query, &AnswerSet { alloc })?;
    let columns = interval_columns(alloc, snapshots, columns)?;
    let rows = rows_of_runs(alloc, snapshots, runs)?;
    Ok(Answer { columns, rows })
}

/// The runs over answers are the intervals of their rows: each one, each once, by start, and by first appearance there.
pub fn runs_are_intervals()
    ensures { RunsAreIntervals }
{}
