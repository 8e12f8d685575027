//! Queries over a thousand snapshots and over ten thousand: the time is linear in the rows.
#![tactic(auto)]

ghost use Rattle.std.specs.Prelude.{IfOk};
ghost use Rattle.sql_tree.specs.Statement.{IsSelect};

mod shown;

use fold_kit::{Combiner, FoldSet, Folds, How};
use pager::Stop;
use retro_base::{Failed, Refusal};
use rql::{Function, collate, in_table, in_variable};
use rql_intervals::intervals;
use shown::Shown;
use sql_tree::{Select, SelectList};
use std::alloc::{AllocError, Global};
use std::process::ExitCode;
use values::{Name, Seq, Value};

const ROWS: u32 = 100;

// The rows of all answers one after the other, in groups, and in intervals, and the sum of one value of each.
struct Told {
    rows: usize,
    groups: usize,
    intervals: usize,
    sum: i64,
}

// `SELECT * FROM t`
fn query_of(alloc: Global) -> Result<Select, AllocError>
    ensures { IfOk result IsSelect }
{
    Ok(Select {
        distinct: false,
        list: SelectList::All,
        table: Name::new(Seq::from(b"t".to_vec(alloc)?)),
        second: None,
        condition: None,
        group_by: Seq::new(alloc),
        order_by: Seq::new(alloc),
        limit: None,
    })
}

fn snapshots_to(alloc: Global, last: u32) -> Result<Vec<u32>, Stop<Failed>> {
    let mut snapshots = Vec::with_capacity(alloc, last as usize)?;
    for snapshot in 0..last {
        snapshots.push(snapshot)?;
    }
    Ok(snapshots)
}

#[inline(never)]
fn rows_of(alloc: Global, snapshots: &[u32], query: &Select) -> Result<usize, Stop<Failed>>
    requires { IsSelect query.now }
{
    let mut hundreds = Shown::new(alloc, ROWS);
    Ok(collate(alloc, &mut hundreds, snapshots, query)?.rows.len())
}

#[inline(never)]
fn groups_of<F: Folds>(
    alloc: Global,
    snapshots: &[u32],
    query: &Select,
    folds: &F,
) -> Result<usize, Stop<Failed>>
    requires { IsSelect query.now }
{
    let mut hundreds = Shown::new(alloc, ROWS);
    let table = in_table(alloc, &mut hundreds, snapshots, query, folds, &[])?;
    Ok(table.rows.len())
}

#[inline(never)]
fn intervals_of(alloc: Global, snapshots: &[u32], query: &Select) -> Result<usize, Stop<Failed>>
    requires { IsSelect query.now }
{
    let mut hundreds = Shown::new(alloc, ROWS);
    Ok(
        intervals(alloc, &mut hundreds, snapshots, query)?
            .rows
            .len(),
    )
}

#[inline(never)]
fn sum_of<F: Folds>(
    alloc: Global,
    snapshots: &[u32],
    query: &Select,
    folds: &F,
) -> Result<i64, Stop<Failed>>
    requires { IsSelect query.now }
{
    let mut singles = Shown::new(alloc, 1);
    let answer = in_variable(alloc, &mut singles, snapshots, query, folds, Function::Sum)?;
    let Some(row) = answer.rows.as_slice().first() else {
        return Err(Stop::Refused(Refusal::BadSizes));
    };
    match row.as_slice() {
        [Value::Int(sum)] => Ok(*sum),
        _ => Err(Stop::Refused(Refusal::BadSizes)),
    }
}

fn told_of<F: Folds>(alloc: Global, last: u32, folds: &F) -> Result<Told, Stop<Failed>> {
    let query = query_of(alloc)?;
    let snapshots = snapshots_to(alloc, last)?;
    Ok(Told {
        rows: rows_of(alloc, &snapshots, &query)?,
        groups: groups_of(alloc, &snapshots, &query, folds)?,
        intervals: intervals_of(alloc, &snapshots, &query)?,
        sum: sum_of(alloc, &snapshots, &query, folds)?,
    })
}

fn main(rt: HostRuntime) -> ExitCode {
    let folds = FoldSet::new(
        Combiner::new(How::Min, |a: i128, b: i128| a.min(b)),
        Combiner::new(How::Max, |a: i128, b: i128| a.max(b)),
        Combiner::new(How::Add, |a: i128, b: i128| a.wrapping_add(b)),
    );
    for snapshots in [1000, 10_000] {
        let Ok(told) = told_of(rt.alloc(), snapshots, &folds) else {
            return ExitCode::FAILURE;
        };
        let Told {
            rows,
            groups,
            intervals,
            sum,
        } = told;
        let told = println!(rt;
            "{snapshots} snapshots: {rows} rows in all, {groups} groups, {intervals} intervals, sum {sum}"
        );
        if told.is_err() {
            return ExitCode::FAILURE;
        }
    }
    ExitCode::SUCCESS
}
