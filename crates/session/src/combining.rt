//! The answers of a query at the snapshots of a call, in one.

ghost use Rattle.std.specs.Prelude.{◌≡◌, IsTrue};
ghost use Rattle.std.specs.List.{AllByRecursion};
ghost use Rattle.sql_tree.specs.Statement.{IsSelect};
ghost use Rattle.rql.specs.AsOf.{IsOfCall, OnlyAsks, Tells};
ghost use Rattle.session.specs.OverSnapshots.{combined};

use fold_kit::Folds;
use pager::Stop;
use rql::{AsOf, collate, in_table, in_variable};
use rql_arguments::Combination;
use rql_intervals::intervals;
use sql_select::Answer;
use sql_tree::Select;
use std::alloc::Global;

/// The answers of a query at the snapshots, combined.
pub fn combine<A: AsOf, F: Folds>(
    alloc: Global,
    asof: &mut A,
    snapshots: &[u32],
    query: &Select,
    folds: &F,
    combination: &Combination,
) -> Result<Answer, Stop<A::Fault>>
    requires asked { AllByRecursion (λ snapshot. IsTrue (A.may_ask asof.old snapshot)) snapshots.now }
    requires query { IsSelect query.now }
    ensures told { Tells (λ answer. answer) (A.told asof.old) query.now
        (λ answers. combined combination.now answers snapshots.now) result }
    ensures goes { A.goes asof.old asof.new }
{
    match combination {
        Combination::Collate => collate(alloc, asof, snapshots, query),
        Combination::InVariable(function) => {
            in_variable(alloc, asof, snapshots, query, folds, *function)
        }
        Combination::InTable(pairs) => {
            in_table(alloc, asof, snapshots, query, folds, pairs.as_slice())
        }
        Combination::Intervals => intervals(alloc, asof, snapshots, query),
    }
}
