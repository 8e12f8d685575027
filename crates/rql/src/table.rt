//! The rows of all answers, grouped, and one row of each group.

ghost use Rattle.std.specs.Prelude.{◌≡◌, IfOk, map};
ghost use Rattle.sql_tree.specs.Statement.{IsSelect};
ghost use Rattle.rql.specs.AsOf.{Combines, MayAskEach};
ghost use Rattle.rql.specs.Collate.{joined};
ghost use Rattle.rql.specs.Groups.{AreGroups};
ghost use Rattle.rql.specs.Pairs.{function_of};
ghost use Rattle.rql.specs.Table.{column_in, in_table, kind_in, paired_rows};
ghost use Rattle.rql.specs.TableLaws.{TablesFit};

use crate::as_of::AsOf;
use crate::columns::has_twins;
use crate::function::Function;
use crate::gathering::{Takes, gather};
use crate::groups::Groups;
use crate::pair::{Pair, any_sums_texts, function_of, has_twin_pairs, names_unknown};
use fold_kit::Folds;
use pager::Stop;
use retro_base::Refusal;
use sql_select::Answer;
use sql_tree::{Column, Select};
use std::alloc::{AllocError, Global};
use values::{Kind, Row, Seq};

// Takes the rows of an answer to whose columns the pairs apply.
#[derive(Drop)]
struct PairedRows<'a, F> {
    folds: &'a F,
    pairs: &'a [Pair],
}

impl<F: Folds> Takes for PairedRows<'_, F> {
    type Part = Seq<Row>;

    type State = Groups;

    ghost take = { λ taking. paired_rows taking.pairs.now };

    ghost holds = { λ taking columns groups parts.
        AreGroups (map (function_of taking.pairs.now) columns) groups (joined parts) };

    fn take(
        &self,
        _snapshot: u32,
        columns: &[Column],
        rows: Seq<Row>,
    ) -> Result<Seq<Row>, Refusal> {
        if names_unknown(self.pairs, columns) {
            return Err(Refusal::UnknownName);
        }
        if has_twin_pairs(self.pairs) || has_twins(columns) {
            return Err(Refusal::NameTaken);
        }
        if any_sums_texts(self.pairs, columns) {
            return Err(Refusal::WrongType);
        }
        Ok(rows)
    }

    fn take_again(
        &self,
        _snapshot: u32,
        _columns: &[Column],
        rows: Seq<Row>,
    ) -> Result<Seq<Row>, Refusal> {
        Ok(rows)
    }

    fn start(&self, alloc: Global, columns: &[Column]) -> Result<Groups, AllocError> {
        Ok(Groups::new(alloc, functions_of(alloc, self.pairs, columns)?))
    }

    fn add(
        &self,
        alloc: Global,
        groups: &mut Groups,
        _place: usize,
        part: Seq<Row>,
    ) -> Result<(), AllocError> {
        for row in part.as_slice() {
            groups.add(alloc, self.folds, row.as_slice())?;
        }
        Ok(())
    }
}

// The function of each column that has one.
fn functions_of(
    alloc: Global,
    pairs: &[Pair],
    columns: &[Column],
) -> Result<Vec<Option<Function>>, AllocError>
    ensures { IfOk result (λ functions. functions.items ≡ map (function_of pairs.now) columns.now) }
{
    let mut functions = Vec::with_capacity(alloc, columns.len())?;
    for column in columns {
        functions.push(function_of(pairs, column))?;
    }
    Ok(functions)
}

fn kind_in(function: Option<Function>, kind: Kind) -> Kind
    ensures { result ≡ kind_in function kind }
{
    match function {
        Some(Function::Count) => Kind::Int,
        _ => kind,
    }
}

fn columns_in(
    alloc: Global,
    pairs: &[Pair],
    columns: Seq<Column>,
) -> Result<Seq<Column>, AllocError>
    ensures { IfOk result (λ found. found ≡ map (column_in pairs.now) columns) }
{
    let mut found = Vec::with_capacity(alloc, columns.len())?;
    for column in Vec::from(columns) {
        let kind = kind_in(function_of(pairs, &column), column.kind);
        let name = column.name;
        found.push(Column { name, kind })?;
    }
    Ok(Seq::from(found))
}

/// The rows of a query's answers at the snapshots, one behind the other, in groups by the columns that are in no pair:
/// one row for each group, in order of first appearance, where a column in a pair has its values in the group in one.
/// COUNT gives a column of integers. Over no snapshots there is neither column nor row. Refused by what the query is
/// refused by, by UnknownName for a pair whose column the answer lacks, by NameTaken for one column in two pairs or two
/// columns of one name, by WrongType for a SUM of a column of texts, by WrongType for columns that are not those of the
/// first answer, in this order at one snapshot, and the first snapshot's first; then by Overflow for a SUM whose end is
/// outside i64.
pub fn in_table<A: AsOf, F: Folds>(
    alloc: Global,
    asof: &mut A,
    snapshots: &[u32],
    query: &Select,
    folds: &F,
    pairs: &[Pair],
) -> Result<Answer, Stop<A::Fault>>
    requires asked { MayAskEach A.may_ask asof.old snapshots.now }
    requires query { IsSelect query.now }
    ensures { Combines A.may_ask A.told A.goes A.faults (in_table pairs.now) snapshots.now query.now asof.old
        asof.new result }
{
    let taking = PairedRows { folds, pairs };
    let (columns, groups) = gather(alloc, asof, snapshots, query, &taking)?;
    let rows = groups.finish(alloc)?;
    let columns = columns_in(alloc, pairs, columns)?;
    Ok(Answer { columns, rows })
}

/// Where each row of all answers has one value of each column's kind, so has each row of the table.
pub fn tables_fit()
    ensures { TablesFit }
{}
