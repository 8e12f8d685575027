//! The one value of each answer, all of them in one.

ghost use Rattle.std.specs.Prelude.{◌≡◌, ◌∷◌, [], IfErr, IfOk, codes};
ghost use Rattle.retro_base.specs.declared.refusal.Refusal.TheVariants.{NotOneValue};
ghost use Rattle.sql_tree.specs.Statement.{IsSelect};
ghost use Rattle.rql.specs.AsOf.{Combines, IsOfQuery, MayAskEach};
ghost use Rattle.rql.specs.Tallies.{AreRowsOf, IsTally};
ghost use Rattle.rql.specs.Variable.{adds_texts, in_variable, kind_of_result, one_value, only, value_of};

use crate::as_of::AsOf;
use crate::function::Function;
use crate::gathering::{Takes, gather};
use crate::tally::Tally;
use fold_kit::Folds;
use pager::Stop;
use retro_base::Refusal;
use sql_select::Answer;
use sql_tree::{Column, Select};
use std::alloc::{AllocError, Global};
use values::{Kind, Name, Row, Seq, Value};

// The one item of a list of one.
fn only<T: Drop>(mut items: Vec<T>) -> Option<T>
    ensures { result ≡ only items.items }
{
    if items.len() == 1 { items.pop() } else { None }
}

fn value_of(snapshot: u32, rows: Seq<Row>) -> Result<Value, Refusal>
    ensures exact { result ≡ value_of snapshot rows }
    ensures named { IfErr result (λ why. why ≡ NotOneValue snapshot) }
{
    if let Some(row) = only(Vec::from(rows)) {
        if let Some(value) = only(Vec::from(row)) {
            return Ok(value);
        }
    }
    Err(Refusal::NotOneValue { snapshot })
}

pub(crate) fn adds_texts(function: Function, kind: Kind) -> bool
    ensures { result ≡ adds_texts function kind }
{
    matches!((function, kind), (Function::Sum, Kind::Text))
}

// Takes the one value of an answer.
#[derive(Drop)]
struct OneValue<'a, F> {
    folds: &'a F,
    function: Function,
}

impl<F: Folds> Takes for OneValue<'_, F> {
    type Part = Value;

    type State = Tally;

    ghost take = { λ taking. one_value taking.function };

    ghost holds = { λ taking _. IsTally taking.function };

    fn take(&self, snapshot: u32, columns: &[Column], rows: Seq<Row>) -> Result<Value, Refusal> {
        let [column] = columns else {
            return Err(Refusal::NotOneValue { snapshot });
        };
        if adds_texts(self.function, column.kind) {
            return Err(Refusal::WrongType);
        }
        value_of(snapshot, rows)
    }

    fn take_again(
        &self,
        snapshot: u32,
        _columns: &[Column],
        rows: Seq<Row>,
    ) -> Result<Value, Refusal> {
        value_of(snapshot, rows)
    }

    fn start(&self, _alloc: Global, _columns: &[Column]) -> Result<Tally, AllocError> {
        Ok(Tally::new())
    }

    fn add(
        &self,
        alloc: Global,
        tally: &mut Tally,
        _place: usize,
        value: Value,
    ) -> Result<(), AllocError> {
        tally.add(alloc, self.folds, self.function, &value)?;
        Ok(())
    }
}

fn kind_of_result(function: Function, columns: &[Column]) -> Kind
    ensures { result ≡ kind_of_result function columns.now }
{
    match (function, columns) {
        (Function::Min | Function::Max, [column]) => column.kind,
        _ => Kind::Int,
    }
}

// The row of the values in one.
fn rows_of(alloc: Global, function: Function, tally: Tally) -> Result<Seq<Row>, Refusal>
    ensures exact { AreRowsOf function tally result }
    ensures named { IfErr result IsOfQuery }
{
    let mut rows = Seq::new(alloc);
    if let Some(value) = tally.finish(function)? {
        let mut row = Seq::new(alloc);
        row.push(value)?;
        rows.push(row)?;
    }
    Ok(rows)
}

// The column of the values in one.
fn columns_of(alloc: Global, kind: Kind) -> Result<Seq<Column>, AllocError>
    ensures { IfOk result (λ columns. columns ≡ record { name = codes "value"; kind = kind } ∷ []) }
{
    let name = Name::new(Seq::from(b"value".to_vec(alloc)?));
    let mut columns = Seq::new(alloc);
    columns.push(Column { name, kind })?;
    Ok(columns)
}

/// The one values of a query's answers at the snapshots in one, as the one row of a column `value`. MIN and MAX over no
/// snapshots give no row, COUNT and SUM give 0. Refused by what the query is refused by, by WrongType for a SUM of a
/// column of texts, by NotOneValue for an answer that has not one row and one column, by WrongType for columns that are
/// not those of the first answer, in this order at one snapshot, and the first snapshot's first; then by Overflow for a
/// SUM whose end is outside i64.
pub fn in_variable<A: AsOf, F: Folds>(
    alloc: Global,
    asof: &mut A,
    snapshots: &[u32],
    query: &Select,
    folds: &F,
    function: Function,
) -> Result<Answer, Stop<A::Fault>>
    requires asked { MayAskEach A.may_ask asof.old snapshots.now }
    requires query { IsSelect query.now }
    ensures { Combines A.may_ask A.told A.goes A.faults (in_variable function) snapshots.now query.now asof.old
        asof.new result }
{
    let taking = OneValue { folds, function };
    let (columns, tally) = gather(alloc, asof, snapshots, query, &taking)?;
    let kind = kind_of_result(function, columns.as_slice());
    let rows = rows_of(alloc, function, tally)?;
    let columns = columns_of(alloc, kind)?;
    Ok(Answer { columns, rows })
}
