//! What is taken of the answers at snapshots, folded at each.

ghost use Rattle.std.specs.Prelude.{ℕ, [], IfErr, IfOk, IsTrue, List, OnOk, Result, length};
ghost use Rattle.std.specs.List.{AllByRecursion};
ghost use Rattle.retro_base.specs.Gives.{Gives};
ghost use Rattle.retro_base.specs.declared.refusal.Refusal.{Refusal};
ghost use Rattle.values.specs.declared.value.Value.{Value};
ghost use Rattle.pager.specs.Stop.{Allowed};
ghost use Rattle.sql_tree.specs.Statement.{IsSelect};
ghost use Rattle.sql_tree.specs.declared.statement.Column.{Column};
ghost use Rattle.rql.specs.AsOf.{Answers, IsOfCall, IsOfSnapshot, OnlyAsks, Tells};
ghost use Rattle.rql.specs.Folding.{Adds, HoldsMany, IsHeld};
ghost use Rattle.rql.specs.Gathering.{WasTaken, gathered, taken, taken_later};

use crate::as_of::AsOf;
use crate::columns::same_columns;
use pager::Stop;
use retro_base::Refusal;
use sql_select::Answer;
use sql_tree::{Column, Select};
use std::alloc::{AllocError, Global};
use values::{Row, Seq};

/// What is taken of the answer at each snapshot, and the state that it is folded into.
pub trait Takes {
    type Part: Drop;

    type State: Drop;

    ghost take: { Self → ℕ → List Column → List (List Value) → Result Self.Part Refusal };

    // Whether a state holds the parts of answers with these columns.
    ghost holds: { Self → List Column → Self.State → List Self.Part → Type 0 };

    fn take(&self, snapshot: u32, columns: &[Column], rows: Seq<Row>) -> Result<Self::Part, Refusal>
        ensures exact { Gives (λ part. part) result (take self.now snapshot columns.now rows) }
        ensures named { IfErr result (IsOfSnapshot snapshot) };

    /// What `take` takes, where it took of an answer with these columns before: what it asks of columns is not asked
    /// again.
    fn take_again(
        &self,
        snapshot: u32,
        columns: &[Column],
        rows: Seq<Row>,
    ) -> Result<Self::Part, Refusal>
        requires { WasTaken (take self.now) columns.now }
        ensures exact { Gives (λ part. part) result (take self.now snapshot columns.now rows) }
        ensures named { IfErr result (IsOfSnapshot snapshot) };

    /// The state without a part.
    fn start(&self, alloc: Global, columns: &[Column]) -> Result<Self::State, AllocError>
        ensures { IfOk result (λ state. holds self.now columns.now state []) };

    /// Folds in the part at a place.
    fn add(
        &self,
        alloc: Global,
        state: &mut Self::State,
        place: usize,
        part: Self::Part,
    ) -> Result<(), AllocError>
        ensures { OnOk result (Adds (holds self.now) place part state.old state.new) };
}

// The columns of the answer at a snapshot, and what is taken of it.
fn take_at<A: AsOf, T: Takes>(
    asof: &mut A,
    query: &Select,
    takes: &T,
    snapshot: u32,
) -> Result<(Seq<Column>, T::Part), Stop<A::Fault>>
    requires asked { IsTrue (A.may_ask asof.old snapshot) }
    requires query { IsSelect query.now }
    ensures told { Tells (λ part. part) (A.told asof.old) query.now
        (λ answers. taken (T.take takes.now) answers snapshot) result }
    ensures was_taken { IfOk result (λ found. WasTaken (T.take takes.now) found.0) }
    ensures only_asks { OnlyAsks A.may_ask A.told A.goes A.faults (IsOfSnapshot snapshot) asof.old asof.new result }
{
    let Answer { columns, rows } = asof.answer(snapshot, query)?;
    let part = takes.take(snapshot, columns.as_slice(), rows)?;
    Ok((columns, part))
}

// What is taken at a later snapshot, whose answer has to have the columns of the first.
fn take_later<A: AsOf, T: Takes>(
    asof: &mut A,
    query: &Select,
    takes: &T,
    columns: &Seq<Column>,
    snapshot: u32,
) -> Result<T::Part, Stop<A::Fault>>
    requires asked { IsTrue (A.may_ask asof.old snapshot) }
    requires query { IsSelect query.now }
    requires was_taken { WasTaken (T.take takes.now) columns.now }
    ensures told { Tells (λ part. part) (A.told asof.old) query.now
        (λ answers. taken_later (T.take takes.now) answers columns.now snapshot) result }
    ensures only_asks { OnlyAsks A.may_ask A.told A.goes A.faults (IsOfSnapshot snapshot) asof.old asof.new result }
{
    let Answer {
        columns: its_columns,
        rows,
    } = asof.answer(snapshot, query)?;
    if same_columns(columns.as_slice(), its_columns.as_slice()) {
        let part = takes.take_again(snapshot, columns.as_slice(), rows)?;
        return Ok(part);
    }
    takes.take(snapshot, its_columns.as_slice(), rows)?;
    Err(Stop::Refused(Refusal::WrongType))
}

/// The columns of the answers, and the state that holds what is taken of each, in the order of the snapshots. The first
/// refusal refuses the whole. Over no snapshots there are no columns.
pub fn gather<A: AsOf, T: Takes>(
    alloc: Global,
    asof: &mut A,
    snapshots: &[u32],
    query: &Select,
    takes: &T,
) -> Result<(Seq<Column>, T::State), Stop<A::Fault>>
    requires asked { AllByRecursion (λ snapshot. IsTrue (A.may_ask asof.old snapshot)) snapshots.now }
    requires query { IsSelect query.now }
    ensures told { (answers : Answers) → A.told asof.old answers
        → Allowed (λ found. (found.0, found.1)) (IsHeld (T.holds takes.now) (length snapshots.now)
        (gathered (T.take takes.now) (λ snapshot. answers snapshot query.now) snapshots.now)) result }
    ensures held { IfOk result (λ found. HoldsMany (T.holds takes.now) (length snapshots.now) (found.0, found.1)) }
    ensures only_asks { OnlyAsks A.may_ask A.told A.goes A.faults (IsOfCall snapshots.now) asof.old asof.new result }
{
    let Some((first, later)) = snapshots.split_first() else {
        let columns = Seq::new(alloc);
        let state = takes.start(alloc, columns.as_slice())?;
        return Ok((columns, state));
    };
    let (columns, part) = take_at(asof, query, takes, *first)?;
    let mut state = takes.start(alloc, columns.as_slice())?;
    takes.add(alloc, &mut state, 0, part)?;
    for (place, snapshot) in later.iter().enumerate() {
        let part = take_later(asof, query, takes, &columns, *snapshot)?;
        takes.add(alloc, &mut state, place + 1, part)?;
    }
    Ok((columns, state))
}
