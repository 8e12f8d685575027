//! The answers one after the other.

ghost use Rattle.std.specs.Prelude.{◌≡◌};
ghost use Rattle.sql_tree.specs.Statement.{IsSelect};
ghost use Rattle.rql.specs.AsOf.{Combines, MayAskEach};
ghost use Rattle.rql.specs.Collate.{all_rows, collate, joined};

use crate::as_of::AsOf;
use crate::columns::has_twins;
use crate::gathering::{Takes, gather};
use pager::Stop;
use retro_base::Refusal;
use sql_select::Answer;
use sql_tree::{Column, Select};
use std::alloc::{AllocError, Global};
use values::{Row, Seq};

/// Takes all rows of an answer, whose columns have names of their own.
pub(crate) struct AllRows;

impl Takes for AllRows {
    type Part = Seq<Row>;

    type State = Vec<Row>;

    ghost take = { λ _. all_rows };

    ghost holds = { λ _ _ rows parts. rows.items ≡ joined parts };

    fn take(
        &self,
        _snapshot: u32,
        columns: &[Column],
        rows: Seq<Row>,
    ) -> Result<Seq<Row>, Refusal> {
        if has_twins(columns) {
            return Err(Refusal::NameTaken);
        }
        Ok(rows)
    }

    fn take_again(
        &self,
        _snapshot: u32,
        _columns: &[Column],
        rows: Seq<Row>,
    ) -> Result<Seq<Row>, Refusal> {
        Ok(rows)
    }

    fn start(&self, alloc: Global, _columns: &[Column]) -> Result<Vec<Row>, AllocError> {
        Ok(Vec::new(alloc))
    }

    fn add(
        &self,
        _alloc: Global,
        rows: &mut Vec<Row>,
        _place: usize,
        part: Seq<Row>,
    ) -> Result<(), AllocError> {
        let mut part = Vec::from(part);
        rows.append(&mut part)?;
        Ok(())
    }
}

/// The answers of a query at the snapshots, one after the other, with the columns of the first. Refused by what the
/// query is refused by, by NameTaken for two columns of one name, by WrongType for columns that are not those of the
/// first answer, in this order at one snapshot, and the first snapshot's first.
pub fn collate<A: AsOf>(
    alloc: Global,
    asof: &mut A,
    snapshots: &[u32],
    query: &Select,
) -> Result<Answer, Stop<A::Fault>>
    requires asked { MayAskEach A.may_ask asof.old snapshots.now }
    requires query { IsSelect query.now }
    ensures { Combines A.may_ask A.told A.goes A.faults collate snapshots.now query.now asof.old
        asof.new result }
{
    let (columns, rows) = gather(alloc, asof, snapshots, query, &AllRows)?;
    let rows = Seq::from(rows);
    Ok(Answer { columns, rows })
}
