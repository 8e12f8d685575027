//! Queries of the table of snapshots.

ghost use Rattle.std.specs.Prelude.{◌≡◌, true, IfOk, map};
ghost use Rattle.retro_base.specs.Gives.{Gives};
ghost use Rattle.journal_law.specs.Seats.{Idle, is_looking};
ghost use Rattle.session.specs.Ending.{LookEnds};
ghost use Rattle.session.specs.Singles.{AsksMarks, Settles, item_snap_ids, row_of_mark, without_seat};
ghost use Rattle.session.specs.Sql.{answer_told};
ghost use Rattle.session.specs.Texts.{answer_text};
ghost use Rattle.session.specs.OverSnapshots.{asked_of, snapshots_table};

use crate::beside::asked_of;
use crate::ending::{Told, finish};
use crate::gate::{Gate, Point};
use crate::looking::{of_query, text_of};
use history::{Label, Mark};
use journal_law::Seat;
use retro_base::{Refusal, Who};
use script::SessionName;
use sql_select::Answer;
use sql_tree::{Column, Select, TableSchema};
use std::alloc::{AllocError, Global};
use values::{Kind, Name, Row, Seq, Text, Value};

// The columns of the table of snapshots.
fn snapshots_table(alloc: Global) -> Result<TableSchema, AllocError>
    ensures { IfOk result (λ table. table ≡ snapshots_table) }
{
    let name = Name::new(Seq::from(b"SnapIds".to_vec(alloc)?));
    let number = Name::new(Seq::from(b"snap_id".to_vec(alloc)?));
    let label = Name::new(Seq::from(b"label".to_vec(alloc)?));
    let mut columns = Seq::new(alloc);
    columns.push(Column {
        name: number,
        kind: Kind::Int,
    })?;
    columns.push(Column {
        name: label,
        kind: Kind::Text,
    })?;
    Ok(TableSchema { name, columns })
}

// A label as a text.
#[tactic(auto, using(crate::proofs::Labels::label_is_text))]
fn label_text(alloc: Global, label: &Label) -> Result<Text, AllocError>
    ensures { IfOk result (λ text. text ≡ label.now) }
{
    Ok(Text::new(Seq::from(Vec::from_slice(alloc, label.bytes())?)))
}

fn snapshot_row(alloc: Global, mark: &Mark) -> Result<Row, AllocError>
    ensures { IfOk result (λ row. row ≡ row_of_mark mark.now) }
{
    let mut row = Seq::new(alloc);
    row.push(Value::Int(i64::from(mark.number)))?;
    row.push(Value::Text(label_text(alloc, &mark.label)?))?;
    Ok(row)
}

fn snapshot_rows(alloc: Global, marks: &[Mark]) -> Result<Seq<Row>, AllocError>
    ensures { IfOk result (λ rows. rows ≡ map row_of_mark marks.now) }
{
    let mut rows = Seq::new(alloc);
    for mark in marks {
        rows.push(snapshot_row(alloc, mark)?)?;
    }
    Ok(rows)
}

/// The answer of a query of the table of snapshots, of which these are the marks of the retained ones.
pub fn snapshots_asked(alloc: Global, query: &Select, marks: &[Mark]) -> Result<Answer, Refusal>
    ensures { Gives (λ answer. answer) result (asked_of query.now snapshots_table (map row_of_mark marks.now)) }
{
    let table = snapshots_table(alloc)?;
    let rows = snapshot_rows(alloc, marks)?;
    asked_of(alloc, query, &table, rows.as_slice())
}

// The text of the answer.
fn listed(alloc: Global, query: &Select, marks: &[Mark]) -> Result<Seq<u8>, Refusal>
    ensures { Gives (λ text. text) result
        (without_seat (answer_told answer_text (asked_of query.now snapshots_table (map row_of_mark marks.now)))) }
{
    match snapshots_asked(alloc, query, marks) {
        Ok(answer) => Ok(text_of(alloc, &answer)?),
        Err(why) => Err(of_query(why)),
    }
}

// Ends an open look at all snapshots, of which these are the marks, with the answer of the query of their table.
fn list_up<S: Seat>(
    alloc: Global,
    seat: S,
    names: &[SessionName],
    query: &Select,
    marks: &[Mark],
) -> (S, Told)
    requires { is_looking (S.view seat).work ≡ true }
    ensures ends { LookEnds names.now (AsksMarks query.now marks.now) (S.view seat) (S.view result.0) result.1 }
    ensures goes { S.goes seat result.0 }
{
    let text = listed(alloc, query, marks);
    finish(alloc, seat, names, text)
}

/// Runs a query of the table of snapshots, and gives its reply. The gate is told when the look has begun.
pub fn snap_ids<S: Seat, G: Gate>(
    alloc: Global,
    seat: S,
    gate: &G,
    who: Who,
    names: &[SessionName],
    query: &Select,
) -> (S, Told)
    requires idle { (S.view seat).work ≡ Idle }
    requires own { who.session ≡ (S.view seat).session }
    ensures settles { Settles who (item_snap_ids names.now query.now) (S.view seat) (S.view result.0) result.1 }
    ensures idle { (S.view result.0).work ≡ Idle }
    ensures session { (S.view result.0).session ≡ (S.view seat).session }
    ensures goes { S.goes seat result.0 }
{
    let mut seat = seat;
    match seat.look_all(who) {
        Ok(marks) => {
            gate.at(Point::AfterLook, who.session, who.item);
            list_up(alloc, seat, names, query, marks.as_slice())
        }
        Err(_) => (seat, Ok(None)),
    }
}
