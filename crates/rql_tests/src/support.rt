//! Answers in short over the columns k and v, and answers as text.

ghost use Rattle.std.specs.Prelude.{IfErr, IfOk};
ghost use Rattle.sql_tree.specs.Statement.{IsSelect};
ghost use Rattle.rql.specs.AsOf.{IsOfQuery};

use pager::Stop;
use retro_base::{Failed, Refusal};
use rql::AsOf;
use sql_select::Answer;
use sql_tree::{Column, Select, SelectList};
use std::alloc::{AllocError, Global};
use values::{Kind, Name, Row, Seq, Text, Value, field};

/// The column k of texts, the column v of integers, and one whose name is that of a column of intervals.
#[derive(Clone, Copy)]
pub enum Named {
    K,
    V,
    StartSnapshot,
}

#[derive(Clone, Copy)]
pub enum Cell {
    Int(i64),
    A,
    B,
}

use Cell::{A, B, Int};
use Named::{K, StartSnapshot, V};

type Given = (&'static [Named], &'static [&'static [Cell]]);

// What the query gives at each snapshot.
fn given(snapshot: u32) -> Result<Given, Refusal>
    ensures { IfErr result IsOfQuery }
{
    match snapshot {
        1 => Ok((&[V], &[&[Int(9223372036854775807)]])),
        2 => Ok((&[V], &[&[Int(1)]])),
        3 => Ok((&[V], &[&[Int(-1)]])),
        4 => Ok((&[V], &[&[Int(1)], &[Int(2)]])),
        5 => Ok((&[K], &[&[A]])),
        6 => Ok((&[K], &[&[B]])),
        7 => Ok((&[K], &[&[A], &[B]])),
        8 => Ok((&[K, V], &[&[A, Int(1)], &[B, Int(2)], &[A, Int(1)]])),
        9 => Ok((&[K, V], &[&[B, Int(2)]])),
        10 => Ok((&[K, V], &[])),
        13 => Ok((&[V, V], &[&[Int(1), Int(2)]])),
        14 => Ok((&[K, V], &[&[A, Int(1)], &[B, Int(5)]])),
        15 => Ok((&[K, V], &[&[A, Int(11)], &[B, Int(5)]])),
        16 => Ok((&[StartSnapshot], &[])),
        11 => Err(Refusal::UnknownName),
        _ => Err(Refusal::Overflow),
    }
}

// One row of 7 at each snapshot but 5, which has none.
fn sevens(snapshot: u32) -> Given {
    match snapshot {
        5 => (&[V], &[]),
        _ => (&[V], &[&[Int(7)]]),
    }
}

/// What is answered.
#[derive(Clone, Copy)]
pub enum Answers {
    Mixed,
    Sevens,
}

/// Answers any query by what is given, and counts how often it is asked. At snapshot 0 it fails.
#[derive(Drop)]
pub struct Shown {
    alloc: Global,
    answers: Answers,
    asked: u64,
    faults: u64,
}

impl Shown {
    pub fn new(alloc: Global, answers: Answers) -> Shown {
        Shown {
            alloc,
            answers,
            asked: 0,
            faults: 0,
        }
    }

    pub fn asked(&self) -> u64 {
        self.asked
    }
}

impl AsOf for Shown {
    ghost use Rattle.std.specs.Prelude.{true};

    type Fault = Failed;

    ghost may_ask = { λ _ _. true };

    ghost told = { λ _ _. ⊥ };

    ghost goes = { λ _ _. Unit {0} };

    ghost stays = { λ _. tt };

    ghost goes_on = { λ _ _ _ _ _. tt };

    ghost faults = { λ s. s.faults };

    fn answer(&mut self, snapshot: u32, _query: &Select) -> Result<Answer, Stop<Failed>> {
        self.asked = self.asked.saturating_add(1);
        if snapshot == 0 {
            self.faults = self.faults.saturating_add(1);
            return Err(Stop::Pager(Failed));
        }
        let (columns, rows) = match self.answers {
            Answers::Mixed => given(snapshot)?,
            Answers::Sevens => sevens(snapshot),
        };
        let columns = columns_of(self.alloc, columns)?;
        let rows = rows_of(self.alloc, rows)?;
        Ok(Answer { columns, rows })
    }

    fn faults(&self) -> u64 {
        self.faults
    }
}

pub fn column(alloc: Global, column: Named) -> Result<Column, AllocError> {
    match column {
        K => Ok(Column {
            name: Name::new(Seq::from(b"k".to_vec(alloc)?)),
            kind: Kind::Text,
        }),
        V => Ok(Column {
            name: Name::new(Seq::from(b"v".to_vec(alloc)?)),
            kind: Kind::Int,
        }),
        StartSnapshot => Ok(Column {
            name: Name::new(Seq::from(b"start_snapshot".to_vec(alloc)?)),
            kind: Kind::Int,
        }),
    }
}

fn columns_of(alloc: Global, columns: &[Named]) -> Result<Seq<Column>, AllocError> {
    let mut found = Vec::with_capacity(alloc, columns.len())?;
    for named in columns {
        found.push(column(alloc, *named)?)?;
    }
    Ok(Seq::from(found))
}

fn value(alloc: Global, cell: Cell) -> Result<Value, AllocError> {
    match cell {
        Int(number) => Ok(Value::Int(number)),
        A => Ok(Value::Text(Text::new(Seq::from(b"a".to_vec(alloc)?)))),
        B => Ok(Value::Text(Text::new(Seq::from(b"b".to_vec(alloc)?)))),
    }
}

fn row(alloc: Global, cells: &[Cell]) -> Result<Row, AllocError> {
    let mut values = Vec::with_capacity(alloc, cells.len())?;
    for cell in cells {
        values.push(value(alloc, *cell)?)?;
    }
    Ok(Seq::from(values))
}

fn rows_of(alloc: Global, rows: &[&[Cell]]) -> Result<Seq<Row>, AllocError> {
    let mut found = Vec::with_capacity(alloc, rows.len())?;
    for cells in rows {
        found.push(row(alloc, cells)?)?;
    }
    Ok(Seq::from(found))
}

/// `SELECT * FROM t`
pub fn query(alloc: Global) -> Result<Select, AllocError>
    ensures { IfOk result IsSelect }
{
    Ok(Select {
        distinct: false,
        list: SelectList::All,
        table: Name::new(Seq::from(b"t".to_vec(alloc)?)),
        second: None,
        condition: None,
        group_by: Seq::new(alloc),
        order_by: Seq::new(alloc),
        limit: None,
    })
}

// A row with commas between its values.
fn put_row(alloc: Global, row: &[Value], out: &mut Vec<u8>) -> Result<(), AllocError> {
    for (i, value) in row.iter().enumerate() {
        if 0 < i {
            out.push(b',')?;
        }
        field(alloc, value, out)?;
    }
    Ok(())
}

// The columns' names with their kinds, and the rows, each behind a blank.
fn text_of(alloc: Global, answer: &Answer) -> Result<Vec<u8>, AllocError> {
    let mut out = Vec::new(alloc);
    for column in answer.columns.as_slice() {
        out.extend_from_slice(column.name.bytes())?;
        out.push(match column.kind {
            Kind::Int => b'#',
            Kind::Text => b'$',
        })?;
    }
    for row in answer.rows.as_slice() {
        out.push(b' ')?;
        put_row(alloc, row.as_slice(), &mut out)?;
    }
    Ok(out)
}

/// The text of an answer, or why there is none.
pub type Told = Result<Vec<u8>, Stop<Failed>>;

/// What is wanted of an answer.
pub type Want = Result<&'static [u8], Stop<Failed>>;

pub fn told(alloc: Global, answer: Result<Answer, Stop<Failed>>) -> Told {
    Ok(text_of(alloc, &answer?)?)
}

pub fn is(told: &Told, want: Want) -> bool {
    match told {
        Ok(text) => want == Ok(text.as_slice()),
        Err(stop) => want == Err(*stop),
    }
}
