//! Answers of so many rows at each snapshot.

use pager::Stop;
use retro_base::Failed;
use rql::AsOf;
use sql_select::Answer;
use sql_tree::{Column, Select};
use std::alloc::{AllocError, Global};
use values::{Kind, Name, Row, Seq, Value};

/// Answers any query: at each snapshot by the same number of rows, with the numbers from the snapshot's on.
#[derive(Drop)]
pub struct Shown {
    alloc: Global,
    rows: u32,
}

impl Shown {
    pub fn new(alloc: Global, rows: u32) -> Shown {
        Shown { alloc, rows }
    }
}

impl AsOf for Shown {
    ghost use Rattle.std.specs.Prelude.{true};

    type Fault = Failed;

    ghost may_ask = { λ _ _. true };

    ghost told = { λ _ _. ⊥ };

    ghost goes = { λ _ _. Unit {0} };

    ghost stays = { λ _. tt };

    ghost goes_on = { λ _ _ _ _ _. tt };

    ghost faults = { λ _. 0 };

    fn answer(&mut self, snapshot: u32, _query: &Select) -> Result<Answer, Stop<Failed>> {
        Ok(answer_of(self.alloc, self.rows, snapshot)?)
    }

    fn faults(&self) -> u64 {
        0
    }
}

fn answer_of(alloc: Global, count: u32, snapshot: u32) -> Result<Answer, AllocError> {
    let mut rows = Vec::with_capacity(alloc, count as usize)?;
    for number in 0..count {
        rows.push(row_of(alloc, i64::from(snapshot) + i64::from(number))?)?;
    }
    let mut columns = Seq::new(alloc);
    columns.push(Column {
        name: Name::new(Seq::from(b"number".to_vec(alloc)?)),
        kind: Kind::Int,
    })?;
    Ok(Answer {
        columns,
        rows: Seq::from(rows),
    })
}

fn row_of(alloc: Global, number: i64) -> Result<Row, AllocError> {
    let mut row = Seq::new(alloc);
    row.push(Value::Int(number))?;
    Ok(row)
}
