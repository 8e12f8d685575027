//! What a table holds.

ghost use Rattle.std.specs.Prelude.{◌≡◌, ◌≤◌, ◌+◌, ◌++◌, ◌^◌, ◌<◌, [], List, length, take, OnOk, OnErr};
ghost use Rattle.std.specs.List.{AllByRecursion};
ghost use Rattle.retro_base.specs.declared.limits.TheConstants.{COLUMNS};
ghost use Rattle.retro_base.specs.Gives.{Gives};
ghost use Rattle.values.specs.declared.value.Value.{Value as ValueOf};
ghost use Rattle.tables.specs.Fates.{contents_after};
ghost use Rattle.tables.specs.Meaning.{inserted};
ghost use Rattle.tables.specs.Rows.{numbered};

use crate::fates::{Fate, rewrite};
use crate::lengths::check_tuples;
use retro_base::Refusal;
use sql_select::HasRow;
use std::alloc::{AllocError, Global};
use std::mem;
use values::{Duplicate, Row, Seq, Value};

/// A row of a table and its number.
#[derive(Debug, Drop)]
pub struct NumberedRow {
    pub number: u64,
    pub row: Row,
}

impl HasRow for NumberedRow {
    ghost row_of = { λ numbered_row. numbered_row.row };

    fn row(&self) -> &[Value] {
        self.row.as_slice()
    }
}

/// What a table holds: the number of the next row, and its rows in rising row number.
#[derive(Debug, Drop)]
pub struct Contents {
    pub next: u64,
    pub rows: Seq<NumberedRow>,
}

impl Contents {
    /// No rows.
    pub(crate) fn new(alloc: Global) -> Contents
        ensures { result ≡ record { next = 0; rows = [] } }
    {
        Contents {
            next: 0,
            rows: Seq::new(alloc),
        }
    }

    /// Adds copies of the tuples as the last rows, all or none of them.
    pub(crate) fn insert(&mut self, alloc: Global, tuples: &[Row]) -> Result<(), Refusal>
        requires { AllByRecursion (λ (row : List ValueOf). length row ≤ COLUMNS) tuples.now }
        ensures means { Gives (λ _. (self.new, length tuples.now)) result (inserted tuples.now self.old) }
        ensures err { OnErr result (self.new ≡ self.old) }
    {
        if self.next > u64::MAX - tuples.len() as u64 {
            return Err(Refusal::Overflow);
        }
        check_tuples(tuples)?;
        self.add(alloc, tuples)?;
        Ok(())
    }

    /// Does to each row what becomes of it.
    pub(crate) fn rewrite(&mut self, alloc: Global, fates: Seq<Fate>)
        requires { length fates ≡ length self.old.rows }
        ensures { self.new ≡ contents_after fates self.old }
    {
        let mut rows = Vec::from(mem::replace(&mut self.rows, Seq::new(alloc)));
        rewrite(&mut rows, fates);
        self.rows = Seq::from(rows);
    }

    fn add(&mut self, alloc: Global, tuples: &[Row]) -> Result<(), AllocError>
        requires { self.old.next + length tuples.now < 2 ^ 64 }
        ensures ok { OnOk result (self.new ≡ record {
          next = self.old.next + length tuples.now;
          rows = self.old.rows ++
              numbered self.old.next tuples.now;
        }) }
        ensures err { OnErr result (self.new ≡ self.old) }
    {
        let count = self.rows.len();
        let added = push_rows(alloc, &mut self.rows, self.next, tuples);
        match added {
            Ok(()) => self.next += tuples.len() as u64,
            Err(_) => self.rows.truncate(count),
        }
        added
    }
}

// An error may leave some of the rows.
fn push_rows(
    alloc: Global,
    rows: &mut Seq<NumberedRow>,
    next: u64,
    tuples: &[Row],
) -> Result<(), AllocError>
    requires { next + length tuples.now < 2 ^ 64 }
    ensures ok { OnOk result (rows.new ≡ rows.old ++ numbered next tuples.now) }
    ensures kept { take (length rows.old) rows.new ≡ rows.old }
{
    let mut number = next;
    for tuple in tuples {
        rows.push(NumberedRow {
            number,
            row: tuple.copy(alloc)?,
        })?;
        number += 1;
    }
    Ok(())
}
