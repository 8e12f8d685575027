//! Tables of calls, one after the other, and what is left behind them.

use crate::asking::{Answer, Row, first_wrong};
use crate::devices::open;
use crate::trial::Trial;
use disk_model::Disk;
use history::Journal;
use retro_base::Refusal;
use std::alloc::Global;

/// What is left behind tables of calls.
#[derive(Drop)]
pub struct Ran<D: Disk> {
    /// The place in its table of the first row that was answered otherwise, with that answer.
    pub wrong: Option<(usize, Answer)>,
    pub log: D,
    pub pages: D,
    pub journal: Journal,
}

// The first row that is answered otherwise, in the first table that has one.
fn first_wrong_of<D: Disk + Drop>(
    alloc: Global,
    trial: &mut Trial<D>,
    tables: &[&[Row]],
) -> Result<Option<(usize, Answer)>, Refusal> {
    for rows in tables {
        let wrong = first_wrong(alloc, trial, rows)?;
        if wrong.is_some() {
            return Ok(wrong);
        }
    }
    Ok(None)
}

/// Asks the rows of each table, up to the first that is answered otherwise.
pub fn run<D: Disk + Drop>(
    alloc: Global,
    mut trial: Trial<D>,
    tables: &[&[Row]],
) -> Result<Ran<D>, Refusal> {
    let wrong = first_wrong_of(alloc, &mut trial, tables)?;
    let (log, pages, journal) = trial.into_parts();
    Ok(Ran {
        wrong,
        log,
        pages,
        journal,
    })
}

/// What is left behind the rows on a store of these devices.
pub fn run_on<D: Disk + Drop>(
    alloc: Global,
    devices: (D, D),
    rows: &[Row],
) -> Result<Ran<D>, Refusal> {
    run(alloc, open(alloc, devices.0, devices.1, &[])?, &[rows])
}

/// Whether the rows are answered so on a store of these devices, and what they leave.
pub fn goes_so<D: Disk + Drop>(
    alloc: Global,
    devices: (D, D),
    rows: &[Row],
) -> Result<(bool, (D, D)), Refusal> {
    let ran = run_on(alloc, devices, rows)?;
    Ok((ran.wrong.is_none(), (ran.log, ran.pages)))
}
