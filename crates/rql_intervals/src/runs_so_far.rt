//! The runs over answers, one answer more at a time.

ghost use Rattle.std.specs.Prelude.{◌≡◌, [], IfOk, OnOk};
ghost use Rattle.rql_intervals.specs.RunsSoFar.{AddsRows, AllGoOn, AreRuns, Begins};

use crate::row_set::RowSet;
use sql_select::RowKey;
use std::alloc::{AllocError, Global};
use values::{Duplicate, Seq, Value};

/// A row, and the first and the last place of a run of answers in which it stands.
#[derive(Drop)]
pub(crate) struct Run {
    pub row: RowKey,
    pub start: usize,
    pub end: usize,
}

/// The runs over the answers so far, the places among them of those that end at the last answer, and its rows.
#[derive(Drop)]
pub(crate) struct RunsSoFar {
    pub runs: Vec<Run>,
    pub ongoing: Vec<usize>,
    pub last: RowSet,
}

/// A row's values.
pub(crate) fn values_of(alloc: Global, row: &RowKey) -> Result<Vec<Value>, AllocError>
    ensures { IfOk result (λ found. found.items ≡ row.now) }
{
    let mut found = Vec::new(alloc);
    for value in row.values() {
        found.push(value.copy(alloc)?)?;
    }
    Ok(found)
}

// Moves the ends of the ongoing runs whose rows stand in the answer to its place, and tells which these are.
fn go_on(
    alloc: Global,
    runs: &mut Vec<Run>,
    ongoing: &[usize],
    place: usize,
    rows: &RowSet,
) -> Result<Vec<usize>, AllocError>
    ensures { IfOk result (λ still. AllGoOn place rows.now ongoing.now still.items runs.old.items runs.new.items) }
{
    let mut still = Vec::new(alloc);
    for at in ongoing {
        if *at < runs.len() && rows.contains(&runs[*at].row) {
            runs[*at].end = place;
            still.push(*at)?;
        }
    }
    Ok(still)
}

impl RunsSoFar {
    /// No runs, over no answers.
    pub(crate) fn new(alloc: Global) -> Result<RunsSoFar, AllocError>
        ensures { IfOk result (λ runs. AreRuns runs []) }
    {
        let last = RowSet::new(alloc, Seq::new(alloc))?;
        let runs = Vec::new(alloc);
        let ongoing = Vec::new(alloc);
        Ok(RunsSoFar {
            runs,
            ongoing,
            last,
        })
    }

    // Begins the runs of the answer's rows that do not stand in the last one.
    fn begin(&mut self, alloc: Global, place: usize, rows: &RowSet) -> Result<(), AllocError>
        ensures { OnOk result (Begins place rows.now self.old self.new) }
    {
        for (at, row) in rows.as_slice().iter().enumerate() {
            if self.last.contains_near(at, row) {
                continue;
            }
            let row = RowKey::new(Seq::from(values_of(alloc, row)?));
            self.ongoing.push(self.runs.len())?;
            let start = place;
            let end = place;
            self.runs.push(Run { row, start, end })?;
        }
        Ok(())
    }

    /// Adds the answer at a place.
    pub(crate) fn add(
        &mut self,
        alloc: Global,
        place: usize,
        rows: RowSet,
    ) -> Result<(), AllocError>
        ensures { OnOk result (AddsRows place rows self.old self.new) }
    {
        self.ongoing = go_on(alloc, &mut self.runs, &self.ongoing, place, &rows)?;
        self.begin(alloc, place, &rows)?;
        self.last = rows;
        Ok(())
    }
}
