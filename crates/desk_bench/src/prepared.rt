//! A store of a setting.

use core_trial::Trial;
use core_trial::devices::{A, empty, open};
use disk_mem::RamDisk;
use disk_model::Disk;
use retro_base::{EDITED_PAGES, MAX_CAPACITY, PAGE_BYTES, Page, Refusal};
use std::alloc::Global;
use txn_set::Ending;

/// How large a store is.
#[derive(Clone, Copy)]
pub struct Setting {
    /// Lines of the journal.
    pub lines: u32,
    /// Snapshots that are retained.
    pub snapshots: u32,
    /// Pages from 0 on that were changed since the last of them: each waits for its capture.
    pub changed: u32,
    pub pages: u32,
}

/// Declares so many snapshots.
pub fn declare<D: Disk + Drop>(
    alloc: Global,
    trial: &mut Trial<D>,
    snapshots: u32,
) -> Result<(), Refusal> {
    for _ in 0..snapshots {
        trial.begin(alloc, A)?;
        trial.commit(alloc, A, Some(&[]))?;
    }
    Ok(())
}

/// Edits pages from a number on and below another.
pub fn edit<D: Disk + Drop>(trial: &mut Trial<D>, from: u32, to: u32) -> Result<(), Refusal> {
    let bytes = Page::of([1; PAGE_BYTES]);
    for page in from..to {
        trial.edit(A, page, &bytes)?;
    }
    Ok(())
}

// Commits the pages below a number, at most 1,024 in one commit.
fn change<D: Disk + Drop>(alloc: Global, trial: &mut Trial<D>, to: u32) -> Result<(), Refusal> {
    for step in 0..to.div_ceil(EDITED_PAGES) {
        let first = step.saturating_mul(EDITED_PAGES);
        trial.begin(alloc, A)?;
        edit(trial, first, to.min(first.saturating_add(EDITED_PAGES)))?;
        trial.commit(alloc, A, None)?;
    }
    Ok(())
}

// Reads each page in one transaction, so that as many are in memory as may be.
fn read_all<D: Disk + Drop>(
    alloc: Global,
    trial: &mut Trial<D>,
    pages: u32,
) -> Result<(), Refusal> {
    trial.begin(alloc, A)?;
    for page in 0..pages {
        trial.read(A, page)?;
    }
    trial.rollback(A, Ending::Asked)
}

// Adds lines, two at a time.
fn fill<D: Disk + Drop>(alloc: Global, trial: &mut Trial<D>, lines: u32) -> Result<(), Refusal> {
    for _ in 0..lines / 2 {
        trial.begin(alloc, A)?;
        trial.rollback(A, Ending::Asked)?;
    }
    Ok(())
}

/// The store, opened again before its journal is filled.
pub fn prepare(alloc: Global, setting: &Setting) -> Result<Trial<RamDisk>, Refusal> {
    let mut trial = empty(alloc, setting.pages, MAX_CAPACITY)?;
    declare(alloc, &mut trial, setting.snapshots)?;
    change(alloc, &mut trial, setting.changed)?;
    let (log, pages, _journal) = trial.into_parts();
    let mut trial = open(alloc, log, pages, &[])?;
    fill(alloc, &mut trial, setting.lines)?;
    read_all(alloc, &mut trial, setting.pages)?;
    Ok(trial)
}
