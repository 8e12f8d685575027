//! The calls, each in a function of its own, so that its instructions are told apart.

use crate::prepared::{Setting, declare, edit};
use core_trial::Trial;
use core_trial::devices::{A, B, FLUSHER};
use disk_model::Disk;
use race_model::Batch;
use retro_base::{Page, Refusal};
use std::alloc::Global;
use txn_set::Ending;

// How often each call is made.
const ROUNDS: u32 = 100;

// How often each transaction is made, and how many batches are copied.
const FEWER: u32 = 16;

// How many pages are written back behind others that wait.
const BEHIND: u32 = 32;

/// What was done, and what is left.
#[derive(Clone, Copy)]
pub struct Counts {
    /// Whether each changed page waited for its capture to be copied before it was written back.
    pub waited: bool,
    pub batches: u32,
    pub written: u32,
    pub pending: u64,
    pub dirty: u64,
}

#[inline(never)]
fn begin<D: Disk + Drop>(alloc: Global, trial: &mut Trial<D>) -> Result<(), Refusal> {
    trial.begin(alloc, A)
}

#[inline(never)]
fn rollback<D: Disk + Drop>(trial: &mut Trial<D>) -> Result<(), Refusal> {
    trial.rollback(A, Ending::Asked)
}

#[inline(never)]
fn look<D: Disk + Drop>(alloc: Global, trial: &mut Trial<D>, number: u32) -> Result<u64, Refusal> {
    trial.look(alloc, B, u64::from(number))
}

#[inline(never)]
fn unlook<D: Disk + Drop>(trial: &mut Trial<D>) -> Result<(), Refusal> {
    trial.unlook(B, Ending::Asked)
}

#[inline(never)]
fn read_changed<D: Disk + Drop>(trial: &mut Trial<D>) -> Result<Page, Refusal> {
    trial.read(A, 0)
}

#[inline(never)]
fn read_clean<D: Disk + Drop>(trial: &mut Trial<D>, page: u32) -> Result<Page, Refusal> {
    trial.read(A, page)
}

// Begins, edits so many of the pages that were changed, and commits.
fn change<D: Disk + Drop>(
    alloc: Global,
    trial: &mut Trial<D>,
    pages: u32,
) -> Result<Option<u32>, Refusal> {
    trial.begin(alloc, A)?;
    edit(trial, 0, pages)?;
    trial.commit(alloc, A, None)
}

#[inline(never)]
fn change_1<D: Disk + Drop>(alloc: Global, trial: &mut Trial<D>) -> Result<Option<u32>, Refusal> {
    change(alloc, trial, 1)
}

#[inline(never)]
fn change_64<D: Disk + Drop>(alloc: Global, trial: &mut Trial<D>) -> Result<Option<u32>, Refusal> {
    change(alloc, trial, 64)
}

// Declares a snapshot first, so that each page is captured.
#[inline(never)]
fn capture_64<D: Disk + Drop>(alloc: Global, trial: &mut Trial<D>) -> Result<Option<u32>, Refusal> {
    declare(alloc, trial, 1)?;
    change(alloc, trial, 64)
}

#[inline(never)]
fn next_batch<D: Disk + Drop>(trial: &Trial<D>, batch: &mut Batch) -> bool {
    trial.next_batch(batch)
}

#[inline(never)]
fn ack<D: Disk + Drop>(trial: &mut Trial<D>, count: u64) -> Result<(), Refusal> {
    trial.ack(count)
}

#[inline(never)]
fn write_back<D: Disk + Drop>(trial: &mut Trial<D>) -> Result<bool, Refusal> {
    trial.write_back(FLUSHER)
}

// Whether each changed page waits for its capture.
#[inline(never)]
fn waits<D: Disk + Drop>(trial: &mut Trial<D>) -> Result<bool, Refusal> {
    Ok(!trial.write_back(FLUSHER)?)
}

fn begin_often<D: Disk + Drop>(alloc: Global, trial: &mut Trial<D>) -> Result<(), Refusal> {
    for _ in 0..ROUNDS {
        begin(alloc, trial)?;
        rollback(trial)?;
    }
    Ok(())
}

fn look_often<D: Disk + Drop>(
    alloc: Global,
    trial: &mut Trial<D>,
    newest: u32,
) -> Result<(), Refusal> {
    for _ in 0..ROUNDS {
        look(alloc, trial, newest)?;
        unlook(trial)?;
    }
    Ok(())
}

// Reads of two pages in memory, one that was changed, behind a first of each that is not counted.
fn read_often<D: Disk + Drop>(
    alloc: Global,
    trial: &mut Trial<D>,
    clean: u32,
) -> Result<(), Refusal> {
    trial.begin(alloc, A)?;
    trial.read(A, 0)?;
    trial.read(A, clean)?;
    for _ in 0..ROUNDS {
        read_changed(trial)?;
        read_clean(trial, clean)?;
    }
    trial.rollback(A, Ending::Asked)
}

fn change_often<D: Disk + Drop>(alloc: Global, trial: &mut Trial<D>) -> Result<(), Refusal> {
    for _ in 0..FEWER {
        change_1(alloc, trial)?;
        change_64(alloc, trial)?;
    }
    Ok(())
}

fn capture_often<D: Disk + Drop>(alloc: Global, trial: &mut Trial<D>) -> Result<(), Refusal> {
    for _ in 0..FEWER {
        capture_64(alloc, trial)?;
    }
    Ok(())
}

fn copy_some<D: Disk + Drop>(trial: &mut Trial<D>, batch: &mut Batch) -> Result<u32, Refusal> {
    for count in 0..FEWER {
        if !next_batch(trial, batch) {
            return Ok(count);
        }
        ack(trial, batch.first().saturating_add(batch.len() as u64))?;
    }
    Ok(FEWER)
}

// Writes pages back behind others that wait for their captures: all of them in one function, since one like
// `write_back` would be folded with it.
#[inline(never)]
fn write_behind<D: Disk + Drop>(trial: &mut Trial<D>) -> Result<u32, Refusal> {
    for count in 0..BEHIND {
        if !trial.write_back(FLUSHER)? {
            return Ok(count);
        }
    }
    Ok(BEHIND)
}

// Copies what is still pending; how many batches that takes.
fn copy_rest<D: Disk + Drop>(trial: &mut Trial<D>, batch: &mut Batch) -> Result<u32, Refusal> {
    for count in 0..u32::MAX {
        if !trial.next_batch(batch) {
            return Ok(count);
        }
        trial.ack(batch.first().saturating_add(batch.len() as u64))?;
    }
    Ok(u32::MAX)
}

// Copies all that is pending, and writes some pages back while the first 64 still wait; how many batches and pages
// these are.
fn copy<D: Disk + Drop>(alloc: Global, trial: &mut Trial<D>) -> Result<(u32, u32), Refusal> {
    let mut batch = Batch::new(alloc)?;
    let some = copy_some(trial, &mut batch)?;
    let written = write_behind(trial)?;
    let rest = copy_rest(trial, &mut batch)?;
    Ok((some.saturating_add(rest), written))
}

fn write_some<D: Disk + Drop>(trial: &mut Trial<D>) -> Result<u32, Refusal> {
    for count in 0..ROUNDS {
        if !write_back(trial)? {
            return Ok(count);
        }
    }
    Ok(ROUNDS)
}

/// Makes each of the calls in turn.
pub fn measure<D: Disk + Drop>(
    alloc: Global,
    trial: &mut Trial<D>,
    setting: &Setting,
) -> Result<Counts, Refusal> {
    begin_often(alloc, trial)?;
    look_often(alloc, trial, setting.snapshots)?;
    read_often(alloc, trial, setting.pages.saturating_sub(1))?;
    let waited = waits(trial)?;
    change_often(alloc, trial)?;
    capture_often(alloc, trial)?;
    let (batches, behind) = copy(alloc, trial)?;
    let written = behind.saturating_add(write_some(trial)?);
    let (pending, dirty) = trial.owed();
    Ok(Counts {
        waited,
        batches,
        written,
        pending,
        dirty,
    })
}
