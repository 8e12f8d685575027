//! Lists of records that are read.

use crate::bodies::{CAPACITY, PAGES, commits_of, log_of, maplog_of};
use history::Version;
use records::{read_log, read_maplog};
use retro_base::Refusal;
use std::alloc::Global;

fn changes_in(alloc: Global, bodies: &[Vec<u8>]) -> Result<usize, Refusal> {
    match read_log(alloc, Version::One, bodies) {
        Ok(log) => Ok(log.changes.len()),
        Err(_) => Err(Refusal::BadSizes),
    }
}

/// How many changes a log of so many rolling snapshots lists.
#[inline(never)]
pub fn rolling(alloc: Global, snapshots: u32) -> Result<usize, Refusal> {
    changes_in(alloc, &log_of(alloc, snapshots)?)
}

/// How many changes a log of so many one-page commits lists.
#[inline(never)]
pub fn capturing(alloc: Global, pages: u32) -> Result<usize, Refusal> {
    changes_in(alloc, &commits_of(alloc, pages, CAPACITY)?)
}

// The lowest mapping and the end of a Maplog.
fn mappings_in(alloc: Global, bodies: &[Vec<u8>]) -> Result<(u64, u64), Refusal> {
    match read_maplog(alloc, Version::One, PAGES, CAPACITY, bodies) {
        Ok(mappings) => Ok((mappings.low(), mappings.end())),
        Err(_) => Err(Refusal::BadSizes),
    }
}

/// The lowest mapping and the end of a Maplog of sixteen times so many mappings, and of so many low marks, which move
/// none.
#[inline(never)]
pub fn growing(alloc: Global, pairs: u32) -> Result<(u64, u64), Refusal> {
    let pairs = u64::from(pairs);
    mappings_in(alloc, &maplog_of(alloc, pairs * 16, pairs)?)
}

/// The lowest mapping and the end of a Maplog of a sixteenth of so many mappings, and of so many low marks, which
/// move those that are kept sixteen times.
#[inline(never)]
pub fn trimming(alloc: Global, pairs: u32) -> Result<(u64, u64), Refusal> {
    let pairs = u64::from(pairs);
    mappings_in(alloc, &maplog_of(alloc, pairs / 16, pairs)?)
}
