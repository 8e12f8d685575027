//! An opening, and the sizes that a log tells, with each call of a device failing in turn.

use crate::faults::{Failing, LOG, PAGES, SEQUENCE, with_failing};
use core_trial::devices::{Pair, devices, open};
use core_trial::{Answer, Ask, Row, run_on};
use disk_mem::Call;
use disk_model::{Disk, Sizes};
use history::Version;
use retro_base::Refusal;
use std::alloc::Global;
use std::test::Fail;
use store_core::sizes;

// The calls of an opening. The last two read what the two pages that were changed behind the first snapshot held then.
const OPENINGS: [Failing; 7] = [
    (LOG, Call::Sync, 1),
    (LOG, Call::Read, 1),
    (LOG, Call::Read, 2),
    (LOG, Call::Read, 3),
    (PAGES, Call::Sync, 1),
    (PAGES, Call::Read, 1),
    (PAGES, Call::Read, 2),
];

// Of an empty store it reads no page.
const OF_AN_EMPTY_STORE: usize = 5;

// How many rows of the sequence leave these two captures, of which none was copied, and two pages that were not
// written.
const CHANGES: usize = 9;

const STANDS: [Row; 1] = [(Ask::Owed, Answer::Pair(2, 2))];

// Devices of which that is left.
fn changed(alloc: Global) -> Result<Pair, Refusal> {
    let ran = run_on(alloc, devices(alloc, 16, 64)?, &SEQUENCE[..CHANGES])?;
    Ok((ran.log, ran.pages))
}

fn fault_of(call: Failing) -> Refusal {
    Refusal::DiskFault {
        device: call.0,
        count: 1,
    }
}

// Why these devices are not opened.
fn refused<D: Disk + Drop>(alloc: Global, devices: (D, D)) -> Option<Refusal> {
    open(alloc, devices.0, devices.1, &[]).err()
}

// The first of these calls whose fault does not refuse the opening.
fn first_opened(
    alloc: Global,
    devices: &Pair,
    calls: &[Failing],
) -> Result<Option<usize>, Refusal> {
    for (place, call) in calls.iter().enumerate() {
        if refused(alloc, with_failing(alloc, devices, *call)?) != Some(fault_of(*call)) {
            return Ok(Some(place));
        }
    }
    Ok(None)
}

// Whether each of its calls refuses the opening of an empty store, and of one that was changed, which opens where none
// fails.
fn are_refused(alloc: Global) -> Result<bool, Refusal> {
    let empty = devices(alloc, 16, 64)?;
    let opened = first_opened(alloc, &empty, &OPENINGS[..OF_AN_EMPTY_STORE])?;
    let changed = changed(alloc)?;
    let opened_then = first_opened(alloc, &changed, &OPENINGS)?;
    let ran = run_on(alloc, changed, &STANDS)?;
    Ok(opened.is_none() && opened_then.is_none() && ran.wrong.is_none())
}

#[test]
fn each_call_of_an_opening_fails(rt: HostRuntime) -> Result<(), Fail> {
    assert!(rt; are_refused(rt.alloc()) == Ok(true));
    Ok(())
}

fn told_sizes<D: Disk + Drop>(alloc: Global, mut log: D) -> Result<Sizes, Refusal> {
    sizes(alloc, Version::One, &mut log)
}

// Whether the sizes are told of a log none of whose calls fails, and refused where one does.
fn are_sizes_told(alloc: Global) -> Result<bool, Refusal> {
    let devices = devices(alloc, 16, 64)?;
    for call in &OPENINGS[..4] {
        let (log, _) = with_failing(alloc, &devices, *call)?;
        if told_sizes(alloc, log).err() != Some(fault_of(*call)) {
            return Ok(false);
        }
    }
    let told = told_sizes(alloc, devices.0)?;
    Ok(told.pages == 16 && told.capacity == 64)
}

#[test]
fn each_call_for_the_sizes_fails(rt: HostRuntime) -> Result<(), Fail> {
    assert!(rt; are_sizes_told(rt.alloc()) == Ok(true));
    Ok(())
}
