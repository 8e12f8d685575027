//! Devices that stop, and what images of them open to.

use crate::support::{
    SMALL, batch_of, capture, devices_of_two, empty, first_unread, first_unsent, send, send_one,
};
use crate::trial::Trial;
use disk_mem::MemDisk;
use retro_base::Refusal;
use std::alloc::Global;
use std::test::Fail;

// What is done on an archive whose devices stop.
#[derive(Clone, Copy)]
enum Act {
    // Captures 2 and 3 are sent, before which the first is forgotten.
    TwoMore,
    // Mappings below that number are forgotten.
    Trim(u64),
    // The capture of that number is sent, before which all but 63 are forgotten.
    OneMore(u64),
}

// The lowest mapping that is kept, and how many captures are entered.
type Kept = (u64, u64);

// So many calls of the Pagelog and of the Maplog succeed, and all later ones fail; whether the act is then done; and
// what is kept on images where the loose bytes become 0x00, 0xa5 and 0xff. An opening is a sync, and for the Maplog
// three reads.
type Row = (Option<u64>, Option<u64>, bool, [Kept; 3]);

const TWO_MORE: [Row; 13] = [
    // Two slots are written, and synced.
    (Some(1), None, false, [(0, 2); 3]),
    (Some(2), None, false, [(0, 2); 3]),
    (Some(3), None, false, [(0, 2); 3]),
    (Some(4), None, true, [(1, 4); 3]),
    // A low mark is appended, and then a run: a body and a sync, a gate and a sync.
    (None, Some(4), false, [(0, 2); 3]),
    (None, Some(5), false, [(0, 2); 3]),
    (None, Some(6), false, [(0, 2); 3]),
    (None, Some(7), false, [(0, 2), (1, 2), (0, 2)]),
    (None, Some(8), false, [(1, 2); 3]),
    (None, Some(9), false, [(1, 2); 3]),
    (None, Some(10), false, [(1, 2); 3]),
    (None, Some(11), false, [(1, 2), (1, 4), (1, 2)]),
    (None, Some(12), true, [(1, 4); 3]),
];

const TRIM: [Row; 5] = [
    // A low mark is appended.
    (None, Some(4), false, [(0, 2); 3]),
    (None, Some(5), false, [(0, 2); 3]),
    (None, Some(6), false, [(0, 2); 3]),
    (None, Some(7), false, [(0, 2), (1, 2), (0, 2)]),
    (None, Some(8), true, [(1, 2); 3]),
];

// Behind the list's 36 bytes stand 64 runs of one page of 20 bytes each, and for each later one a low mark of 14 and a
// run. A mark and a run need 35 bytes with the gate behind them, and the half has 6,144: so they fit behind 204
// captures, at place 6,076, and not behind 205, at place 6,110.
const UNTIL_FULL: u64 = 205;

const REWRITE: [Row; 9] = [
    // The other half is written behind its header's gate, and synced; the gate, and a sync.
    (None, Some(4), false, [(141, 205); 3]),
    (None, Some(5), false, [(141, 205); 3]),
    (None, Some(6), false, [(141, 205); 3]),
    (None, Some(7), false, [(141, 205), (142, 205), (141, 205)]),
    // A run is appended.
    (None, Some(8), false, [(142, 205); 3]),
    (None, Some(9), false, [(142, 205); 3]),
    (None, Some(10), false, [(142, 205); 3]),
    (None, Some(11), false, [(142, 205), (142, 206), (142, 205)]),
    (None, Some(12), true, [(142, 206); 3]),
];

// What is kept on an image of the devices, if each capture from `sure` on is read as it was laid.
fn kept_on(
    alloc: Global,
    devices: &(MemDisk, MemDisk),
    fill: u8,
    sure: u64,
) -> Result<Option<Kept>, Refusal> {
    let pagelog = devices.0.crash(alloc, fill)?;
    let maplog = devices.1.crash(alloc, fill)?;
    let mut trial = Trial::open(alloc, pagelog, maplog, SMALL)?;
    let (low, held) = (trial.low(), trial.held());
    match first_unread(alloc, &mut trial, sure, held) {
        Ok(None) => Ok(Some((low, held))),
        _ => Ok(None),
    }
}

// The archive of devices with these bytes that stop so.
fn stopping(
    alloc: Global,
    devices: &(MemDisk, MemDisk),
    row: &Row,
) -> Result<Trial<MemDisk>, Refusal> {
    let pagelog = devices.0.again(alloc, Vec::new(alloc), row.0)?;
    let maplog = devices.1.again(alloc, Vec::new(alloc), row.1)?;
    Trial::open(alloc, pagelog, maplog, SMALL)
}

// Whether it is done.
fn is_done(alloc: Global, trial: &mut Trial<MemDisk>, act: Act) -> Result<bool, Refusal> {
    Ok(match act {
        Act::TwoMore => {
            let batch = batch_of(alloc, 2, 1, &[capture(2), capture(3)])?;
            send(trial, &batch).is_ok()
        }
        Act::Trim(low) => trial.trim(low).is_ok(),
        Act::OneMore(number) => send_one(alloc, trial, number, 63).is_ok(),
    })
}

// Whether it happens as the row says, with each capture from `sure` on read in the images.
fn goes_so(
    alloc: Global,
    devices: &(MemDisk, MemDisk),
    act: Act,
    sure: u64,
    row: &Row,
) -> Result<bool, Refusal> {
    let mut trial = stopping(alloc, devices, row)?;
    if is_done(alloc, &mut trial, act)? != row.2 {
        return Ok(false);
    }
    let left = trial.into_disks();
    let kept = [
        kept_on(alloc, &left, 0x00, sure)?,
        kept_on(alloc, &left, 0xa5, sure)?,
        kept_on(alloc, &left, 0xff, sure)?,
    ];
    Ok(kept == row.3.map(Some))
}

// The first row that is not as it happens.
fn first_wrong(
    alloc: Global,
    devices: &(MemDisk, MemDisk),
    act: Act,
    sure: u64,
    rows: &[Row],
) -> Result<Option<usize>, Refusal> {
    for (i, row) in rows.iter().enumerate() {
        if !goes_so(alloc, devices, act, sure, row)? {
            return Ok(Some(i));
        }
    }
    Ok(None)
}

#[test]
fn each_image_of_a_stopped_archive_opens(rt: HostRuntime) -> Result<(), Fail> {
    let alloc = rt.alloc();
    let devices = devices_of_two(alloc)?;
    let wrong = first_wrong(alloc, &devices, Act::TwoMore, 1, &TWO_MORE)?;
    assert!(rt; wrong == None);
    Ok(())
}

#[test]
fn each_image_of_a_stopped_trim_opens(rt: HostRuntime) -> Result<(), Fail> {
    let alloc = rt.alloc();
    let devices = devices_of_two(alloc)?;
    let wrong = first_wrong(alloc, &devices, Act::Trim(1), 1, &TRIM)?;
    assert!(rt; wrong == None);
    Ok(())
}

// The devices of an archive of so many captures.
fn devices_of(alloc: Global, captures: u64) -> Result<(MemDisk, MemDisk), Refusal> {
    let mut trial = empty(alloc)?;
    match first_unsent(alloc, &mut trial, captures) {
        Ok(None) => Ok(trial.into_disks()),
        _ => Err(Refusal::BadSizes),
    }
}

#[test]
fn each_image_of_a_stopped_rewrite_opens(rt: HostRuntime) -> Result<(), Fail> {
    let alloc = rt.alloc();
    let devices = devices_of(alloc, UNTIL_FULL)?;
    let wrong = first_wrong(alloc, &devices, Act::OneMore(UNTIL_FULL), 142, &REWRITE)?;
    assert!(rt; wrong == None);
    Ok(())
}
