//! A sequence of all calls, of which one call of a device fails.

use crate::support::{SMALL, batch_of, capture, devices_of_two, image};
use crate::trial::Trial;
use disk_mem::{Call, MemDisk};
use race_model::{Batch, Fault};
use retro_base::{Device, Refusal};
use std::alloc::Global;
use std::test::Fail;

// What a call answers.
#[derive(Clone, Copy, Debug, PartialEq, Eq)]
enum Answer {
    // The number that it tells, or the byte that it finds.
    Is(u64),
    // There is no mapping of the page.
    IsNone,
    // The device failed, for the first time: a write or a sync; or a read.
    Broke,
    Unread,
    // The archive had stopped at the device's first fault.
    Stopped,
    // A condition of the call does not hold.
    NotAsked,
    Other,
}

use Answer::{Broke, Is, IsNone, NotAsked, Stopped, Unread};

// A call of a device, numbered among those of its kind, fails in this sequence on an archive of captures 0 and 1: two
// captures more are laid (it tells below which number slots are), and entered (how many captures are) behind a low of
// 1; page 1 is found from 1 on, and page 3; mappings below 2 are forgotten (it tells the lowest); page 2 is found from
// 2 on. Then these mappings are kept.
type Row = (Device, Call, u64, [Answer; 6], &'static [(u64, u32)]);

const UNLAID: [Answer; 6] = [Broke, NotAsked, Is(2), IsNone, Stopped, IsNone];

const UNENTERED: [Answer; 6] = [Is(4), Broke, Is(2), IsNone, Stopped, IsNone];

const UNTRIMMED: [Answer; 6] = [Is(4), Is(4), Is(2), Is(4), Broke, Is(3)];

const FIRST_TWO: &[(u64, u32)] = &[(0, 0), (1, 1)];

const SECOND: &[(u64, u32)] = &[(1, 1)];

const LAST_THREE: &[(u64, u32)] = &[(1, 1), (2, 2), (3, 3)];

const LAST_TWO: &[(u64, u32)] = &[(2, 2), (3, 3)];

const ROWS: [Row; 20] = [
    // Two slots are written and synced, behind a sync of the opening; three pages are read.
    (Device::Pagelog, Call::Write, 1, UNLAID, FIRST_TWO),
    (Device::Pagelog, Call::Write, 2, UNLAID, FIRST_TWO),
    (Device::Pagelog, Call::Sync, 2, UNLAID, FIRST_TWO),
    (
        Device::Pagelog,
        Call::Read,
        1,
        [Is(4), Is(4), Unread, Is(4), Is(2), Is(3)],
        LAST_TWO,
    ),
    (
        Device::Pagelog,
        Call::Read,
        2,
        [Is(4), Is(4), Is(2), Unread, Is(2), Is(3)],
        LAST_TWO,
    ),
    (
        Device::Pagelog,
        Call::Read,
        3,
        [Is(4), Is(4), Is(2), Is(4), Is(2), Unread],
        LAST_TWO,
    ),
    (
        Device::Pagelog,
        Call::Read,
        4,
        [Is(4), Is(4), Is(2), Is(4), Is(2), Is(3)],
        LAST_TWO,
    ),
    // A low mark, a run and a low mark: of each a body and a sync, a gate and a sync.
    (Device::Maplog, Call::Write, 1, UNENTERED, FIRST_TWO),
    (Device::Maplog, Call::Sync, 2, UNENTERED, FIRST_TWO),
    (Device::Maplog, Call::Write, 2, UNENTERED, FIRST_TWO),
    (Device::Maplog, Call::Sync, 3, UNENTERED, FIRST_TWO),
    (Device::Maplog, Call::Write, 3, UNENTERED, SECOND),
    (Device::Maplog, Call::Sync, 4, UNENTERED, SECOND),
    (Device::Maplog, Call::Write, 4, UNENTERED, SECOND),
    (Device::Maplog, Call::Sync, 5, UNENTERED, SECOND),
    (Device::Maplog, Call::Write, 5, UNTRIMMED, LAST_THREE),
    (Device::Maplog, Call::Sync, 6, UNTRIMMED, LAST_THREE),
    (Device::Maplog, Call::Write, 6, UNTRIMMED, LAST_THREE),
    (Device::Maplog, Call::Sync, 7, UNTRIMMED, LAST_THREE),
    (
        Device::Maplog,
        Call::Write,
        7,
        [Is(4), Is(4), Is(2), Is(4), Is(2), Is(3)],
        LAST_TWO,
    ),
];

// What the refusal is, where that device fails once.
fn refused(device: Device, fault: Fault) -> Answer {
    let count = 1;
    let answers = [
        (Refusal::DiskFault { device, count }, true, Broke),
        (Refusal::DiskFault { device, count }, false, Unread),
        (Refusal::Stopped { device, count }, false, Stopped),
        (Refusal::BadSizes, false, NotAsked),
    ];
    for (why, wrote, answer) in answers {
        if fault == (Fault { why, wrote }) {
            return answer;
        }
    }
    Answer::Other
}

fn told(device: Device, answer: Result<u64, Fault>) -> Answer {
    match answer {
        Ok(number) => Is(number),
        Err(fault) => refused(device, fault),
    }
}

fn lays(trial: &mut Trial<MemDisk>, batch: &Batch) -> Result<u64, Fault> {
    trial.lay(batch)?;
    Ok(trial.laid())
}

fn trims(trial: &mut Trial<MemDisk>, low: u64) -> Result<u64, Fault> {
    trial.trim(low)?;
    Ok(trial.low())
}

// What a search finds from a number on, among the captures that are entered.
fn finding(
    alloc: Global,
    trial: &mut Trial<MemDisk>,
    device: Device,
    start: u64,
    page: u32,
) -> Answer {
    let upto = trial.held();
    match image(alloc, trial, start, page, upto) {
        Ok(Some(found)) => Is(u64::from(found.bytes()[0])),
        Ok(None) => IsNone,
        Err(fault) => refused(device, fault),
    }
}

// The archive of these devices, of which one fails so.
fn failing(
    alloc: Global,
    devices: &(MemDisk, MemDisk),
    device: Device,
    call: (Call, u64),
) -> Result<Trial<MemDisk>, Refusal> {
    let (mut pagelog, mut maplog) = (Vec::new(alloc), Vec::new(alloc));
    match device {
        Device::Pagelog => pagelog.push(call)?,
        _ => maplog.push(call)?,
    }
    let pagelog = devices.0.again(alloc, pagelog, None)?;
    let maplog = devices.1.again(alloc, maplog, None)?;
    Trial::open(alloc, pagelog, maplog, SMALL)
}

// The answers of the sequence.
fn answers(
    alloc: Global,
    trial: &mut Trial<MemDisk>,
    device: Device,
) -> Result<[Answer; 6], Refusal> {
    let batch = batch_of(alloc, 2, 1, &[capture(2), capture(3)])?;
    Ok([
        told(device, lays(trial, &batch)),
        told(device, trial.enter(&batch)),
        finding(alloc, trial, device, 1, 1),
        finding(alloc, trial, device, 1, 3),
        told(device, trims(trial, 2)),
        finding(alloc, trial, device, 2, 2),
    ])
}

fn goes_so(alloc: Global, devices: &(MemDisk, MemDisk), row: &Row) -> Result<bool, Refusal> {
    let mut trial = failing(alloc, devices, row.0, (row.1, row.2))?;
    let answers = answers(alloc, &mut trial, row.0)?;
    let mappings = trial.mappings()?;
    Ok((answers, mappings.as_slice()) == (row.3, row.4))
}

// The first row that is not as it happens.
fn first_wrong(alloc: Global) -> Result<Option<usize>, Refusal> {
    let devices = devices_of_two(alloc)?;
    for (i, row) in ROWS.iter().enumerate() {
        if !goes_so(alloc, &devices, row)? {
            return Ok(Some(i));
        }
    }
    Ok(None)
}

#[test]
fn each_call_of_a_device_fails_in_turn(rt: HostRuntime) -> Result<(), Fail> {
    assert!(rt; first_wrong(rt.alloc()) == Ok(None));
    Ok(())
}

// The calls of an opening: each device is synced, and the Maplog's two headers and its list are read.
const OPENING: [(Device, Call, u64); 5] = [
    (Device::Pagelog, Call::Sync, 1),
    (Device::Maplog, Call::Sync, 1),
    (Device::Maplog, Call::Read, 1),
    (Device::Maplog, Call::Read, 2),
    (Device::Maplog, Call::Read, 3),
];

// Whether the opening is refused with the device that fails.
fn is_refused(
    alloc: Global,
    devices: &(MemDisk, MemDisk),
    device: Device,
    call: (Call, u64),
) -> bool {
    match failing(alloc, devices, device, call) {
        Ok(_trial) => false,
        Err(why) => why == (Refusal::DiskFault { device, count: 1 }),
    }
}

#[test]
fn each_call_of_an_opening_fails_in_turn(rt: HostRuntime) -> Result<(), Fail> {
    let alloc = rt.alloc();
    let devices = devices_of_two(alloc)?;
    let refused = OPENING.map(|(device, call, number)| is_refused(
        alloc,
        &devices,
        device,
        (call, number),
    ));
    assert!(rt; refused == [true; 5]);
    Ok(())
}
