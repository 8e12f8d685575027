//! The device calls of a write of a log, each failing in turn, and what a crash then leaves.

use crate::support::{
    again, again_failing, append, are_these, crash, crash_half, make, open, replace,
};
use disk_mem::{Call, MemDisk};
use retro_base::{Device, Refusal};
use std::alloc::Global;

// The first fault of a log's device.
pub const FAULT: Result<(), Refusal> = Err(Refusal::DiskFault {
    device: Device::Log,
    count: 1,
});

/// A write of a log, which is opened first but where it is made.
#[derive(Clone, Copy, PartialEq, Eq)]
pub enum Act {
    Make,
    Append,
    Replace,
}

/// A write of the last of the new bodies. There are no old ones where the log is made.
#[derive(Clone, Copy)]
pub struct Trial<'a> {
    pub act: Act,
    pub old: Option<&'a [&'a [u8]]>,
    pub new: &'a [&'a [u8]],
}

// What goes wrong, by the device calls of the write itself: all calls after so many, or the call of that kind
// with that number, which loses its range.
#[derive(Clone, Copy)]
enum Fault {
    Stop(u64),
    Fails(Call, u64),
}

// What the log on an image is.
#[derive(Clone, Copy, PartialEq, Eq)]
enum Found {
    Old,
    New,
    Neither,
}

use Found::{New, Old};

// A fault, and what is found then where the loose bytes become 0x00, 0xa5 and 0xff, and where every second is
// as it was written.
type Row = (Fault, [Found; 4]);

// The body and the closed gate behind it are written and synced, and then the gate before it.
const FOUR_CALLS: [Row; 9] = [
    (Fault::Stop(0), [Old, Old, Old, Old]),
    (Fault::Stop(1), [Old, Old, Old, Old]),
    (Fault::Stop(2), [Old, Old, Old, Old]),
    (Fault::Stop(3), [Old, New, Old, New]),
    (Fault::Stop(4), [New, New, New, New]),
    (Fault::Fails(Call::Write, 1), [Old, Old, Old, Old]),
    (Fault::Fails(Call::Sync, 1), [Old, Old, Old, Old]),
    (Fault::Fails(Call::Write, 2), [Old, New, Old, Old]),
    (Fault::Fails(Call::Sync, 2), [Old, New, Old, New]),
];

// The same behind a gate that was open, and is closed first.
const SIX_CALLS: [Row; 13] = [
    (Fault::Stop(0), [Old, Old, Old, Old]),
    (Fault::Stop(1), [Old, Old, Old, Old]),
    (Fault::Stop(2), [Old, Old, Old, Old]),
    (Fault::Stop(3), [Old, Old, Old, Old]),
    (Fault::Stop(4), [Old, Old, Old, Old]),
    (Fault::Stop(5), [Old, New, Old, New]),
    (Fault::Stop(6), [New, New, New, New]),
    (Fault::Fails(Call::Write, 1), [Old, Old, Old, Old]),
    (Fault::Fails(Call::Sync, 1), [Old, Old, Old, Old]),
    (Fault::Fails(Call::Write, 2), [Old, Old, Old, Old]),
    (Fault::Fails(Call::Sync, 2), [Old, Old, Old, Old]),
    (Fault::Fails(Call::Write, 3), [Old, New, Old, Old]),
    (Fault::Fails(Call::Sync, 3), [Old, New, Old, New]),
];

/// The first row of the table of four calls that is not as it happens.
pub fn wrong_in_four(
    alloc: Global,
    disk: &MemDisk,
    trial: &Trial,
) -> Result<Option<usize>, Refusal> {
    first_wrong(alloc, disk, trial, &FOUR_CALLS)
}

/// The first row of the table of six calls that is not as it happens.
pub fn wrong_in_six(
    alloc: Global,
    disk: &MemDisk,
    trial: &Trial,
) -> Result<Option<usize>, Refusal> {
    first_wrong(alloc, disk, trial, &SIX_CALLS)
}

// The first row that is not as it happens. A write succeeds exactly where each image is the new one.
fn first_wrong(
    alloc: Global,
    disk: &MemDisk,
    trial: &Trial,
    rows: &[Row],
) -> Result<Option<usize>, Refusal> {
    for (i, (fault, want)) in rows.iter().enumerate() {
        let done = if *want == [New; 4] { Ok(()) } else { FAULT };
        if happens(alloc, disk, trial, *fault)? != (done, *want) {
            return Ok(Some(i));
        }
    }
    Ok(None)
}

// What the write gives beside that fault, and what crashes then leave.
fn happens(
    alloc: Global,
    disk: &MemDisk,
    trial: &Trial,
    fault: Fault,
) -> Result<(Result<(), Refusal>, [Found; 4]), Refusal> {
    let mut faulty = again_with(alloc, disk, trial.act, fault)?;
    let done = write(alloc, &mut faulty, trial);
    let left = [
        list_on(alloc, crash(alloc, &faulty, 0x00)?, trial),
        list_on(alloc, crash(alloc, &faulty, 0xa5)?, trial),
        list_on(alloc, crash(alloc, &faulty, 0xff)?, trial),
        list_on(alloc, crash_half(alloc, &faulty)?, trial),
    ];
    Ok((done, left))
}

// The fault behind an opening, which is a sync and three reads.
fn behind_opening(fault: Fault) -> Fault {
    match fault {
        Fault::Stop(after) => Fault::Stop(after.saturating_add(4)),
        Fault::Fails(Call::Sync, number) => Fault::Fails(Call::Sync, number.saturating_add(1)),
        Fault::Fails(call, number) => Fault::Fails(call, number),
    }
}

// The same bytes on a device with that fault of the write.
fn again_with(alloc: Global, disk: &MemDisk, act: Act, fault: Fault) -> Result<MemDisk, Refusal> {
    let fault = if act == Act::Make {
        fault
    } else {
        behind_opening(fault)
    };
    match fault {
        Fault::Stop(calls) => again(alloc, disk, Some(calls)),
        Fault::Fails(call, number) => again_failing(alloc, disk, call, number),
    }
}

fn write(alloc: Global, disk: &mut MemDisk, trial: &Trial) -> Result<(), Refusal> {
    let body = *trial.new.last().ok_or(Refusal::BadSizes)?;
    match trial.act {
        Act::Make => make(alloc, disk, body),
        Act::Append => append(alloc, disk, body),
        Act::Replace => replace(alloc, disk, body),
    }
}

fn list_on(alloc: Global, mut disk: MemDisk, trial: &Trial) -> Found {
    let opened = open(alloc, &mut disk);
    if lists(&opened, Some(trial.new)) {
        Found::New
    } else if lists(&opened, trial.old) {
        Found::Old
    } else {
        Found::Neither
    }
}

// Whether an opening gave these bodies, or refused a device of which neither half counts.
fn lists(opened: &Result<Vec<Vec<u8>>, Refusal>, want: Option<&[&[u8]]>) -> bool {
    let (device, place) = (Device::Log, 0);
    match (opened, want) {
        (Ok(bodies), Some(want)) => are_these(bodies, want),
        (Err(refusal), None) => *refusal == Refusal::NotAStore { device, place },
        _ => false,
    }
}
