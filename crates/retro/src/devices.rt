//! Devices of a store in memory that fail and stop as a test says, and what a crash leaves of them.

ghost use Rattle.std.specs.Prelude.{◌<◌};

use crate::trial::{Outcome, told, told_at};
use disk_mem::{Call, MemDisk};
use disk_model::{Cabinet, Four, Sizes};
use mem_cabinet::MemCabinet;
use retro_base::{Device, Refusal};
use session::{Gate, NoGate};
use std::alloc::Global;
use std::sync::Wait;
use std::thread::Threads;

/// Behind so many calls of a kind the next call of that kind of a device fails; with no kind, behind so many calls of
/// any kind each further one.
#[derive(Clone, Copy)]
pub struct Fault {
    pub device: Device,
    pub kind: Option<Call>,
    pub behind: u64,
}

/// No device fails.
pub const NO_FAULT: Fault = Fault {
    device: Device::Cabinet,
    kind: None,
    behind: 0,
};

/// A device of a store; None where that is its cabinet.
pub fn device_of(four: &Four<MemDisk>, device: Device) -> Option<&MemDisk> {
    match device {
        Device::Log => Some(&four.log),
        Device::Pages => Some(&four.pages),
        Device::Pagelog => Some(&four.pagelog),
        Device::Maplog => Some(&four.maplog),
        Device::Cabinet => None,
    }
}

/// How many calls of a kind a device had, or of any.
pub fn calls_of(disk: &MemDisk, kind: Option<Call>) -> u64 {
    match kind {
        Some(kind) => disk.calls(kind),
        None => {
            let all = disk
                .calls(Call::Read)
                .saturating_add(disk.calls(Call::Write));
            all.saturating_add(disk.calls(Call::Sync))
        }
    }
}

// The bytes of a device, on one that fails so.
fn faulty(alloc: Global, disk: &MemDisk, fault: Fault) -> Result<MemDisk, Refusal> {
    let Some(kind) = fault.kind else {
        return disk.again(alloc, Vec::new(alloc), Some(fault.behind));
    };
    let failing = vec![in alloc; (kind, fault.behind.saturating_add(1))]?;
    disk.again(alloc, failing, None)
}

// The bytes of a device, on one that fails so where it is that device.
fn again(alloc: Global, disk: &MemDisk, device: Device, fault: Fault) -> Result<MemDisk, Refusal> {
    if fault.device == device {
        faulty(alloc, disk, fault)
    } else {
        disk.again(alloc, Vec::new(alloc), None)
    }
}

/// The bytes of the devices of a store, on devices of which one fails so.
pub fn all_again(
    alloc: Global,
    four: &Four<MemDisk>,
    fault: Fault,
) -> Result<Four<MemDisk>, Refusal> {
    Ok(Four {
        log: again(alloc, &four.log, Device::Log, fault)?,
        pages: again(alloc, &four.pages, Device::Pages, fault)?,
        pagelog: again(alloc, &four.pagelog, Device::Pagelog, fault)?,
        maplog: again(alloc, &four.maplog, Device::Maplog, fault)?,
    })
}

/// What a crash leaves of them where each loose byte becomes `fill`.
pub fn crashed(alloc: Global, four: &Four<MemDisk>, fill: u8) -> Result<Four<MemDisk>, Refusal> {
    Ok(Four {
        log: four.log.crash(alloc, fill)?,
        pages: four.pages.crash(alloc, fill)?,
        pagelog: four.pagelog.crash(alloc, fill)?,
        maplog: four.maplog.crash(alloc, fill)?,
    })
}

// The store is in the place of one that is made for it.
const SMALLEST: Sizes = Sizes {
    pages: 16,
    capacity: 64,
};

// A cabinet with these devices under the name `d`.
fn cabinet_of(alloc: Global, four: Four<MemDisk>) -> Option<MemCabinet> {
    let mut cabinet = MemCabinet::new(alloc, Vec::new(alloc));
    let Ok(_) = cabinet.create("d", SMALLEST) else {
        return None;
    };
    cabinet.put_back("d", four);
    Some(cabinet)
}

fn taken_from(mut cabinet: MemCabinet) -> Option<Four<MemDisk>> {
    match cabinet.fetch("d") {
        Ok(four) => Some(four),
        Err(_) => None,
    }
}

/// The devices of a store of so many pages that the program made.
pub fn formatted<R: Threads + Wait + Sync>(
    rt: &R,
    alloc: Global,
    pages: &str,
) -> Option<Four<MemDisk>> {
    let mut cabinet = MemCabinet::new(alloc, Vec::new(alloc));
    let _made = told(rt, alloc, &mut cabinet, &["format", "d", pages, "64"], b"").ok()?;
    taken_from(cabinet)
}

/// A run over devices: what it ended with and wrote, and what it left of them.
#[derive(Drop)]
pub struct Ran {
    pub outcome: Outcome,
    pub four: Four<MemDisk>,
}

fn ran_in(outcome: Outcome, cabinet: MemCabinet) -> Option<Ran> {
    let four = taken_from(cabinet)?;
    Some(Ran { outcome, four })
}

/// Runs a script over devices in so many threads, with a gate.
pub fn run_at<R: Threads + Wait + Sync, G: Gate + Sync>(
    rt: &R,
    alloc: Global,
    threads: usize,
    four: Four<MemDisk>,
    script: &[u8],
    gate: &G,
) -> Option<Ran>
    requires { 0 < threads }
{
    let mut cabinet = cabinet_of(alloc, four)?;
    let outcome = told_at(
        rt,
        alloc,
        threads,
        &mut cabinet,
        &["run", "d"],
        script,
        gate,
    )
    .ok()?;
    ran_in(outcome, cabinet)
}

/// That, in one thread.
pub fn run_over<R: Threads + Wait + Sync>(
    rt: &R,
    alloc: Global,
    four: Four<MemDisk>,
    script: &[u8],
) -> Option<Ran> {
    run_at(rt, alloc, 1, four, script, &NoGate)
}

/// What the program shows of devices.
pub fn shown_of<R: Threads + Wait + Sync>(
    rt: &R,
    alloc: Global,
    four: Four<MemDisk>,
) -> Option<Outcome> {
    let mut cabinet = cabinet_of(alloc, four)?;
    told(rt, alloc, &mut cabinet, &["show", "d"], b"").ok()
}
