//! Scripts that run while each call of each device fails in turn, and while each device stops behind each of its calls:
//! what they acknowledged is found behind it.

use crate::devices::{
    Fault, NO_FAULT, Ran, all_again, calls_of, crashed, device_of, formatted, run_at, run_over,
};
use crate::trial::Outcome;
use disk_mem::{Call, MemDisk};
use disk_model::Four;
use retro_base::{Device, SESSIONS};
use session::NoGate;
use std::alloc::Global;
use std::sync::Wait;
use std::thread::Threads;

/// A script that runs while a device fails, and what is right of it.
pub trait Script {
    /// The script that makes what it begins with, if there is one.
    fn made_by(&self) -> Option<&'static [u8]>;

    fn text(&self) -> &'static [u8];

    /// The script that looks at what is there behind it.
    fn looks(&self) -> &'static [u8];

    /// Whether a run that met a fault, or none, ends as it should.
    fn is_told(&self, ran: &Ran, fault: Fault, is_met: bool) -> bool;

    /// Whether a look finds what a run told, or, where a commit may be in doubt, that and one commit more.
    fn has_found(&self, outcome: &Outcome, told: &[u8], is_in_doubt: bool) -> bool;
}

// What a run says of a device whose first fault ended the opening, and how a line of its journal ends that tells one.
fn told_of(device: Device) -> (&'static [u8], &'static [u8]) {
    match device {
        Device::Log => (b"retro: disk fault on log 1\n", b" fault log 1"),
        Device::Pages => (b"retro: disk fault on pages 1\n", b" fault pages 1"),
        Device::Pagelog => (b"retro: disk fault on pagelog 1\n", b" fault pagelog 1"),
        Device::Maplog => (b"retro: disk fault on maplog 1\n", b" fault maplog 1"),
        Device::Cabinet => (b"retro: disk fault on cabinet 1\n", b" fault cabinet 1"),
    }
}

/// How many lines of the text begin so.
pub fn lines_from(text: &[u8], front: &[u8]) -> usize {
    let mut count = 0_usize;
    for line in text.split(|byte| *byte == b'\n') {
        if line.starts_with(front) {
            count = count.saturating_add(1);
        }
    }
    count
}

/// How many commits with a snapshot a transcript tells as done.
pub fn acknowledged(text: &[u8]) -> usize {
    lines_from(text, b"committed as ")
}

/// Whether a line of the text ends so.
pub fn has_line_with(text: &[u8], end: &[u8]) -> bool {
    for line in text.split(|byte| *byte == b'\n') {
        if line.ends_with(end) {
            return true;
        }
    }
    false
}

/// Whether a run tells that the first fault of a device ended the opening of its store.
pub fn ends_opening(outcome: &Outcome, device: Device) -> bool {
    outcome.is(6, told_of(device).0)
}

fn has_fault_line(outcome: &Outcome, device: Device) -> bool {
    has_line_with(outcome.text.as_slice(), told_of(device).1)
}

/// Whether a run tells the first fault of a device.
pub fn tells_fault(outcome: &Outcome, device: Device) -> bool {
    ends_opening(outcome, device) || (outcome.status == 6 && has_fault_line(outcome, device))
}

// What becomes of the loose bytes: nothing, where the program alone is begun again, or what a crash makes of them.
const AS_LEFT_AND_FILLED: [Option<u8>; 2] = [None, Some(0xa5)];

/// What else a crash may make of them.
pub const OTHER_FILLS: [Option<u8>; 2] = [Some(0), Some(0xff)];

/// Calls of a device fail in turn, and each time a store is opened from each of the images that are left.
#[derive(Clone, Copy)]
pub struct Sweep {
    pub device: Device,
    /// The kinds of calls of which one fails; None where the device stops.
    pub kinds: &'static [Option<Call>],
    pub images: &'static [Option<u8>],
}

impl Sweep {
    /// A store is opened from what is left as it is, and with one fill.
    pub fn of(device: Device, kinds: &'static [Option<Call>]) -> Sweep {
        Sweep {
            device,
            kinds,
            images: &AS_LEFT_AND_FILLED,
        }
    }
}

// The devices that a run begins with behind it.
fn image(alloc: Global, four: &Four<MemDisk>, fill: Option<u8>) -> Option<Four<MemDisk>> {
    match fill {
        Some(fill) => crashed(alloc, four, fill).ok(),
        None => all_again(alloc, four, NO_FAULT).ok(),
    }
}

// The looks at an image of what a run left.
fn looked_on<R: Threads + Wait + Sync, P: Script>(
    rt: &R,
    alloc: Global,
    script: &P,
    ran: &Ran,
    fill: Option<u8>,
) -> Option<Ran> {
    let four = image(alloc, &ran.four, fill)?;
    run_over(rt, alloc, four, script.looks())
}

// Whether what a run acknowledged is found on each image of what it left.
fn is_found_behind<R: Threads + Wait + Sync, P: Script>(
    rt: &R,
    alloc: Global,
    script: &P,
    ran: &Ran,
    images: &[Option<u8>],
    is_in_doubt: bool,
) -> bool {
    let told = ran.outcome.text.as_slice();
    for fill in images {
        let Some(looked) = looked_on(rt, alloc, script, ran, *fill) else {
            return false;
        };
        if !script.has_found(&looked.outcome, told, is_in_doubt) {
            return false;
        }
    }
    true
}

// Whether the run made the call that was to fail.
fn has_met(ran: &Ran, fault: Fault) -> bool {
    match device_of(&ran.four, fault.device) {
        Some(disk) => fault.behind < calls_of(disk, fault.kind),
        None => false,
    }
}

// Whether a run met the fault; None where it or what it left is other than it should be. A commit is in doubt only
// where a call of the log failed behind the opening.
fn meets<R: Threads + Wait + Sync, P: Script>(
    rt: &R,
    alloc: Global,
    script: &P,
    made: &Four<MemDisk>,
    fault: Fault,
    images: &[Option<u8>],
) -> Option<bool> {
    let four = all_again(alloc, made, fault).ok()?;
    let ran = run_at(rt, alloc, SESSIONS, four, script.text(), &NoGate)?;
    let is_met = has_met(&ran, fault);
    let is_in_doubt = has_fault_line(&ran.outcome, Device::Log);
    if script.is_told(&ran, fault, is_met)
        && is_found_behind(rt, alloc, script, &ran, images, is_in_doubt)
    {
        Some(is_met)
    } else {
        None
    }
}

// More calls than a script of these tests makes of a device.
const MOST: u64 = 500;

// How many calls of a kind fail well in turn, until a run makes no more of them; None where one does not.
fn swept<R: Threads + Wait + Sync, P: Script>(
    rt: &R,
    alloc: Global,
    script: &P,
    made: &Four<MemDisk>,
    sweep: Sweep,
    kind: Option<Call>,
) -> Option<u64> {
    for behind in 0..MOST {
        let fault = Fault {
            device: sweep.device,
            kind,
            behind,
        };
        if !meets(rt, alloc, script, made, fault, sweep.images)? {
            return Some(behind);
        }
    }
    None
}

/// Each kind of call fails: a part of `ALL`, as the next is, since a test has sixty seconds.
pub const CALLS: [Option<Call>; 3] = [Some(Call::Read), Some(Call::Write), Some(Call::Sync)];

/// The device stops.
pub const STOPS: [Option<Call>; 1] = [None];

/// Each kind of call fails, and the device stops.
pub const ALL: [Option<Call>; 4] = [Some(Call::Read), Some(Call::Write), Some(Call::Sync), None];

// The store that the script begins with.
fn made<R: Threads + Wait + Sync, P: Script>(
    rt: &R,
    alloc: Global,
    script: &P,
) -> Option<Four<MemDisk>> {
    let new = formatted(rt, alloc, "16")?;
    match script.made_by() {
        Some(text) => Some(run_over(rt, alloc, new, text)?.four),
        None => Some(new),
    }
}

/// How many calls of each of the kinds failed well; None where one did not.
pub fn swept_whole<R: Threads + Wait + Sync, P: Script>(
    rt: &R,
    alloc: Global,
    script: &P,
    sweep: Sweep,
) -> Option<[u64; 4]> {
    let made = made(rt, alloc, script)?;
    let mut counts = [0; 4];
    for (count, kind) in counts.iter_mut().zip(sweep.kinds) {
        *count = swept(rt, alloc, script, &made, sweep, *kind)?;
    }
    Some(counts)
}

/// Whether at least so many of each failed well.
pub fn has_at_least(counts: Option<[u64; 4]>, least: &[u64]) -> bool {
    match counts {
        Some(counts) => counts
            .iter()
            .zip(least)
            .all(|(count, least)| *least <= *count),
        None => false,
    }
}
