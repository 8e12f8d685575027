//! Stores one of whose devices stops behind each call in turn, and what a crash then leaves: opened again, it has all
//! that was acknowledged.

use crate::left::{Calls, calls_of};
use crate::plays::{Played, again, opens_to, play, small, told};
use crate::steps::{Answer, Step, Told};
use disk_mem::MemDisk;
use disk_model::Four;
use retro_base::{Device, Refusal};
use std::alloc::Global;
use std::sync::Wait;
use std::test::Fail;

// Three changes of a page, each behind it a snapshot, and rounds between.
const STEPS: [Step; 11] = [
    Step::Marked(7, 1, 1),
    Step::Marked(7, 1, 2),
    Step::Copy,
    Step::WriteBack,
    Step::Marked(7, 1, 3),
    Step::Past(1, 7),
    Step::Past(2, 7),
    Step::Copy,
    Step::Copy,
    Step::WriteBack,
    Step::WriteBack,
];

const TOLD: [Answer; 11] = [
    Ok(Told::Committed(Some(1))),
    Ok(Told::Committed(Some(2))),
    Ok(Told::Round(true)),
    Ok(Told::Round(true)),
    Ok(Told::Committed(Some(3))),
    Ok(Told::Past(0, Some(1))),
    Ok(Told::Past(1, Some(2))),
    Ok(Told::Round(true)),
    Ok(Told::Round(false)),
    Ok(Told::Round(true)),
    Ok(Told::Round(false)),
];

// An opening reads the log twice over and the mappings once, each in three reads behind a sync, and syncs the other two
// devices. A commit writes and syncs the log twice; the first reads its page, which is in memory from then on. A round
// of the copier writes and syncs the page images, and writes the mappings and syncs them twice; one of the flusher
// writes and syncs a page. Of the two reads of the past the first reads a page image; the capture of the other is
// pending.
const OF_ALL: [Calls; 4] = [[6, 6, 8], [1, 2, 3], [1, 2, 3], [3, 4, 5]];

// The calls of the devices of a store in all the steps, which answer so.
fn calls_in_all<R: Wait>(rt: &R, alloc: Global) -> Option<[Calls; 4]> {
    let made = small(alloc)?;
    let disks = again(alloc, &made, None)?;
    let closed = told(rt, alloc, disks, &(&STEPS, &TOLD))?;
    let Four {
        log,
        pages,
        pagelog,
        maplog,
    } = &closed.disks;
    Some([
        calls_of(log),
        calls_of(pages),
        calls_of(pagelog),
        calls_of(maplog),
    ])
}

#[test]
fn a_commit_syncs_the_log_twice_and_a_read_of_the_past_reads_once(
    rt: HostRuntime,
) -> Result<(), Fail> {
    assert!(rt; calls_in_all(&rt, rt.alloc()) == Some(OF_ALL));
    Ok(())
}

// What becomes of a store whose device stops: how many steps were answered, none where it was not opened; and the
// newest snapshot of what a crash leaves with each loose byte 0, 0xA5 or 0xFF.
type End = (Option<usize>, [u32; 3]);

// By the number of calls behind which it stops. The opening makes 8 of the log, and each commit 4: it writes a record
// and syncs, writes 0xA5 over the gate before it and syncs. Where that byte was not synced, the record counts with that
// fill.
const OF_LOG: [End; 21] = [
    (None, [0, 0, 0]),
    (None, [0, 0, 0]),
    (None, [0, 0, 0]),
    (None, [0, 0, 0]),
    (None, [0, 0, 0]),
    (None, [0, 0, 0]),
    (None, [0, 0, 0]),
    (None, [0, 0, 0]),
    (Some(0), [0, 0, 0]),
    (Some(0), [0, 0, 0]),
    (Some(0), [0, 0, 0]),
    (Some(0), [0, 1, 0]),
    (Some(1), [1, 1, 1]),
    (Some(1), [1, 1, 1]),
    (Some(1), [1, 1, 1]),
    (Some(1), [1, 2, 1]),
    (Some(4), [2, 2, 2]),
    (Some(4), [2, 2, 2]),
    (Some(4), [2, 2, 2]),
    (Some(4), [2, 3, 2]),
    (Some(11), [3, 3, 3]),
];

// The opening syncs, the first edit reads, and each of two rounds writes and syncs.
const OF_PAGES: [End; 7] = [
    (None, [0, 0, 0]),
    (Some(0), [0, 0, 0]),
    (Some(3), [2, 2, 2]),
    (Some(3), [2, 2, 2]),
    (Some(9), [3, 3, 3]),
    (Some(9), [3, 3, 3]),
    (Some(11), [3, 3, 3]),
];

// The opening syncs, each of two rounds writes and syncs, and between them a look at the first snapshot reads.
const OF_PAGELOG: [End; 7] = [
    (None, [0, 0, 0]),
    (Some(2), [2, 2, 2]),
    (Some(2), [2, 2, 2]),
    (Some(5), [3, 3, 3]),
    (Some(7), [3, 3, 3]),
    (Some(7), [3, 3, 3]),
    (Some(11), [3, 3, 3]),
];

// The opening makes 4 calls, and each of two rounds 4: it writes and syncs twice.
const OF_MAPLOG: [End; 13] = [
    (None, [0, 0, 0]),
    (None, [0, 0, 0]),
    (None, [0, 0, 0]),
    (None, [0, 0, 0]),
    (Some(2), [2, 2, 2]),
    (Some(2), [2, 2, 2]),
    (Some(2), [2, 2, 2]),
    (Some(2), [2, 2, 2]),
    (Some(7), [3, 3, 3]),
    (Some(7), [3, 3, 3]),
    (Some(7), [3, 3, 3]),
    (Some(7), [3, 3, 3]),
    (Some(11), [3, 3, 3]),
];

// What is asked of a store that is opened again.
const ASKED: [Step; 5] = [
    Step::Horizon,
    Step::Read(7),
    Step::Past(1, 7),
    Step::Past(2, 7),
    Step::Past(3, 7),
];

// What it answers with a newest snapshot, up to the first refusal.
const NONE_LEFT: [Answer; 3] = [
    Ok(Told::Horizon(1, 0)),
    Ok(Told::Page(Some(0))),
    Err(Refusal::NoSuchSnapshot {
        asked: 1,
        newest: 0,
    }),
];

const ONE_LEFT: [Answer; 4] = [
    Ok(Told::Horizon(1, 1)),
    Ok(Told::Page(Some(1))),
    Ok(Told::Past(0, Some(1))),
    Err(Refusal::NoSuchSnapshot {
        asked: 2,
        newest: 1,
    }),
];

const TWO_LEFT: [Answer; 5] = [
    Ok(Told::Horizon(1, 2)),
    Ok(Told::Page(Some(2))),
    Ok(Told::Past(0, Some(1))),
    Ok(Told::Past(1, Some(2))),
    Err(Refusal::NoSuchSnapshot {
        asked: 3,
        newest: 2,
    }),
];

const THREE_LEFT: [Answer; 5] = [
    Ok(Told::Horizon(1, 3)),
    Ok(Told::Page(Some(3))),
    Ok(Told::Past(0, Some(1))),
    Ok(Told::Past(1, Some(2))),
    Ok(Told::Past(2, Some(3))),
];

fn left_with(newest: u32) -> &'static [Answer] {
    match newest {
        0 => &NONE_LEFT,
        1 => &ONE_LEFT,
        2 => &TWO_LEFT,
        _ => &THREE_LEFT,
    }
}

// Whether what a crash leaves is a store with that newest snapshot, by the fill of loose bytes.
fn all_open_to<R: Wait>(rt: &R, alloc: Global, disks: &Four<MemDisk>, newest: [u32; 3]) -> bool {
    let [zero, gate, full] = newest;
    [(0, zero), (0xA5, gate), (0xFF, full)].iter().all(|(fill, newest)| opens_to(
        rt,
        alloc,
        disks,
        *fill,
        &(&ASKED, left_with(*newest)),
    ))
}

// Whether so many steps answered as they do without a stop, and the next, or else the opening, was refused for the
// first fault of the device.
fn stops_so<D>(played: &Played<D>, done: Option<usize>, device: Device) -> bool {
    let answers = played.answers.as_slice();
    let count = done.unwrap_or(0);
    let refused: Option<Answer> = if count < TOLD.len() {
        Some(Err(Refusal::DiskFault { device, count: 1 }))
    } else {
        None
    };
    played.is_opened == done.is_some()
        && answers.get(..count) == TOLD.get(..count)
        && answers.get(count).copied() == refused
}

fn ends_so<R: Wait>(
    rt: &R,
    alloc: Global,
    made: &Four<MemDisk>,
    device: Device,
    calls: u64,
    end: &End,
) -> bool {
    let (done, newest) = *end;
    let Some(disks) = again(alloc, made, Some((device, calls))) else {
        return false;
    };
    let played = play(rt, alloc, disks, &STEPS);
    stops_so(&played, done, device) && all_open_to(rt, alloc, &played.closed.disks, newest)
}

// The first number of calls behind which a device stops and the store does not end so.
fn first_other<R: Wait>(rt: &R, alloc: Global, device: Device, ends: &[End]) -> Option<u64> {
    let Some(made) = small(alloc) else {
        return Some(0);
    };
    let mut calls = 0_u64;
    for end in ends {
        if !ends_so(rt, alloc, &made, device, calls, end) {
            return Some(calls);
        }
        calls = calls.saturating_add(1);
    }
    None
}

#[test]
fn a_log_that_stops_loses_nothing_acknowledged(rt: HostRuntime) -> Result<(), Fail> {
    assert!(rt; first_other(&rt, rt.alloc(), Device::Log, &OF_LOG) == None);
    Ok(())
}

#[test]
fn pages_that_stop_lose_nothing_acknowledged(rt: HostRuntime) -> Result<(), Fail> {
    assert!(rt; first_other(&rt, rt.alloc(), Device::Pages, &OF_PAGES) == None);
    Ok(())
}

#[test]
fn a_pagelog_that_stops_loses_nothing_acknowledged(rt: HostRuntime) -> Result<(), Fail> {
    assert!(rt; first_other(&rt, rt.alloc(), Device::Pagelog, &OF_PAGELOG) == None);
    Ok(())
}

#[test]
fn a_maplog_that_stops_loses_nothing_acknowledged(rt: HostRuntime) -> Result<(), Fail> {
    assert!(rt; first_other(&rt, rt.alloc(), Device::Maplog, &OF_MAPLOG) == None);
    Ok(())
}
