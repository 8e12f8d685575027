//! Captures, a stop and reopening: answers worked out by hand.

use crate::plays::{Story, again, all_told, crashed, small, told};
use crate::steps::{Answer, Step, Told};
use retro_base::{Device, Refusal};
use std::alloc::Global;
use std::sync::Wait;
use std::test::Fail;

// Two snapshots that nothing changed before.
const UNCHANGED: [Step; 7] = [
    Step::Horizon,
    Step::Marked(0, 0, 0),
    Step::Horizon,
    Step::Marked(0, 0, 0),
    Step::Horizon,
    Step::Past(1, 7),
    Step::Past(2, 7),
];

const UNCHANGED_TOLD: [Answer; 7] = [
    Ok(Told::Horizon(1, 0)),
    Ok(Told::Committed(Some(1))),
    Ok(Told::Horizon(1, 1)),
    Ok(Told::Committed(Some(2))),
    Ok(Told::Horizon(1, 2)),
    Ok(Told::Past(0, Some(0))),
    Ok(Told::Past(0, Some(0))),
];

// Three snapshots, each behind a change: before it is copied a page may not be written back.
const THREE: [Step; 20] = [
    Step::Marked(7, 1, 1),
    Step::Marked(7, 1, 2),
    Step::Marked(7, 1, 3),
    Step::Plain(7, 1, 4),
    Step::Past(1, 7),
    Step::Past(2, 7),
    Step::Past(3, 7),
    Step::WriteBack,
    Step::Copy,
    Step::Copy,
    Step::Past(1, 7),
    Step::Past(2, 7),
    Step::Past(3, 7),
    Step::WriteBack,
    Step::WriteBack,
    Step::Past(1, 7),
    Step::Past(2, 7),
    Step::Past(3, 7),
    Step::Read(7),
    Step::Past(4, 7),
];

const THREE_TOLD: [Answer; 20] = [
    Ok(Told::Committed(Some(1))),
    Ok(Told::Committed(Some(2))),
    Ok(Told::Committed(Some(3))),
    Ok(Told::Committed(None)),
    Ok(Told::Past(0, Some(1))),
    Ok(Told::Past(1, Some(2))),
    Ok(Told::Past(2, Some(3))),
    Ok(Told::Round(false)),
    Ok(Told::Round(true)),
    Ok(Told::Round(false)),
    Ok(Told::Past(0, Some(1))),
    Ok(Told::Past(1, Some(2))),
    Ok(Told::Past(2, Some(3))),
    Ok(Told::Round(true)),
    Ok(Told::Round(false)),
    Ok(Told::Past(0, Some(1))),
    Ok(Told::Past(1, Some(2))),
    Ok(Told::Past(2, Some(3))),
    Ok(Told::Page(Some(4))),
    Err(Refusal::NoSuchSnapshot {
        asked: 4,
        newest: 3,
    }),
];

// The store goes on where it was.
const AGAIN: [Step; 8] = [
    Step::Horizon,
    Step::Past(1, 7),
    Step::Past(2, 7),
    Step::Past(3, 7),
    Step::Read(7),
    Step::Plain(7, 1, 9),
    Step::Read(7),
    Step::Past(3, 7),
];

const AGAIN_TOLD: [Answer; 8] = [
    Ok(Told::Horizon(1, 3)),
    Ok(Told::Past(0, Some(1))),
    Ok(Told::Past(1, Some(2))),
    Ok(Told::Past(2, Some(3))),
    Ok(Told::Page(Some(4))),
    Ok(Told::Committed(None)),
    Ok(Told::Page(Some(9))),
    Ok(Told::Past(2, Some(3))),
];

// The pages' device stops between the write and the sync of a round: of its calls the opening syncs, the first edit
// reads, and the round writes.
const STOPPED: [Step; 6] = [
    Step::Marked(7, 1, 1),
    Step::Marked(7, 1, 2),
    Step::Marked(7, 1, 3),
    Step::Plain(7, 1, 4),
    Step::Copy,
    Step::WriteBack,
];

const STOPPED_TOLD: [Answer; 6] = [
    Ok(Told::Committed(Some(1))),
    Ok(Told::Committed(Some(2))),
    Ok(Told::Committed(Some(3))),
    Ok(Told::Committed(None)),
    Ok(Told::Round(true)),
    Err(Refusal::DiskFault {
        device: Device::Pages,
        count: 1,
    }),
];

// Snapshots below one are dropped: they are asked for in vain then.
const DROPPED: [Step; 8] = [
    Step::Marked(7, 1, 1),
    Step::Marked(7, 1, 2),
    Step::Marked(7, 1, 3),
    Step::Drop(3),
    Step::Horizon,
    Step::Past(3, 7),
    Step::Drop(3),
    Step::Past(2, 7),
];

const DROPPED_TOLD: [Answer; 8] = [
    Ok(Told::Committed(Some(1))),
    Ok(Told::Committed(Some(2))),
    Ok(Told::Committed(Some(3))),
    Ok(Told::Dropped),
    Ok(Told::Horizon(3, 3)),
    Ok(Told::Past(2, Some(3))),
    Ok(Told::Dropped),
    Err(Refusal::Dropped {
        asked: 2,
        oldest: 3,
    }),
];

// An archive of 64 images has no room for a 65th, until the snapshot is dropped whose images they are.
const FILLED: [Step; 3] = [
    Step::Marked(0, 0, 0),
    Step::Plain(2, 64, 1),
    Step::Plain(66, 1, 1),
];

const FILLED_TOLD: [Answer; 3] = [
    Ok(Told::Committed(Some(1))),
    Ok(Told::Committed(None)),
    Err(Refusal::ArchiveFull {
        needed: 65,
        room: 64,
    }),
];

const EMPTIED: [Step; 5] = [
    Step::Marked(0, 0, 0),
    Step::Drop(2),
    Step::Plain(66, 1, 1),
    Step::Past(2, 66),
    Step::Past(1, 2),
];

const EMPTIED_TOLD: [Answer; 5] = [
    Ok(Told::Committed(Some(2))),
    Ok(Told::Dropped),
    Ok(Told::Committed(None)),
    Ok(Told::Past(64, Some(0))),
    Err(Refusal::Dropped {
        asked: 1,
        oldest: 2,
    }),
];

// The number of the first row that goes otherwise, on a store that was empty, which is opened again for each story.
fn first_other<R: Wait>(rt: &R, alloc: Global) -> Option<usize> {
    let rows: [&[Story]; 4] = [
        &[(&UNCHANGED, &UNCHANGED_TOLD)],
        &[(&THREE, &THREE_TOLD), (&AGAIN, &AGAIN_TOLD)],
        &[(&DROPPED, &DROPPED_TOLD)],
        &[(&FILLED, &FILLED_TOLD), (&EMPTIED, &EMPTIED_TOLD)],
    ];
    rows.iter().position(|stories| match small(alloc) {
        Some(disks) => !all_told(rt, alloc, disks, stories),
        None => true,
    })
}

#[test]
fn what_is_captured_is_read_before_and_behind_rounds_and_reopening(
    rt: HostRuntime,
) -> Result<(), Fail> {
    assert!(rt; first_other(&rt, rt.alloc()) == None);
    Ok(())
}

// Whether the page is then 255, and the store goes on behind a write back that was stopped.
fn goes_on<R: Wait>(rt: &R, alloc: Global) -> Option<(bool, bool)> {
    let made = small(alloc)?;
    let disks = again(alloc, &made, Some((Device::Pages, 3)))?;
    let closed = told(rt, alloc, disks, &(&STOPPED, &STOPPED_TOLD))?;
    let left = crashed(alloc, &closed.disks, 255)?;
    let torn = left.pages.bytes().get(7 * 1024) == Some(&255);
    Some((torn, all_told(rt, alloc, left, &[(&AGAIN, &AGAIN_TOLD)])))
}

#[test]
fn a_page_that_a_crash_tore_is_read_from_the_log(rt: HostRuntime) -> Result<(), Fail> {
    assert!(rt; goes_on(&rt, rt.alloc()) == Some((true, true)));
    Ok(())
}
