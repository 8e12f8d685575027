//! Stores whose log is cut, or whose Maplog is written anew, while that device stops behind each call in turn.

use crate::plays::{Played, Story, again, large, opens_to, play, small, told};
use crate::steps::{Answer, Step, Told};
use disk_mem::MemDisk;
use disk_model::Four;
use retro_base::{Device, Refusal};
use std::alloc::Global;
use std::sync::Wait;
use std::test::Fail;

// Behind how many steps one was refused, and the number of what is left then, with each loose byte 0, 0xA5 or 0xFF.
type End = (usize, [usize; 3]);

// What is done at a store, and answered without a stop; what is asked of one that is opened behind a crash, and what it
// answers, up to the first refusal; and how a stop of the device ends, behind so many calls and each number more.
#[derive(Drop)]
struct Sweep {
    story: Story,
    asked: &'static [Step],
    left: &'static [&'static [Answer]],
    device: Device,
    calls: u64,
    ends: &'static [End],
}

// Eight commits of 1,024 pages fill more than half of the log's region.
const FILLS: Story = (
    &[
        Step::Plain(2, 1024, 1),
        Step::Plain(2, 1024, 2),
        Step::Plain(2, 1024, 3),
        Step::Plain(2, 1024, 4),
        Step::Plain(2, 1024, 5),
        Step::Plain(2, 1024, 6),
        Step::Plain(2, 1024, 7),
        Step::Plain(2, 1024, 8),
    ],
    &[Ok(Told::Committed(None)); 8],
);

// The flusher writes the pages back and cuts the log: of its region that is free the log writes the new list and syncs,
// and then its gate. A commit makes 4 calls more.
const CUT: Sweep = Sweep {
    story: (
        &[Step::Flusher, Step::Marked(2, 1, 9)],
        &[Ok(Told::Ended), Ok(Told::Committed(Some(1)))],
    ),
    asked: &[Step::Horizon, Step::Read(2), Step::Past(1, 2)],
    left: &[
        &[
            Ok(Told::Horizon(1, 0)),
            Ok(Told::Page(Some(8))),
            Err(Refusal::NoSuchSnapshot {
                asked: 1,
                newest: 0,
            }),
        ],
        &[
            Ok(Told::Horizon(1, 1)),
            Ok(Told::Page(Some(9))),
            Ok(Told::Past(0, Some(9))),
        ],
    ],
    device: Device::Log,
    calls: 8,
    ends: &[
        (0, [0, 0, 0]),
        (0, [0, 0, 0]),
        (0, [0, 0, 0]),
        (0, [0, 0, 0]),
        (1, [0, 0, 0]),
        (1, [0, 0, 0]),
        (1, [0, 0, 0]),
        (1, [0, 1, 0]),
        (2, [1, 1, 1]),
    ],
};

// The 40th snapshot of 64 pages is declared, and the first 38 are dropped. The Maplog's region of 6,144 bytes has room
// for a run of 64 mappings 38 times, of 146 bytes each, with a mark of 14 before each but the first; so the 39th run is
// entered behind a new list. The copier's round makes 4 calls for the list and 4 for the run.
const REWRITE: Sweep = Sweep {
    story: (
        &[Step::Copy, Step::Past(39, 2)],
        &[Ok(Told::Round(true)), Ok(Told::Past(2432, Some(39)))],
    ),
    asked: &[
        Step::Horizon,
        Step::Read(2),
        Step::Past(39, 2),
        Step::Past(40, 2),
    ],
    left: &[&[
        Ok(Told::Horizon(39, 40)),
        Ok(Told::Page(Some(40))),
        Ok(Told::Past(2432, Some(39))),
        Ok(Told::Past(2496, Some(40))),
    ]],
    device: Device::Maplog,
    calls: 4,
    ends: &[
        (0, [0, 0, 0]),
        (0, [0, 0, 0]),
        (0, [0, 0, 0]),
        (0, [0, 0, 0]),
        (0, [0, 0, 0]),
        (0, [0, 0, 0]),
        (0, [0, 0, 0]),
        (0, [0, 0, 0]),
        (2, [0, 0, 0]),
    ],
};

// The steps by which snapshots of 64 pages are declared and copied, up to the 39th, each but the last dropped by then;
// and the 40th declared.
fn rounds(alloc: Global) -> Option<Vec<Step>> {
    let mut steps = Vec::new(alloc);
    for snapshot in 1..40_u8 {
        steps.push(Step::Marked(2, 64, snapshot)).ok()?;
        steps.push(Step::Copy).ok()?;
        steps.push(Step::Drop(u64::from(snapshot))).ok()?;
    }
    steps.push(Step::Marked(2, 64, 40)).ok()?;
    Some(steps)
}

// What a store leaves behind those steps.
fn behind_rounds<R: Wait>(rt: &R, alloc: Global) -> Option<Four<MemDisk>> {
    let steps = rounds(alloc)?;
    let Played {
        is_opened: _,
        answers,
        closed,
    } = play(rt, alloc, small(alloc)?, steps.as_slice());
    if answers.as_slice().last() == Some(&Ok(Told::Committed(Some(40)))) {
        return Some(closed.disks);
    }
    None
}

// And behind the commits that fill the log.
fn behind_commits<R: Wait>(rt: &R, alloc: Global) -> Option<Four<MemDisk>> {
    Some(told(rt, alloc, large(alloc)?, &FILLS)?.disks)
}

// Whether what a crash leaves with that fill answers as the one of that number does.
fn stands_so<R: Wait>(
    rt: &R,
    alloc: Global,
    disks: &Four<MemDisk>,
    sweep: &Sweep,
    fill: u8,
    left: usize,
) -> bool {
    match sweep.left.get(left) {
        Some(answers) => opens_to(rt, alloc, disks, fill, &(sweep.asked, answers)),
        None => false,
    }
}

fn ends_so<R: Wait>(
    rt: &R,
    alloc: Global,
    made: &Four<MemDisk>,
    sweep: &Sweep,
    calls: u64,
    end: &End,
) -> bool {
    let (done, [zero, gate, full]) = *end;
    let (steps, answers) = sweep.story;
    let Some(disks) = again(alloc, made, Some((sweep.device, calls))) else {
        return false;
    };
    let played = play(rt, alloc, disks, steps);
    let given = played.answers.as_slice();
    given.get(..done) == answers.get(..done)
        && (given.len() == done) == (done == answers.len())
        && stands_so(rt, alloc, &played.closed.disks, sweep, 0, zero)
        && stands_so(rt, alloc, &played.closed.disks, sweep, 0xA5, gate)
        && stands_so(rt, alloc, &played.closed.disks, sweep, 0xFF, full)
}

// The first number of calls behind which the device stops and the store does not end so.
fn first_other<R: Wait>(
    rt: &R,
    alloc: Global,
    made: Option<Four<MemDisk>>,
    sweep: &Sweep,
) -> Option<u64> {
    let Some(made) = made else {
        return Some(0);
    };
    let mut calls = sweep.calls;
    for end in sweep.ends {
        if !ends_so(rt, alloc, &made, sweep, calls, end) {
            return Some(calls);
        }
        calls = calls.saturating_add(1);
    }
    None
}

#[test]
fn a_log_that_stops_in_a_cut_loses_nothing_acknowledged(rt: HostRuntime) -> Result<(), Fail> {
    assert!(rt; first_other(&rt, rt.alloc(), behind_commits(&rt, rt.alloc()), &CUT) == None);
    Ok(())
}

#[test]
fn a_maplog_that_stops_in_a_rewrite_loses_nothing_acknowledged(
    rt: HostRuntime,
) -> Result<(), Fail> {
    assert!(rt; first_other(&rt, rt.alloc(), behind_rounds(&rt, rt.alloc()), &REWRITE) == None);
    Ok(())
}
