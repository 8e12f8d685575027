//! Stores that are closed behind a last copying.

ghost use Rattle.std.specs.Prelude.{◌≡◌};
ghost use Rattle.store_tests.specs.Steps.{MayCall, Rests};
ghost use Rattle.turn.specs.Seats.{IsSame};
ghost use Rattle.turn.specs.Tables.{table_of};

use crate::left::{Left, left_of};
use crate::plays::{Stop, again, all_open_to, opens_to, small};
use crate::steps::{Answer, Step, Told, acts};
use disk_mem::MemDisk;
use disk_model::{Disk, Four};
use history::Version;
use retro_base::{Device, Refusal};
use std::alloc::Global;
use std::sync::Wait;
use std::test::Fail;
use store::{Closed, Seat, Store};

// Sixteen seats of sessions, and behind them the copier's.
const SEATS: u32 = 17;

// The phase of the last copying.
const PHASE: u16 = 3;

// Does what a session does, until a step is refused, and counts the steps that were not.
fn act_all<R: Wait, D: Disk + Drop>(
    rt: &R,
    alloc: Global,
    store: &Store<D>,
    seat: &mut Seat<D>,
    steps: &[Step],
) -> usize
    requires rests { Rests (table_of store.now.turn) seat.old }
    ensures ready { MayCall (table_of store.now.turn) seat.new }
    ensures same { IsSame seat.old seat.new }
{
    let mut done = 0_usize;
    let mut item = 0_u32;
    'steps: for step in steps {
        if acts(rt, alloc, store, seat, item, step).is_err() {
            return done;
        }
        done = done.saturating_add(1);
        item = item.saturating_add(1);
    }
    done
}

// What a store leaves behind what a session did and a last copying.
#[derive(Drop)]
struct LastCopied<D> {
    /// How many steps of the session were answered.
    done: usize,
    closed: Closed<D>,
    /// Whether all is copied.
    all: bool,
}

// None where the store is not opened.
fn copied<R: Wait, D: Disk + Drop>(
    rt: &R,
    alloc: Global,
    disks: Four<D>,
    steps: &[Step],
) -> Option<LastCopied<D>> {
    let Ok((store, mut seats)) = Store::fetch(alloc, Version::One, disks, SEATS) else {
        return None;
    };
    let Some(copying) = seats.pop() else {
        unreachable!()
    };
    let Some(mut session) = seats.pop() else {
        unreachable!()
    };
    let done = act_all(rt, alloc, &store, &mut session, steps);
    seats.push_reserved(session);
    seats.push_reserved(copying);
    let (closed, all) = store.close_copied(rt, seats, PHASE);
    Some(LastCopied { done, closed, all })
}

// Page 7 is all 1 as of a snapshot, and then 2.
const CAPTURES: [Step; 2] = [Step::Marked(7, 1, 1), Step::Plain(7, 1, 2)];

// It is changed with no snapshot before, so nothing is captured.
const CHANGES: [Step; 2] = [Step::Plain(7, 1, 1), Step::Plain(7, 1, 2)];

// The log stops behind the 8 calls of the opening and 4 of each commit: the third is refused, and the capture of the
// second stays pending.
const THRICE: [Step; 3] = [
    Step::Marked(7, 1, 1),
    Step::Plain(7, 1, 2),
    Step::Plain(7, 1, 3),
];

const ASKED: [Step; 4] = [Step::Copy, Step::Read(7), Step::Past(1, 7), Step::Horizon];

// What is answered with the capture pending or not, up to the first refusal.
const PENDING: [Answer; 4] = [
    Ok(Told::Round(true)),
    Ok(Told::Page(Some(2))),
    Ok(Told::Past(0, Some(1))),
    Ok(Told::Horizon(1, 1)),
];

const DONE: [Answer; 4] = [
    Ok(Told::Round(false)),
    Ok(Told::Page(Some(2))),
    Ok(Told::Past(0, Some(1))),
    Ok(Told::Horizon(1, 1)),
];

const UNCAPTURED: [Answer; 3] = [
    Ok(Told::Round(false)),
    Ok(Told::Page(Some(2))),
    Err(Refusal::NoSuchSnapshot {
        asked: 1,
        newest: 0,
    }),
];

// What a session does, and which device stops; whether all is copied at last, and what is left; and what the store
// answers that is opened behind a crash.
#[derive(Drop)]
struct Case {
    steps: &'static [Step],
    stop: Option<Stop>,
    copied: bool,
    left: Left,
    answers: &'static [Answer],
}

// A batch writes and syncs the page images, and writes the mappings and syncs them twice.
const COPIED: Case = Case {
    steps: &CAPTURES,
    stop: None,
    copied: true,
    left: Left {
        lines: 4,
        tells_fault: false,
        captures: 1,
        page: Some(0),
        slot: Some(1),
        calls: 6,
    },
    answers: &DONE,
};

// Behind the 4 calls of the opening the first write of the mappings fails.
const FAILED: Case = Case {
    steps: &CAPTURES,
    stop: Some((Device::Maplog, 4)),
    copied: false,
    left: Left {
        lines: 5,
        tells_fault: true,
        captures: 1,
        page: Some(0),
        slot: Some(1),
        calls: 3,
    },
    answers: &PENDING,
};

const NOTHING: Case = Case {
    steps: &CHANGES,
    stop: None,
    copied: true,
    left: Left {
        lines: 4,
        tells_fault: false,
        captures: 0,
        page: Some(0),
        slot: Some(0),
        calls: 0,
    },
    answers: &UNCAPTURED,
};

// The refused commit has two lines too, of which the last tells the fault of the log.
const STOPPED: Case = Case {
    steps: &THRICE,
    stop: Some((Device::Log, 16)),
    copied: false,
    left: Left {
        lines: 6,
        tells_fault: false,
        captures: 1,
        page: Some(0),
        slot: Some(0),
        calls: 0,
    },
    answers: &PENDING,
};

// Whether a case goes so.
fn goes_so<R: Wait>(rt: &R, alloc: Global, made: &Four<MemDisk>, case: &Case) -> bool {
    let Some(disks) = again(alloc, made, case.stop) else {
        return false;
    };
    let Some(
        LastCopied {
            done: _,
            closed,
            all,
        },
    ) = copied(rt, alloc, disks, case.steps)
    else {
        return false;
    };
    all == case.copied
        && left_of(&closed, PHASE) == case.left
        && all_open_to(rt, alloc, &closed.disks, &(&ASKED, case.answers))
}

fn first_other<R: Wait>(rt: &R, alloc: Global) -> Option<usize> {
    let Some(made) = small(alloc) else {
        return Some(0);
    };
    let cases = [COPIED, FAILED, NOTHING, STOPPED];
    cases
        .iter()
        .position(|case| !goes_so(rt, alloc, &made, case))
}

#[test]
fn what_is_pending_is_copied_at_last_unless_the_store_stops(rt: HostRuntime) -> Result<(), Fail> {
    assert!(rt; first_other(&rt, rt.alloc()) == None);
    Ok(())
}

// Two snapshots behind a change of page 7 each, of which the first is dropped, and one more change.
const DROPS: [Step; 4] = [
    Step::Marked(7, 1, 1),
    Step::Marked(7, 1, 2),
    Step::Drop(2),
    Step::Plain(7, 1, 3),
];

const LEFT: [Step; 4] = [
    Step::Horizon,
    Step::Read(7),
    Step::Past(2, 7),
    Step::Past(1, 7),
];

// What a store answers that is opened behind so many of these steps, up to the first refusal.
const LEFT_BEHIND: [&[Answer]; 5] = [
    &[
        Ok(Told::Horizon(1, 0)),
        Ok(Told::Page(Some(0))),
        Err(Refusal::NoSuchSnapshot {
            asked: 2,
            newest: 0,
        }),
    ],
    &[
        Ok(Told::Horizon(1, 1)),
        Ok(Told::Page(Some(1))),
        Err(Refusal::NoSuchSnapshot {
            asked: 2,
            newest: 1,
        }),
    ],
    &[
        Ok(Told::Horizon(1, 2)),
        Ok(Told::Page(Some(2))),
        Ok(Told::Past(1, Some(2))),
        Ok(Told::Past(0, Some(1))),
    ],
    &[
        Ok(Told::Horizon(2, 2)),
        Ok(Told::Page(Some(2))),
        Ok(Told::Past(1, Some(2))),
        Err(Refusal::Dropped {
            asked: 1,
            oldest: 2,
        }),
    ],
    &[
        Ok(Told::Horizon(2, 2)),
        Ok(Told::Page(Some(3))),
        Ok(Told::Past(1, Some(2))),
        Err(Refusal::Dropped {
            asked: 1,
            oldest: 2,
        }),
    ],
];

// What becomes of a store one of whose devices stops: how many steps were answered, and whether all is copied; and
// behind how many steps stands what a crash leaves with each loose byte 0, 0xA5 or 0xFF.
type End = (usize, bool, [usize; 3]);

// By the number of calls, from the 8 of the opening on, behind which it stops. Each step makes 4 of the log: it writes
// a record and syncs, writes 0xA5 over the gate before it and syncs. The second captures the page.
const OF_LOG: [End; 17] = [
    (0, true, [0, 0, 0]),
    (0, true, [0, 0, 0]),
    (0, true, [0, 0, 0]),
    (0, true, [0, 1, 0]),
    (1, true, [1, 1, 1]),
    (1, true, [1, 1, 1]),
    (1, true, [1, 1, 1]),
    (1, true, [1, 2, 1]),
    (2, false, [2, 2, 2]),
    (2, false, [2, 2, 2]),
    (2, false, [2, 2, 2]),
    (2, false, [2, 3, 2]),
    (3, false, [3, 3, 3]),
    (3, false, [3, 3, 3]),
    (3, false, [3, 3, 3]),
    (3, false, [3, 4, 3]),
    (4, true, [4, 4, 4]),
];

// Behind the sync of the opening the first edit reads.
const OF_PAGES: [End; 2] = [(0, true, [0, 0, 0]), (4, true, [4, 4, 4])];

// Behind the sync of the opening the last copying writes two images and syncs.
const OF_PAGELOG: [End; 4] = [
    (4, false, [4, 4, 4]),
    (4, false, [4, 4, 4]),
    (4, false, [4, 4, 4]),
    (4, true, [4, 4, 4]),
];

// Behind the 4 calls of the opening it writes and syncs twice.
const OF_MAPLOG: [End; 5] = [
    (4, false, [4, 4, 4]),
    (4, false, [4, 4, 4]),
    (4, false, [4, 4, 4]),
    (4, false, [4, 4, 4]),
    (4, true, [4, 4, 4]),
];

// Whether what a crash leaves with that fill stands behind so many steps.
fn stands_behind<R: Wait>(
    rt: &R,
    alloc: Global,
    disks: &Four<MemDisk>,
    fill: u8,
    steps: usize,
) -> bool {
    match LEFT_BEHIND.get(steps) {
        Some(answers) => opens_to(rt, alloc, disks, fill, &(&LEFT, answers)),
        None => false,
    }
}

fn ends_so<R: Wait>(rt: &R, alloc: Global, made: &Four<MemDisk>, stop: Stop, end: &End) -> bool {
    let (steps, copies, [zero, gate, full]) = *end;
    let Some(disks) = again(alloc, made, Some(stop)) else {
        return false;
    };
    let Some(LastCopied { done, closed, all }) = copied(rt, alloc, disks, &DROPS) else {
        return false;
    };
    (done, all) == (steps, copies)
        && stands_behind(rt, alloc, &closed.disks, 0, zero)
        && stands_behind(rt, alloc, &closed.disks, 0xA5, gate)
        && stands_behind(rt, alloc, &closed.disks, 0xFF, full)
}

// The first stop, from so many calls on, with which a store does not end so.
fn other_end<R: Wait>(
    rt: &R,
    alloc: Global,
    made: &Four<MemDisk>,
    device: Device,
    opening: u64,
    ends: &[End],
) -> Option<u64> {
    let mut calls = opening;
    for end in ends {
        if !ends_so(rt, alloc, made, (device, calls), end) {
            return Some(calls);
        }
        calls = calls.saturating_add(1);
    }
    None
}

// The first of these devices of which a stop ends a store otherwise, and behind how many calls, from those of the
// opening on.
fn first_end<R: Wait>(
    rt: &R,
    alloc: Global,
    sweeps: &[(Device, u64, &[End])],
) -> Option<(usize, u64)> {
    let Some(made) = small(alloc) else {
        return Some((0, 0));
    };
    sweeps.iter().enumerate().find_map(|(place, (device, opening, ends))| {
        other_end(rt, alloc, &made, *device, *opening, ends).map(|calls| (place, calls))
    })
}

#[test]
fn a_log_that_stops_in_a_drop_loses_nothing_acknowledged(rt: HostRuntime) -> Result<(), Fail> {
    let sweeps: [(Device, u64, &[End]); 1] = [(Device::Log, 8, &OF_LOG)];
    assert!(rt; first_end(&rt, rt.alloc(), &sweeps) == None);
    Ok(())
}

#[test]
fn a_device_that_stops_in_the_last_copying_loses_nothing_acknowledged(
    rt: HostRuntime,
) -> Result<(), Fail> {
    let sweeps: [(Device, u64, &[End]); 3] = [
        (Device::Pages, 1, &OF_PAGES),
        (Device::Pagelog, 1, &OF_PAGELOG),
        (Device::Maplog, 4, &OF_MAPLOG),
    ];
    assert!(rt; first_end(&rt, rt.alloc(), &sweeps) == None);
    Ok(())
}
