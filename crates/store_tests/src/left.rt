//! What a store leaves behind the steps of a story: its lines, and what its devices have.

use crate::plays::{Stop, Story, again, small, told};
use crate::steps::{Answer, Step, Told};
use disk_mem::{Call, MemDisk};
use disk_model::Four;
use history::{FailedCall, Journal, What};
use retro_base::{Device, Refusal, Who};
use std::alloc::Global;
use std::sync::Wait;
use std::test::Fail;
use store::Closed;

// The number of the copier's seat, behind those of sixteen sessions.
const COPIER: u16 = 16;

/// How many lines there are, and whether the last tells the copier's fault; how many captures; the first bytes of page
/// 7 and of slot 0; and how often the two devices of the vault were called behind the opening.
#[derive(Drop, PartialEq)]
pub struct Left {
    pub lines: usize,
    pub tells_fault: bool,
    pub captures: u64,
    pub page: Option<u8>,
    pub slot: Option<u8>,
    pub calls: u64,
}

// Whether the last line tells the first fault of the Maplog, under the copier's item of that phase.
fn tells_fault(journal: &Journal, phase: u16) -> bool {
    let Some(line) = journal.as_slice().last() else {
        return false;
    };
    let who = Who {
        phase,
        session: COPIER,
        item: 0,
    };
    line.who == who
        && matches!(
            &line.what,
            What::Fault {
                device: Device::Maplog,
                count: 1,
                call: FailedCall::Write,
            }
        )
}

/// Reads, writes and syncs of a device.
pub type Calls = [u64; 3];

/// How often a device was called.
pub fn calls_of(disk: &MemDisk) -> Calls {
    [
        disk.calls(Call::Read),
        disk.calls(Call::Write),
        disk.calls(Call::Sync),
    ]
}

fn sum_of(disk: &MemDisk) -> u64 {
    let [reads, writes, syncs] = calls_of(disk);
    reads.saturating_add(writes).saturating_add(syncs)
}

// An opening syncs the page images, and reads the mappings three times and syncs them.
const OF_OPENING: u64 = 5;

/// What is left of devices that were not called before the opening, by a copier of that phase.
pub fn left_of(closed: &Closed<MemDisk>, phase: u16) -> Left {
    let disks = &closed.disks;
    Left {
        lines: closed.journal.as_slice().len(),
        tells_fault: tells_fault(&closed.journal, phase),
        captures: closed.captures,
        page: disks.pages.bytes().get(7 * 1024).copied(),
        slot: disks.pagelog.bytes().first().copied(),
        calls: sum_of(&disks.pagelog)
            .saturating_add(sum_of(&disks.maplog))
            .saturating_sub(OF_OPENING),
    }
}

// Of five changes behind a snapshot the first alone captures the page, as it was with the snapshot.
const ONCE: [Step; 10] = [
    Step::Marked(7, 1, 9),
    Step::Plain(7, 1, 1),
    Step::Plain(7, 1, 2),
    Step::Plain(7, 1, 3),
    Step::Plain(7, 1, 4),
    Step::Plain(7, 1, 5),
    Step::Past(1, 7),
    Step::Copy,
    Step::Copy,
    Step::Past(1, 7),
];

const ONCE_TOLD: [Answer; 10] = [
    Ok(Told::Committed(Some(1))),
    Ok(Told::Committed(None)),
    Ok(Told::Committed(None)),
    Ok(Told::Committed(None)),
    Ok(Told::Committed(None)),
    Ok(Told::Committed(None)),
    Ok(Told::Past(0, Some(9))),
    Ok(Told::Round(true)),
    Ok(Told::Round(false)),
    Ok(Told::Past(0, Some(9))),
];

// Six commits and two looks have two lines each. The one round writes and syncs the page images, and writes the
// mappings and syncs them twice; of the two reads of the past the one behind it reads a slot.
const ONCE_LEFT: Left = Left {
    lines: 16,
    tells_fault: false,
    captures: 1,
    page: Some(0),
    slot: Some(9),
    calls: 7,
};

// A page that waits for its capture to be copied is not written back.
const WAITS: [Step; 3] = [Step::Marked(7, 1, 1), Step::Plain(7, 1, 2), Step::Flusher];

const WAITS_TOLD: [Answer; 3] = [
    Ok(Told::Committed(Some(1))),
    Ok(Told::Committed(None)),
    Ok(Told::Ended),
];

const WAITS_LEFT: Left = Left {
    lines: 4,
    tells_fault: false,
    captures: 1,
    page: Some(0),
    slot: Some(0),
    calls: 0,
};

const WORKS: [Step; 4] = [
    Step::Marked(7, 1, 1),
    Step::Plain(7, 1, 2),
    Step::Copier,
    Step::Flusher,
];

const WORKS_TOLD: [Answer; 4] = [
    Ok(Told::Committed(Some(1))),
    Ok(Told::Committed(None)),
    Ok(Told::Ended),
    Ok(Told::Ended),
];

const WORKS_LEFT: Left = Left {
    lines: 4,
    tells_fault: false,
    captures: 1,
    page: Some(2),
    slot: Some(1),
    calls: 6,
};

// Behind the calls of the opening the first write of the mappings fails, whose line the copier leaves: the page images
// were written and synced then.
const FAILS: Stop = (Device::Maplog, 4);

const FAILS_TOLD: [Answer; 3] = [
    Ok(Told::Committed(Some(1))),
    Ok(Told::Committed(None)),
    Err(Refusal::DiskFault {
        device: Device::Maplog,
        count: 1,
    }),
];

const FAILS_LEFT: Left = Left {
    lines: 5,
    tells_fault: true,
    captures: 1,
    page: Some(0),
    slot: Some(1),
    calls: 3,
};

// What a store leaves that was empty, where a story goes so and a device may stop.
fn left_by<R: Wait>(
    rt: &R,
    alloc: Global,
    made: &Four<MemDisk>,
    stop: Option<Stop>,
    story: &Story,
) -> Option<Left> {
    let disks = again(alloc, made, stop)?;
    let closed = told(rt, alloc, disks, story)?;
    Some(left_of(&closed, 1))
}

// The number of the first story that leaves something else.
fn first_other<R: Wait>(rt: &R, alloc: Global) -> Option<usize> {
    let Some(made) = small(alloc) else {
        return Some(0);
    };
    let stories: [(Option<Stop>, Story, Left); 4] = [
        (None, (&ONCE, &ONCE_TOLD), ONCE_LEFT),
        (None, (&WAITS, &WAITS_TOLD), WAITS_LEFT),
        (None, (&WORKS, &WORKS_TOLD), WORKS_LEFT),
        (Some(FAILS), (&WORKS, &FAILS_TOLD), FAILS_LEFT),
    ];
    stories.iter().position(|(stop, story, left)| {
        left_by(rt, alloc, &made, *stop, story).as_ref() != Some(left)
    })
}

#[test]
fn what_is_captured_is_copied_once_and_only_then_written_back(rt: HostRuntime) -> Result<(), Fail> {
    assert!(rt; first_other(&rt, rt.alloc()) == None);
    Ok(())
}
