//! One sequence of every call, with each call of each device failing in turn.

use crate::lines::{Said, first_fault};
use core_trial::devices::{A, B, FLUSHER, Pair, devices};
use core_trial::failing::failing;
use core_trial::{Answer, Ask, Ran, Row, run_on};
use disk_mem::{Call, MemDisk};
use disk_model::Disk;
use retro_base::{Device, Refusal, Who};
use std::alloc::Global;
use std::test::Fail;
use txn_set::Ending;

const DONE: Answer = Answer::Done;

const YES: Answer = Answer::Is(true);

const NO: Answer = Answer::Is(false);

// A condition of the call does not hold.
const NOT_ASKED: Answer = Answer::No(Refusal::BadSizes);

const ASKED: Ending = Ending::Asked;

pub const SEQUENCE: [Row; 32] = [
    (Ask::Sizes, Answer::Pair(16, 64)),
    // A header of 16 bytes, and a base of 39 in 44, are before the gate.
    (Ask::Free, Answer::Number(16_777_216 - 60)),
    (Ask::Begin(A), DONE),
    (Ask::Mark(A, b"one"), Answer::Declared(Some(1))),
    (Ask::Begin(A), DONE),
    (Ask::Read(A, 7), Answer::Page(Some(0))),
    (Ask::Edit(A, 7, 1), DONE),
    (Ask::Edit(A, 8, 1), DONE),
    (Ask::Mark(A, b""), Answer::Declared(Some(2))),
    (Ask::Look(B, 1), Answer::Number(0)),
    (Ask::Peek(B, 9, 1), Answer::Told(Some(0), 0)),
    (Ask::Unlook(B, ASKED), DONE),
    (
        Ask::LookAll(B),
        Answer::Snapshots(Some([(1, 3, 0), (2, 0, 2)])),
    ),
    (Ask::Unlook(B, ASKED), DONE),
    (Ask::DropBelow(B, 2), DONE),
    (Ask::Batch, Answer::Batch(0, 0, 2)),
    (Ask::Ack(2), DONE),
    (Ask::Begin(A), DONE),
    (Ask::WriteBack(A), YES),
    (Ask::WriteBack(A), YES),
    (Ask::Settle(A), DONE),
    (Ask::CutLog(A), YES),
    (Ask::Rollback(A, ASKED), DONE),
    (Ask::Horizon, Answer::Pair(2, 2)),
    (Ask::Owed, Answer::Pair(0, 0)),
    (Ask::Begin(A), DONE),
    (Ask::Mark(A, b""), Answer::Declared(Some(3))),
    (Ask::DropBelow(B, 3), DONE),
    (Ask::CutLog(FLUSHER), YES),
    // A commit without a mark, of a page in memory.
    (Ask::Set(A, 7, 2), Answer::Declared(None)),
    (Ask::Note(B, Device::Maplog, 1, true), DONE),
    (Ask::Stopped, YES),
];

pub const LOG: Device = Device::Log;

pub const PAGES: Device = Device::Pages;

const LOG_FAULT: Answer = Answer::No(Refusal::DiskFault {
    device: LOG,
    count: 1,
});

const PAGES_FAULT: Answer = Answer::No(Refusal::DiskFault {
    device: PAGES,
    count: 1,
});

const LOG_STOPPED: Answer = Answer::No(Refusal::Stopped {
    device: LOG,
    count: 1,
});

const PAGES_STOPPED: Answer = Answer::No(Refusal::Stopped {
    device: PAGES,
    count: 1,
});

const NOT_DECLARED_1: Answer = Answer::No(Refusal::NoSuchSnapshot {
    asked: 1,
    newest: 0,
});

const NOT_DECLARED_2: Answer = Answer::No(Refusal::NoSuchSnapshot {
    asked: 2,
    newest: 1,
});

const NOT_DECLARED_3: Answer = Answer::No(Refusal::NoSuchSnapshot {
    asked: 3,
    newest: 2,
});

const FIRST_ALONE: Answer = Answer::Snapshots(Some([(1, 3, 0), (1, 3, 0)]));

// A place in the sequence, and what is answered there in place of what stands there.
type Other = (usize, Answer);

// The first commit fails, and closes its transaction. The desk has stopped: the second commit is refused, and its
// transaction stays open; there is no snapshot and no capture.
const FIRST_COMMIT_FAILS: [Other; 19] = [
    (3, LOG_FAULT),
    (8, LOG_STOPPED),
    (9, NOT_DECLARED_1),
    (10, NOT_ASKED),
    (11, NOT_ASKED),
    (12, Answer::Snapshots(None)),
    (14, LOG_STOPPED),
    (15, NO),
    (16, NOT_ASKED),
    (17, NOT_ASKED),
    (18, LOG_STOPPED),
    (19, LOG_STOPPED),
    (20, LOG_STOPPED),
    (21, LOG_STOPPED),
    (23, Answer::Pair(1, 0)),
    (26, LOG_STOPPED),
    (27, LOG_STOPPED),
    (28, LOG_STOPPED),
    (29, NOT_ASKED),
];

// The second commit fails, and makes no captures.
const SECOND_COMMIT_FAILS: [Other; 14] = [
    (8, LOG_FAULT),
    (12, FIRST_ALONE),
    (14, LOG_STOPPED),
    (15, NO),
    (16, NOT_ASKED),
    (18, LOG_STOPPED),
    (19, LOG_STOPPED),
    (20, LOG_STOPPED),
    (21, LOG_STOPPED),
    (23, Answer::Pair(1, 1)),
    (26, LOG_STOPPED),
    (27, LOG_STOPPED),
    (28, LOG_STOPPED),
    (29, NOT_ASKED),
];

// The drop fails; the captures go on to the archive.
const DROP_FAILS: [Other; 11] = [
    (14, LOG_FAULT),
    (18, LOG_STOPPED),
    (19, LOG_STOPPED),
    (20, LOG_STOPPED),
    (21, LOG_STOPPED),
    (23, Answer::Pair(1, 2)),
    (24, Answer::Pair(0, 2)),
    (26, LOG_STOPPED),
    (27, LOG_STOPPED),
    (28, LOG_STOPPED),
    (29, NOT_ASKED),
];

// The cut fails, and closes the transaction.
const CUT_FAILS: [Other; 6] = [
    (21, LOG_FAULT),
    (22, NOT_ASKED),
    (26, LOG_STOPPED),
    (27, LOG_STOPPED),
    (28, LOG_STOPPED),
    (29, NOT_ASKED),
];

// The read fails: the transaction keeps it, and stays open. Nothing is stopped; there is no second snapshot, and
// nothing to copy or to write back.
const READ_FAILS: [Other; 14] = [
    (5, PAGES_FAULT),
    (6, PAGES_FAULT),
    (7, PAGES_FAULT),
    (8, PAGES_FAULT),
    (12, FIRST_ALONE),
    (14, NOT_DECLARED_2),
    (15, NO),
    (16, NOT_ASKED),
    (17, NOT_ASKED),
    (18, NO),
    (19, NO),
    (23, Answer::Pair(1, 1)),
    (26, Answer::Declared(Some(2))),
    (27, NOT_DECLARED_3),
];

// So it is where the edit of page 8 fails.
const EDIT_FAILS: [Other; 12] = [
    (7, PAGES_FAULT),
    (8, PAGES_FAULT),
    (12, FIRST_ALONE),
    (14, NOT_DECLARED_2),
    (15, NO),
    (16, NOT_ASKED),
    (17, NOT_ASKED),
    (18, NO),
    (19, NO),
    (23, Answer::Pair(1, 1)),
    (26, Answer::Declared(Some(2))),
    (27, NOT_DECLARED_3),
];

const PEEK_FAILS: [Other; 1] = [(10, PAGES_FAULT)];

// A page is not written back, which closes the transaction.
const FIRST_WRITE_FAILS: [Other; 10] = [
    (18, PAGES_FAULT),
    (19, PAGES_STOPPED),
    (20, PAGES_STOPPED),
    (21, PAGES_STOPPED),
    (22, NOT_ASKED),
    (24, Answer::Pair(0, 2)),
    (26, PAGES_STOPPED),
    (27, PAGES_STOPPED),
    (28, PAGES_STOPPED),
    (29, NOT_ASKED),
];

const SECOND_WRITE_FAILS: [Other; 9] = [
    (19, PAGES_FAULT),
    (20, PAGES_STOPPED),
    (21, PAGES_STOPPED),
    (22, NOT_ASKED),
    (24, Answer::Pair(0, 1)),
    (26, PAGES_STOPPED),
    (27, PAGES_STOPPED),
    (28, PAGES_STOPPED),
    (29, NOT_ASKED),
];

const SYNC_FAILS: [Other; 7] = [
    (20, PAGES_FAULT),
    (21, PAGES_STOPPED),
    (22, NOT_ASKED),
    (26, PAGES_STOPPED),
    (27, PAGES_STOPPED),
    (28, PAGES_STOPPED),
    (29, NOT_ASKED),
];

// What is behind the first cut: a commit that marks, and closes its transaction; a drop; and a cut for a worker.
const THIRD_COMMIT_FAILS: [Other; 4] = [
    (26, LOG_FAULT),
    (27, LOG_STOPPED),
    (28, LOG_STOPPED),
    (29, LOG_STOPPED),
];

const SECOND_DROP_FAILS: [Other; 3] = [(27, LOG_FAULT), (28, LOG_STOPPED), (29, LOG_STOPPED)];

const SECOND_CUT_FAILS: [Other; 2] = [(28, LOG_FAULT), (29, LOG_STOPPED)];

// The commit without a mark, which closes its transaction.
const PLAIN_COMMIT_FAILS: [Other; 1] = [(29, LOG_FAULT)];

// What fails of the sequence.
#[derive(Clone, Copy)]
enum Fails {
    FirstCommit,
    SecondCommit,
    Drop,
    Cut,
    Read,
    Edit,
    Peek,
    FirstWrite,
    SecondWrite,
    Sync,
    ThirdCommit,
    SecondDrop,
    SecondCut,
    PlainCommit,
}

// The first line that then tells a fault, with whose it is.
fn line(fails: Fails) -> (Who, Said) {
    match fails {
        Fails::FirstCommit | Fails::SecondCommit | Fails::ThirdCommit | Fails::PlainCommit => {
            (A, Said::InDoubt(LOG, 1))
        }
        Fails::Drop | Fails::SecondDrop => (B, Said::InDoubt(LOG, 1)),
        Fails::SecondCut => (FLUSHER, Said::Fault(LOG, 1, true)),
        Fails::Cut => (A, Said::Fault(LOG, 1, true)),
        Fails::Read | Fails::Edit => (A, Said::Fault(PAGES, 1, false)),
        Fails::Peek => (B, Said::Fault(Device::Maplog, 1, true)),
        Fails::FirstWrite | Fails::SecondWrite | Fails::Sync => (A, Said::Fault(PAGES, 1, true)),
    }
}

// A call of a device, by its kind and its number among those of its kind.
pub type Failing = (Device, Call, u64);

// An opening is a sync and three reads of the log, and a sync of the pages. A commit, with a mark or without, is a
// write, a sync, a write and a sync of the log; so is a drop, and the first cut. The second closes the other half
// before, by a write and a sync.
const CASES: [(Failing, Fails); 40] = [
    ((LOG, Call::Write, 1), Fails::FirstCommit),
    ((LOG, Call::Sync, 2), Fails::FirstCommit),
    ((LOG, Call::Write, 2), Fails::FirstCommit),
    ((LOG, Call::Sync, 3), Fails::FirstCommit),
    ((LOG, Call::Write, 3), Fails::SecondCommit),
    ((LOG, Call::Sync, 4), Fails::SecondCommit),
    ((LOG, Call::Write, 4), Fails::SecondCommit),
    ((LOG, Call::Sync, 5), Fails::SecondCommit),
    ((LOG, Call::Write, 5), Fails::Drop),
    ((LOG, Call::Sync, 6), Fails::Drop),
    ((LOG, Call::Write, 6), Fails::Drop),
    ((LOG, Call::Sync, 7), Fails::Drop),
    ((LOG, Call::Write, 7), Fails::Cut),
    ((LOG, Call::Sync, 8), Fails::Cut),
    ((LOG, Call::Write, 8), Fails::Cut),
    ((LOG, Call::Sync, 9), Fails::Cut),
    ((LOG, Call::Write, 9), Fails::ThirdCommit),
    ((LOG, Call::Sync, 10), Fails::ThirdCommit),
    ((LOG, Call::Write, 10), Fails::ThirdCommit),
    ((LOG, Call::Sync, 11), Fails::ThirdCommit),
    ((LOG, Call::Write, 11), Fails::SecondDrop),
    ((LOG, Call::Sync, 12), Fails::SecondDrop),
    ((LOG, Call::Write, 12), Fails::SecondDrop),
    ((LOG, Call::Sync, 13), Fails::SecondDrop),
    ((LOG, Call::Write, 13), Fails::SecondCut),
    ((LOG, Call::Sync, 14), Fails::SecondCut),
    ((LOG, Call::Write, 14), Fails::SecondCut),
    ((LOG, Call::Sync, 15), Fails::SecondCut),
    ((LOG, Call::Write, 15), Fails::SecondCut),
    ((LOG, Call::Sync, 16), Fails::SecondCut),
    ((LOG, Call::Write, 16), Fails::PlainCommit),
    ((LOG, Call::Sync, 17), Fails::PlainCommit),
    ((LOG, Call::Write, 17), Fails::PlainCommit),
    ((LOG, Call::Sync, 18), Fails::PlainCommit),
    ((PAGES, Call::Read, 1), Fails::Read),
    ((PAGES, Call::Read, 2), Fails::Edit),
    ((PAGES, Call::Read, 3), Fails::Peek),
    ((PAGES, Call::Write, 1), Fails::FirstWrite),
    ((PAGES, Call::Write, 2), Fails::SecondWrite),
    ((PAGES, Call::Sync, 2), Fails::Sync),
];

// What is answered at a place, where that is the answer but for others.
fn wanted(others: &[Other], place: usize, answer: Answer) -> Answer {
    for (other, instead) in others {
        if *other == place {
            return *instead;
        }
    }
    answer
}

// The rows with these answers in the place of others.
fn with_others(alloc: Global, rows: &[Row], others: &[Other]) -> Result<Vec<Row>, Refusal> {
    let mut answered = Vec::new(alloc);
    for (place, (ask, answer)) in rows.iter().enumerate() {
        answered.push((*ask, wanted(others, place, *answer)))?;
    }
    Ok(answered)
}

// The rows, with what is answered where that fails.
fn failing_so(alloc: Global, rows: &[Row], fails: Fails) -> Result<Vec<Row>, Refusal> {
    match fails {
        Fails::FirstCommit => with_others(alloc, rows, &FIRST_COMMIT_FAILS),
        Fails::SecondCommit => with_others(alloc, rows, &SECOND_COMMIT_FAILS),
        Fails::Drop => with_others(alloc, rows, &DROP_FAILS),
        Fails::Cut => with_others(alloc, rows, &CUT_FAILS),
        Fails::Read => with_others(alloc, rows, &READ_FAILS),
        Fails::Edit => with_others(alloc, rows, &EDIT_FAILS),
        Fails::Peek => with_others(alloc, rows, &PEEK_FAILS),
        Fails::FirstWrite => with_others(alloc, rows, &FIRST_WRITE_FAILS),
        Fails::SecondWrite => with_others(alloc, rows, &SECOND_WRITE_FAILS),
        Fails::Sync => with_others(alloc, rows, &SYNC_FAILS),
        Fails::ThirdCommit => with_others(alloc, rows, &THIRD_COMMIT_FAILS),
        Fails::SecondDrop => with_others(alloc, rows, &SECOND_DROP_FAILS),
        Fails::SecondCut => with_others(alloc, rows, &SECOND_CUT_FAILS),
        Fails::PlainCommit => with_others(alloc, rows, &PLAIN_COMMIT_FAILS),
    }
}

// These devices, of which that call fails.
pub fn with_failing(alloc: Global, devices: &Pair, call: Failing) -> Result<Pair, Refusal> {
    let (device, kind, number) = call;
    let calls = [(kind, number)];
    match device {
        Device::Log => failing(alloc, devices, &calls, &[]),
        _ => failing(alloc, devices, &[], &calls),
    }
}

// Whether all was answered so, and the journal tells that fault first.
fn goes_so<D: Disk + Drop>(
    alloc: Global,
    devices: (D, D),
    rows: &[Row],
    line: (Who, Said),
) -> Result<bool, Refusal> {
    let ran = run_on(alloc, devices, rows)?;
    Ok(ran.wrong.is_none() && first_fault(ran.journal.as_slice()) == Some(line))
}

// The sequence, with what is answered where that fails.
fn rows_of(alloc: Global, fails: Fails) -> Result<Vec<Row>, Refusal> {
    failing_so(alloc, &SEQUENCE, fails)
}

// Whether a case goes as it should.
fn case_goes_so(
    alloc: Global,
    devices: &Pair,
    call: Failing,
    fails: Fails,
) -> Result<bool, Refusal> {
    let rows = rows_of(alloc, fails)?;
    let devices = with_failing(alloc, devices, call)?;
    goes_so(alloc, devices, &rows, line(fails))
}

// The first case that goes otherwise.
fn first_wrong_of(alloc: Global, devices: &Pair) -> Result<Option<usize>, Refusal> {
    for (place, (call, fails)) in CASES.iter().enumerate() {
        if !case_goes_so(alloc, devices, *call, *fails)? {
            return Ok(Some(place));
        }
    }
    Ok(None)
}

fn first_wrong_case(alloc: Global) -> Result<Option<usize>, Refusal> {
    first_wrong_of(alloc, &devices(alloc, 16, 64)?)
}

#[test]
fn each_call_of_each_device_fails(rt: HostRuntime) -> Result<(), Fail> {
    assert!(rt; first_wrong_case(rt.alloc()) == Ok(None));
    Ok(())
}

// How many reads, writes and syncs there were.
fn calls(disk: &MemDisk) -> [u64; 3] {
    [
        disk.calls(Call::Read),
        disk.calls(Call::Write),
        disk.calls(Call::Sync),
    ]
}

// What is left behind the sequence.
fn sequence<D: Disk + Drop>(alloc: Global, devices: (D, D)) -> Result<Ran<D>, Refusal> {
    run_on(alloc, devices, &SEQUENCE)
}

// Whether all was answered as it should be, and the calls of the log and of the pages.
type Made = (bool, [[u64; 3]; 2]);

fn made(ran: &Ran<MemDisk>) -> Made {
    (ran.wrong.is_none(), [calls(&ran.log), calls(&ran.pages)])
}

// So it is where no call fails.
fn made_on(alloc: Global, devices: &Pair) -> Result<Made, Refusal> {
    let devices = failing(alloc, devices, &[], &[])?;
    Ok(made(&sequence(alloc, devices)?))
}

fn calls_made(alloc: Global) -> Result<Made, Refusal> {
    made_on(alloc, &devices(alloc, 16, 64)?)
}

#[test]
fn no_call_of_a_device_is_left_out(rt: HostRuntime) -> Result<(), Fail> {
    assert!(rt; calls_made(rt.alloc()) == Ok((true, [[3, 17, 18], [3, 2, 2]])));
    Ok(())
}
