//! Transactions, looks and captures of a small store.

use crate::lines::{Said, are_lines};
use core_trial::devices::{A, B, C, COPIER, FLUSHER, empty};
use core_trial::{Answer, Ask, Row, run};
use retro_base::{Device, Refusal, Who};
use std::alloc::Global;
use std::test::Fail;
use txn_set::Ending;

const BY_A: Answer = Answer::No(Refusal::Overlap {
    session: 0,
    item: 3,
});

const BY_C: Answer = Answer::No(Refusal::Overlap {
    session: 5,
    item: 2,
});

const ASKED: Ending = Ending::Asked;

const COMMITTED: Answer = Answer::Declared(None);

// What is wrong with the answers, and whether these are the lines, of a store of 16 pages and 64 slots.
fn wrong(
    alloc: Global,
    rows: &[Row],
    lines: &[(Who, Said)],
) -> Result<(Option<(usize, Answer)>, bool), Refusal> {
    let ran = run(alloc, empty(alloc, 16, 64)?, &[rows])?;
    Ok((ran.wrong, are_lines(ran.journal.as_slice(), lines)))
}

const LATCH: [Row; 17] = [
    (Ask::Begin(A), Answer::Done),
    (Ask::Begin(B), Answer::Done),
    (Ask::Edit(A, 5, 1), Answer::Done),
    (Ask::Edit(B, 5, 2), BY_A),
    // It is kept, and the edit of another page, a read and the commit answer it.
    (Ask::Edit(B, 6, 2), BY_A),
    (Ask::Read(B, 6), BY_A),
    (Ask::Commit(B), BY_A),
    (Ask::Rollback(B, ASKED), Answer::Done),
    (Ask::Begin(B), Answer::Done),
    (Ask::Commit(A), COMMITTED),
    (Ask::Read(B, 5), BY_A),
    (Ask::Rollback(B, ASKED), Answer::Done),
    (Ask::Begin(B), Answer::Done),
    (Ask::Read(B, 5), Answer::Page(Some(1))),
    (Ask::Read(B, 6), Answer::Page(Some(0))),
    (Ask::Rollback(B, ASKED), Answer::Done),
    (Ask::Owed, Answer::Pair(0, 1)),
];

static LATCH_LINES: [(Who, Said); 8] = [
    (A, Said::Began),
    (B, Said::Began),
    (B, Said::Overlapped(0, 3)),
    (B, Said::Began),
    (A, Said::Done(None, 1)),
    (B, Said::Overlapped(0, 3)),
    (B, Said::Began),
    (B, Said::RolledBack),
];

#[test]
fn a_page_that_is_edited_is_latched(rt: HostRuntime) -> Result<(), Fail> {
    assert!(rt; wrong(rt.alloc(), &LATCH, &LATCH_LINES) == Ok((None, true)));
    Ok(())
}

const SECOND_LOOK: [Row; 28] = [
    (Ask::Begin(A), Answer::Done),
    (Ask::Begin(B), Answer::Done),
    (Ask::Begin(C), Answer::Done),
    (Ask::Read(B, 9), Answer::Page(Some(0))),
    (Ask::Read(B, 5), Answer::Page(Some(0))),
    (Ask::Edit(B, 6, 2), Answer::Done),
    (Ask::Edit(A, 9, 1), Answer::Done),
    (Ask::Commit(A), COMMITTED),
    (Ask::Edit(C, 5, 1), Answer::Done),
    (Ask::Commit(C), COMMITTED),
    (Ask::Edit(B, 7, 2), Answer::Done),
    // Of the pages that it read, 5 is the least that has changed.
    (Ask::Commit(B), BY_C),
    (Ask::Edit(B, 8, 2), BY_C),
    (Ask::Rollback(B, ASKED), Answer::Done),
    // What it edited is as before, and free.
    (Ask::Begin(A), Answer::Done),
    (Ask::Read(A, 6), Answer::Page(Some(0))),
    (Ask::Edit(A, 6, 3), Answer::Done),
    (Ask::Read(A, 6), Answer::Page(Some(3))),
    (Ask::Begin(B), Answer::Done),
    (Ask::Begin(C), Answer::Done),
    (Ask::Commit(A), COMMITTED),
    (Ask::Edit(C, 9, 4), Answer::Done),
    (Ask::Commit(C), COMMITTED),
    // The last that changed the page is told, and of a page that was edited alone too.
    (Ask::Edit(B, 9, 5), BY_C),
    (Ask::Rollback(B, ASKED), Answer::Done),
    (Ask::Begin(B), Answer::Done),
    (Ask::Read(B, 6), Answer::Page(Some(3))),
    (Ask::Commit(B), COMMITTED),
];

static SECOND_LOOK_LINES: [(Who, Said); 14] = [
    (A, Said::Began),
    (B, Said::Began),
    (C, Said::Began),
    (A, Said::Done(None, 1)),
    (C, Said::Done(None, 1)),
    (B, Said::Overlapped(5, 2)),
    (A, Said::Began),
    (B, Said::Began),
    (C, Said::Began),
    (A, Said::Done(None, 1)),
    (C, Said::Done(None, 1)),
    (B, Said::Overlapped(5, 2)),
    (B, Said::Began),
    (B, Said::Done(None, 0)),
];

#[test]
fn a_commit_looks_again_at_what_was_read(rt: HostRuntime) -> Result<(), Fail> {
    assert!(rt; wrong(rt.alloc(), &SECOND_LOOK, &SECOND_LOOK_LINES) == Ok((None, true)));
    Ok(())
}

const ONE_CAPTURE: [Row; 10] = [
    (Ask::Marks(A, 1), Answer::Declared(Some(1))),
    (Ask::Set(A, 7, 1), COMMITTED),
    (Ask::Set(A, 7, 2), COMMITTED),
    (Ask::Set(A, 7, 3), COMMITTED),
    (Ask::Set(A, 7, 4), COMMITTED),
    (Ask::Set(A, 7, 5), COMMITTED),
    (Ask::Owed, Answer::Pair(1, 1)),
    (Ask::Batch, Answer::Batch(0, 0, 1)),
    (Ask::Capture(0), Answer::Capture(7, Some(0))),
    (Ask::Horizon, Answer::Pair(1, 1)),
];

static ONE_CAPTURE_LINES: [(Who, Said); 12] = [
    (A, Said::Began),
    (A, Said::Done(Some(0), 0)),
    (A, Said::Began),
    (A, Said::Done(None, 1)),
    (A, Said::Began),
    (A, Said::Done(None, 1)),
    (A, Said::Began),
    (A, Said::Done(None, 1)),
    (A, Said::Began),
    (A, Said::Done(None, 1)),
    (A, Said::Began),
    (A, Said::Done(None, 1)),
];

#[test]
fn five_commits_capture_once(rt: HostRuntime) -> Result<(), Fail> {
    let lines = &ONE_CAPTURE_LINES;
    assert!(rt; wrong(rt.alloc(), &ONE_CAPTURE, lines) == Ok((None, true)));
    Ok(())
}

// Page 7 is set before and behind each of three snapshots.
const THREE_CAPTURES: [Row; 30] = [
    (Ask::Set(A, 7, 1), COMMITTED),
    (Ask::Marks(A, 1), Answer::Declared(Some(1))),
    (Ask::Set(A, 7, 2), COMMITTED),
    (Ask::Marks(A, 1), Answer::Declared(Some(2))),
    (Ask::Set(A, 7, 3), COMMITTED),
    (Ask::Marks(A, 1), Answer::Declared(Some(3))),
    (Ask::Set(A, 7, 4), COMMITTED),
    (Ask::Owed, Answer::Pair(3, 1)),
    (Ask::Look(B, 2), Answer::Number(1)),
    (Ask::Peek(B, 7, 2), Answer::Told(Some(2), 0)),
    (Ask::Batch, Answer::Batch(0, 0, 3)),
    (Ask::Capture(0), Answer::Capture(7, Some(1))),
    (Ask::Capture(1), Answer::Capture(7, Some(2))),
    (Ask::Capture(2), Answer::Capture(7, Some(3))),
    (Ask::WriteBack(FLUSHER), Answer::Is(false)),
    (Ask::CutLog(FLUSHER), Answer::Is(false)),
    // The archive is asked below 2 before this is told.
    (Ask::Ack(2), Answer::Done),
    (Ask::Peek(B, 7, 2), Answer::Told(Some(3), 2)),
    (Ask::WriteBack(FLUSHER), Answer::Is(false)),
    (Ask::Ack(3), Answer::Done),
    (Ask::Ack(1), Answer::Done),
    (Ask::Batch, Answer::Is(false)),
    (Ask::Peek(B, 7, 2), Answer::Told(Some(4), 3)),
    (Ask::WriteBack(FLUSHER), Answer::Is(true)),
    (Ask::WriteBack(FLUSHER), Answer::Is(false)),
    (Ask::Peek(B, 7, 2), Answer::Told(Some(4), 3)),
    (Ask::CutLog(FLUSHER), Answer::Is(false)),
    (Ask::Settle(FLUSHER), Answer::Done),
    (Ask::CutLog(FLUSHER), Answer::Is(true)),
    (Ask::Unlook(B, ASKED), Answer::Done),
];

static THREE_CAPTURES_LINES: [(Who, Said); 16] = [
    (A, Said::Began),
    (A, Said::Done(None, 1)),
    (A, Said::Began),
    (A, Said::Done(Some(0), 0)),
    (A, Said::Began),
    (A, Said::Done(None, 1)),
    (A, Said::Began),
    (A, Said::Done(Some(0), 0)),
    (A, Said::Began),
    (A, Said::Done(None, 1)),
    (A, Said::Began),
    (A, Said::Done(Some(0), 0)),
    (A, Said::Began),
    (A, Said::Done(None, 1)),
    (B, Said::Looked(2)),
    (B, Said::Unlooked),
];

#[test]
fn three_snapshots_capture_three_times(rt: HostRuntime) -> Result<(), Fail> {
    let lines = &THREE_CAPTURES_LINES;
    assert!(rt; wrong(rt.alloc(), &THREE_CAPTURES, lines) == Ok((None, true)));
    Ok(())
}

// What a transaction or a look is ended for.
const FAILED: Ending = Ending::Failed {
    device: Device::Pagelog,
    count: 5,
};

const BAD_WORDS: Refusal = Refusal::BadWords;

const NONE_YET: Refusal = Refusal::NoSuchSnapshot {
    asked: 1,
    newest: 0,
};

const NONE_AT_0: Refusal = Refusal::NoSuchSnapshot {
    asked: 0,
    newest: 2,
};

const NONE_AT_3: Refusal = Refusal::NoSuchSnapshot {
    asked: 3,
    newest: 2,
};

const TWO_SNAPSHOTS: [Row; 17] = [
    (Ask::Look(B, 1), Answer::No(NONE_YET)),
    (Ask::Marks(A, 1), Answer::Declared(Some(1))),
    (Ask::Marks(A, 1), Answer::Declared(Some(2))),
    (Ask::Owed, Answer::Pair(0, 0)),
    (Ask::Look(B, 0), Answer::No(NONE_AT_0)),
    (Ask::Look(B, 3), Answer::No(NONE_AT_3)),
    (Ask::Look(B, 1), Answer::Number(0)),
    (Ask::Look(C, 2), Answer::Number(0)),
    (Ask::Set(A, 7, 1), COMMITTED),
    (Ask::Owed, Answer::Pair(1, 1)),
    (Ask::Peek(B, 7, 1), Answer::Told(Some(0), 0)),
    (Ask::Peek(C, 7, 2), Answer::Told(Some(0), 0)),
    (Ask::Peek(C, 8, 2), Answer::Told(Some(0), 0)),
    (Ask::Unlook(B, FAILED), Answer::Done),
    (Ask::Unlook(C, Ending::Refused(BAD_WORDS)), Answer::Done),
    (Ask::Begin(A), Answer::Done),
    (Ask::Rollback(A, Ending::Refused(BAD_WORDS)), Answer::Done),
];

static TWO_SNAPSHOTS_LINES: [(Who, Said); 15] = [
    (B, Said::Refused(NONE_YET)),
    (A, Said::Began),
    (A, Said::Done(Some(0), 0)),
    (A, Said::Began),
    (A, Said::Done(Some(0), 0)),
    (B, Said::Refused(NONE_AT_0)),
    (B, Said::Refused(NONE_AT_3)),
    (B, Said::Looked(1)),
    (C, Said::Looked(2)),
    (A, Said::Began),
    (A, Said::Done(None, 1)),
    (B, Said::Fault(Device::Pagelog, 5, false)),
    (C, Said::Refused(BAD_WORDS)),
    (A, Said::Began),
    (A, Said::Refused(BAD_WORDS)),
];

#[test]
fn two_snapshots_at_one_place(rt: HostRuntime) -> Result<(), Fail> {
    let lines = &TWO_SNAPSHOTS_LINES;
    assert!(rt; wrong(rt.alloc(), &TWO_SNAPSHOTS, lines) == Ok((None, true)));
    Ok(())
}

const STOPPED: Answer = Answer::No(Refusal::Stopped {
    device: Device::Maplog,
    count: 1,
});

// The archive's faults: the first stops the desk, and is what it tells from then on.
const NOTED: [Row; 18] = [
    (Ask::Begin(A), Answer::Done),
    (Ask::Edit(A, 7, 1), Answer::Done),
    (Ask::Begin(B), Answer::Done),
    (Ask::Note(B, Device::Pagelog, 1, false), Answer::Done),
    (Ask::Stopped, Answer::Is(false)),
    (Ask::Note(COPIER, Device::Maplog, 1, true), Answer::Done),
    (Ask::Stopped, Answer::Is(true)),
    (Ask::Commit(A), STOPPED),
    (Ask::Note(A, Device::Pagelog, 2, true), Answer::Done),
    (Ask::WriteBack(FLUSHER), STOPPED),
    (Ask::Settle(FLUSHER), STOPPED),
    (Ask::CutLog(FLUSHER), STOPPED),
    (Ask::Begin(A), Answer::Done),
    (Ask::Read(A, 7), Answer::Page(Some(0))),
    (Ask::Commit(A), COMMITTED),
    (Ask::Begin(A), Answer::Done),
    (Ask::Mark(A, b""), STOPPED),
    (Ask::Rollback(A, FAILED), Answer::Done),
];

static NOTED_LINES: [(Who, Said); 9] = [
    (A, Said::Began),
    (B, Said::Began),
    (B, Said::Fault(Device::Pagelog, 1, false)),
    (COPIER, Said::Fault(Device::Maplog, 1, true)),
    (A, Said::Fault(Device::Pagelog, 2, true)),
    (A, Said::Began),
    (A, Said::Done(None, 0)),
    (A, Said::Began),
    (A, Said::Fault(Device::Pagelog, 5, false)),
];

#[test]
fn faults_of_the_archive_are_noted(rt: HostRuntime) -> Result<(), Fail> {
    assert!(rt; wrong(rt.alloc(), &NOTED, &NOTED_LINES) == Ok((None, true)));
    Ok(())
}

const PINNED: Answer = Answer::No(Refusal::Pinned {
    snapshot: 1,
    session: 1,
});

const NONE_AT_4: Refusal = Refusal::NoSuchSnapshot {
    asked: 4,
    newest: 3,
};

const DROPPED_2: Refusal = Refusal::Dropped {
    asked: 2,
    oldest: 3,
};

// Page 7 is set before and behind each of three snapshots, which are then dropped as far as they are not pinned.
const DROPS: [Row; 30] = [
    (Ask::Begin(A), Answer::Done),
    (Ask::Mark(A, b"one"), Answer::Declared(Some(1))),
    (Ask::Set(A, 7, 2), COMMITTED),
    (Ask::Marks(A, 1), Answer::Declared(Some(2))),
    (Ask::Set(A, 7, 3), COMMITTED),
    (Ask::Begin(A), Answer::Done),
    (Ask::Mark(A, b"three"), Answer::Declared(Some(3))),
    (Ask::Set(A, 7, 4), COMMITTED),
    (
        Ask::LookAll(C),
        Answer::Snapshots(Some([(1, 3, 0), (3, 5, 2)])),
    ),
    (Ask::Look(B, 1), Answer::Number(0)),
    // Of the least snapshot that is pinned, the least session is told.
    (Ask::DropBelow(A, 3), PINNED),
    (Ask::Unlook(C, ASKED), Answer::Done),
    (Ask::DropBelow(A, 2), PINNED),
    (Ask::DropBelow(A, 1), Answer::Done),
    (Ask::Unlook(B, ASKED), Answer::Done),
    (Ask::DropBelow(A, 3), Answer::Done),
    (Ask::Horizon, Answer::Pair(3, 3)),
    (Ask::Look(B, 2), Answer::No(DROPPED_2)),
    (Ask::DropBelow(A, 4), Answer::No(NONE_AT_4)),
    (
        Ask::LookAll(C),
        Answer::Snapshots(Some([(3, 5, 2), (3, 5, 2)])),
    ),
    (Ask::DropBelow(A, 3), Answer::Done),
    (Ask::Peek(C, 7, 3), Answer::Told(Some(3), 0)),
    (Ask::Unlook(C, ASKED), Answer::Done),
    // What stands below the oldest start may be forgotten once it is acknowledged.
    (Ask::Batch, Answer::Batch(0, 0, 3)),
    (Ask::Ack(1), Answer::Done),
    (Ask::Batch, Answer::Batch(1, 1, 2)),
    (Ask::Ack(3), Answer::Done),
    (Ask::WriteBack(FLUSHER), Answer::Is(true)),
    (Ask::Settle(FLUSHER), Answer::Done),
    (Ask::CutLog(FLUSHER), Answer::Is(true)),
];

static DROPS_LINES: [(Who, Said); 25] = [
    (A, Said::Began),
    (A, Said::Done(Some(3), 0)),
    (A, Said::Began),
    (A, Said::Done(None, 1)),
    (A, Said::Began),
    (A, Said::Done(Some(0), 0)),
    (A, Said::Began),
    (A, Said::Done(None, 1)),
    (A, Said::Began),
    (A, Said::Done(Some(5), 0)),
    (A, Said::Began),
    (A, Said::Done(None, 1)),
    (C, Said::LookedAll),
    (B, Said::Looked(1)),
    (
        A,
        Said::Refused(Refusal::Pinned {
            snapshot: 1,
            session: 1,
        }),
    ),
    (C, Said::Unlooked),
    (
        A,
        Said::Refused(Refusal::Pinned {
            snapshot: 1,
            session: 1,
        }),
    ),
    (A, Said::Dropped(1)),
    (B, Said::Unlooked),
    (A, Said::Dropped(3)),
    (B, Said::Refused(DROPPED_2)),
    (A, Said::Refused(NONE_AT_4)),
    (C, Said::LookedAll),
    (A, Said::Dropped(3)),
    (C, Said::Unlooked),
];

#[test]
fn snapshots_are_dropped(rt: HostRuntime) -> Result<(), Fail> {
    assert!(rt; wrong(rt.alloc(), &DROPS, &DROPS_LINES) == Ok((None, true)));
    Ok(())
}
