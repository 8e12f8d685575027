//! Stores at the limits, at full size.

use crate::lines::{Said, are_lines};
use core_trial::devices::{A, B, C, COPIER, FLUSHER, empty};
use core_trial::{Answer, Ask, Ran, Row, goes_so, run};
use disk_mem::RamDisk;
use disk_model::Disk;
use history::{Line, Version};
use retro_base::{Device, Refusal, Who};
use std::alloc::Global;
use std::test::Fail;
use store_core::sizes;
use txn_set::Ending;

const ASKED: Ending = Ending::Asked;

const COMMITTED: Answer = Answer::Declared(None);

const BEGINS: Row = (Ask::Begin(A), Answer::Done);

const COMMITS: Row = (Ask::Commit(A), COMMITTED);

const TOO_MANY: Refusal = Refusal::TooManyPages { needed: 1025 };

// The pages of the first commit are not edited in their order.
const PAGES_OF_A_COMMIT: [Row; 15] = [
    BEGINS,
    (Ask::EditAll(A, 512, 1024, 1), Answer::Done),
    (Ask::EditAll(A, 0, 512, 1), Answer::Done),
    COMMITS,
    BEGINS,
    (Ask::EditAll(A, 0, 1024, 2), Answer::Done),
    (Ask::Edit(A, 1024, 9), Answer::No(TOO_MANY)),
    (Ask::Edit(A, 0, 9), Answer::No(TOO_MANY)),
    (Ask::Read(A, 0), Answer::No(TOO_MANY)),
    (Ask::Commit(A), Answer::No(TOO_MANY)),
    (Ask::Rollback(A, ASKED), Answer::Done),
    BEGINS,
    (Ask::ReadAll(A, 0, 1024, 1), Answer::Is(true)),
    (Ask::Read(A, 1024), Answer::Page(Some(0))),
    (Ask::Owed, Answer::Pair(0, 1024)),
];

static PAGES_OF_A_COMMIT_LINES: [(Who, Said); 5] = [
    (A, Said::Began),
    (A, Said::Done(None, 1024)),
    (A, Said::Began),
    (A, Said::Refused(TOO_MANY)),
    (A, Said::Began),
];

// What is left behind the tables on an empty store of so many pages and 64 slots.
fn left(alloc: Global, pages: u32, tables: &[&[Row]]) -> Result<Ran<RamDisk>, Refusal> {
    run(alloc, empty(alloc, pages, 64)?, tables)
}

// Whether a journal ends with these lines, behind so many.
fn ends_with(lines: &[Line], place: usize, want: &[(Who, Said)]) -> bool {
    match lines.get(place..) {
        Some(lines) => are_lines(lines, want),
        None => false,
    }
}

// Whether all is answered so, and the journal ends with these lines, behind so many.
fn ends_so(
    alloc: Global,
    pages: u32,
    tables: &[&[Row]],
    place: usize,
    want: &[(Who, Said)],
) -> Result<bool, Refusal> {
    let ran = left(alloc, pages, tables)?;
    Ok(ran.wrong.is_none() && ends_with(ran.journal.as_slice(), place, want))
}

fn commit_goes_so(alloc: Global) -> Result<bool, Refusal> {
    let lines = &PAGES_OF_A_COMMIT_LINES;
    ends_so(alloc, 2048, &[&PAGES_OF_A_COMMIT], 0, lines)
}

#[test]
fn a_commit_writes_1024_pages(rt: HostRuntime) -> Result<(), Fail> {
    assert!(rt; commit_goes_so(rt.alloc()) == Ok(true));
    Ok(())
}

const FULL: Answer = Answer::No(Refusal::ArchiveFull {
    needed: 65,
    room: 64,
});

// Once the first snapshot is dropped, the second starts at 64, and there is room for 64 captures more.
const ARCHIVE: [Row; 27] = [
    (Ask::Marks(A, 1), Answer::Declared(Some(1))),
    BEGINS,
    (Ask::EditAll(A, 2, 66, 0), Answer::Done),
    COMMITS,
    (Ask::Owed, Answer::Pair(64, 64)),
    BEGINS,
    (Ask::Edit(A, 66, 1), Answer::Done),
    (Ask::Commit(A), FULL),
    (Ask::Commit(A), FULL),
    (Ask::Marks(B, 1), Answer::Declared(Some(2))),
    (Ask::Commit(A), FULL),
    (Ask::DropBelow(B, 2), Answer::Done),
    COMMITS,
    (Ask::Batch, Answer::Batch(0, 0, 64)),
    (Ask::Capture(63), Answer::Capture(65, Some(0))),
    (Ask::Ack(64), Answer::Done),
    (Ask::Batch, Answer::Batch(64, 64, 1)),
    (Ask::Capture(0), Answer::Capture(66, Some(0))),
    BEGINS,
    (Ask::EditAll(A, 2, 65, 9), Answer::Done),
    COMMITS,
    (Ask::Owed, Answer::Pair(64, 65)),
    (Ask::Batch, Answer::Batch(64, 64, 64)),
    (Ask::Capture(1), Answer::Capture(2, Some(2))),
    BEGINS,
    (Ask::Edit(A, 65, 1), Answer::Done),
    (Ask::Commit(A), FULL),
];

fn archive_goes_so(alloc: Global) -> Result<bool, Refusal> {
    Ok(left(alloc, 128, &[&ARCHIVE])?.wrong.is_none())
}

#[test]
fn an_archive_of_64_is_full_and_freed(rt: HostRuntime) -> Result<(), Fail> {
    assert!(rt; archive_goes_so(rt.alloc()) == Ok(true));
    Ok(())
}

const NO_LINE: Answer = Answer::No(Refusal::JournalFull {
    lines: 65_536,
    images: 0,
});

const NO_LINE_BEHIND_A_FAULT: Answer = Answer::No(Refusal::JournalFull {
    lines: 65_537,
    images: 0,
});

// The two lines that are kept for workers stand behind all of the sessions.
const LINES: [Row; 9] = [
    (Ask::Pairs(A, 32_766), Answer::Done),
    BEGINS,
    (Ask::Begin(B), NO_LINE),
    (Ask::Look(B, 1), NO_LINE),
    COMMITS,
    (Ask::Begin(A), NO_LINE),
    (Ask::Note(COPIER, Device::Maplog, 1, false), Answer::Done),
    (Ask::Begin(A), NO_LINE_BEHIND_A_FAULT),
    (Ask::Note(FLUSHER, Device::Maplog, 2, true), Answer::Done),
];

// Whether they are answered so, and no line is behind that many.
fn journal_goes_so(alloc: Global) -> Result<bool, Refusal> {
    ends_so(alloc, 16, &[&LINES], 65_536, &[])
}

#[test]
fn a_journal_has_65536_lines(rt: HostRuntime) -> Result<(), Fail> {
    assert!(rt; journal_goes_so(rt.alloc()) == Ok(true));
    Ok(())
}

const FIRST_OPENING: [Row; 1] = [(Ask::Marks(A, 32_767), Answer::Declared(Some(32_767)))];

const SECOND_OPENING: [Row; 1] = [(Ask::Marks(A, 32_767), Answer::Declared(Some(65_534)))];

const THIRD_OPENING: [Row; 12] = [
    (Ask::Horizon, Answer::Pair(1, 65_534)),
    (Ask::Marks(A, 2), Answer::Declared(Some(65_536))),
    (
        Ask::LookAll(B),
        Answer::Snapshots(Some([(1, 0, 0), (65_536, 0, 0)])),
    ),
    (Ask::Unlook(B, ASKED), Answer::Done),
    BEGINS,
    (
        Ask::Mark(A, b"more"),
        Answer::No(Refusal::SnapshotsFull { retained: 65_536 }),
    ),
    (Ask::Look(B, 65_536), Answer::Number(0)),
    (Ask::Unlook(B, ASKED), Answer::Done),
    (Ask::DropBelow(B, 2), Answer::Done),
    (Ask::Mark(A, b"more"), Answer::Declared(Some(65_537))),
    (Ask::Horizon, Answer::Pair(2, 65_537)),
    (Ask::CutLog(FLUSHER), Answer::Is(true)),
];

// The base of the log that was cut has them all.
const FOURTH_OPENING: [Row; 1] = [(Ask::Horizon, Answer::Pair(2, 65_537))];

// Whether the first opening goes so, and the sizes are told of the log that it leaves; and what it leaves.
fn first_opening(alloc: Global) -> Result<(bool, (RamDisk, RamDisk)), Refusal> {
    let ran = left(alloc, 16, &[&FIRST_OPENING])?;
    let goes = ran.wrong.is_none();
    let (mut log, pages) = (ran.log, ran.pages);
    let told = sizes(alloc, Version::One, &mut log)?;
    Ok((goes && told.pages == 16, (log, pages)))
}

// Whether the three behind it go so.
fn later_openings<D: Disk + Drop>(alloc: Global, devices: (D, D)) -> Result<bool, Refusal> {
    let (second, left) = goes_so(alloc, devices, &SECOND_OPENING)?;
    let (third, left) = goes_so(alloc, left, &THIRD_OPENING)?;
    let (fourth, _left) = goes_so(alloc, left, &FOURTH_OPENING)?;
    Ok(second && third && fourth)
}

// Whether 65,536 snapshots over three openings go so, and an opening of the log that was cut behind them.
fn snapshots_go_so(alloc: Global) -> Result<bool, Refusal> {
    let (first, left) = first_opening(alloc)?;
    let later = later_openings(alloc, left)?;
    Ok(first && later)
}

#[test]
fn three_openings_declare_65536_snapshots(rt: HostRuntime) -> Result<(), Fail> {
    assert!(rt; snapshots_go_so(rt.alloc()) == Ok(true));
    Ok(())
}

// A header of 16 bytes, a base of 39 and its five. A commit of 1,024 pages takes 1,050,633 bytes of the region, one of
// 991 takes 1,016,775, and one without pages or a label ten.
const FILLED: [Row; 5] = [
    BEGINS,
    (Ask::EditAll(A, 0, 991, 3), Answer::Done),
    COMMITS,
    (Ask::Marks(A, 88), Answer::Declared(Some(88))),
    (
        Ask::Free,
        Answer::Number(16_777_216 - 60 - 15 * 1_050_633 - 1_016_775 - 880),
    ),
];

const NO_ROOM: Answer = Answer::No(Refusal::NoRoom {
    needed: 11,
    free: 6,
});

// The same session in the next phase.
const B_LATER: Who = Who {
    phase: 2,
    session: 1,
    item: 0,
};

// A drop without room keeps its line, for the session's next drop in this phase or its fault.
const ROOM: [Row; 19] = [
    (Ask::DropBelow(B, 2), NO_ROOM),
    (Ask::DropBelow(B, 2), NO_ROOM),
    BEGINS,
    (Ask::Mark(A, b""), NO_ROOM),
    (Ask::Rollback(A, ASKED), Answer::Done),
    (Ask::DropBelow(C, 2), NO_ROOM),
    (Ask::Note(C, Device::Pagelog, 1, false), Answer::Done),
    (Ask::DropBelow(B, 1), Answer::Done),
    (Ask::DropBelow(B, 2), NO_ROOM),
    (Ask::Begin(B_LATER), Answer::Done),
    (Ask::Rollback(B_LATER, ASKED), Answer::Done),
    (Ask::CutLog(FLUSHER), Answer::Is(false)),
    (Ask::WriteAll(FLUSHER), Answer::Number(1024)),
    (Ask::Settle(FLUSHER), Answer::Done),
    (Ask::CutLog(FLUSHER), Answer::Is(true)),
    (Ask::DropBelow(B_LATER, 2), Answer::Done),
    (Ask::Horizon, Answer::Pair(2, 88)),
    BEGINS,
    (Ask::ReadAll(A, 0, 991, 3), Answer::Is(true)),
];

// The lines behind those of the commits.
static ROOM_LINES: [(Who, Said); 8] = [
    (A, Said::Began),
    (A, Said::RolledBack),
    (C, Said::Fault(Device::Pagelog, 1, false)),
    (B, Said::Dropped(1)),
    (B_LATER, Said::Began),
    (B_LATER, Said::RolledBack),
    (B_LATER, Said::Dropped(2)),
    (A, Said::Began),
];

const FIRST_1024: [Row; 3] = [BEGINS, (Ask::EditAll(A, 0, 1024, 5), Answer::Done), COMMITS];

// Behind sixteen commits and 88 snapshots.
fn room_goes_so(alloc: Global) -> Result<bool, Refusal> {
    let first: &[Row] = &FIRST_1024;
    let mut tables = [first; 17];
    tables[15] = &FILLED;
    tables[16] = &ROOM;
    ends_so(alloc, 1024, &tables, 208, &ROOM_LINES)
}

#[test]
fn a_drop_without_room_keeps_its_line(rt: HostRuntime) -> Result<(), Fail> {
    assert!(rt; room_goes_so(rt.alloc()) == Ok(true));
    Ok(())
}
