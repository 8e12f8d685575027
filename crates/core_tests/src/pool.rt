//! The pool of a store of 8,192 pages, by how often the pages' device is read.

use core_trial::devices::{A, FLUSHER, Pair, devices};
use core_trial::failing::failing;
use core_trial::{Answer, Ask, Row, goes_so};
use disk_mem::Call;
use retro_base::Refusal;
use std::alloc::Global;
use std::test::Fail;

const YES: Answer = Answer::Is(true);

const BEGINS: Row = (Ask::Begin(A), Answer::Done);

const COMMITS: Row = (Ask::Commit(A), Answer::Declared(None));

const WRITTEN: [Row; 29] = [
    BEGINS,
    (Ask::EditAll(A, 0, 1024, 5), Answer::Done),
    COMMITS,
    BEGINS,
    (Ask::EditAll(A, 1024, 2048, 5), Answer::Done),
    COMMITS,
    BEGINS,
    (Ask::EditAll(A, 2048, 3072, 5), Answer::Done),
    COMMITS,
    BEGINS,
    (Ask::EditAll(A, 3072, 4096, 5), Answer::Done),
    COMMITS,
    BEGINS,
    (Ask::EditAll(A, 4096, 5120, 5), Answer::Done),
    COMMITS,
    BEGINS,
    (Ask::EditAll(A, 5120, 6144, 5), Answer::Done),
    COMMITS,
    BEGINS,
    (Ask::EditAll(A, 6144, 7168, 5), Answer::Done),
    COMMITS,
    BEGINS,
    (Ask::EditAll(A, 7168, 8192, 5), Answer::Done),
    COMMITS,
    (Ask::Owed, Answer::Pair(0, 8192)),
    (Ask::WriteAll(FLUSHER), Answer::Number(8192)),
    (Ask::Settle(FLUSHER), Answer::Done),
    (Ask::CutLog(FLUSHER), YES),
    (Ask::Owed, Answer::Pair(0, 0)),
];

// The last 4,096 pages that were read are in memory.
const READ_AGAIN: [Row; 5] = [
    BEGINS,
    (Ask::ReadAll(A, 0, 8192, 5), YES),
    (Ask::ReadAll(A, 4096, 8192, 5), YES),
    (Ask::ReadAll(A, 0, 4096, 5), YES),
    COMMITS,
];

const FIRST_4096: Row = (Ask::ReadAll(A, 0, 4096, 5), YES);

const PAGE_0: Row = (Ask::ReadAll(A, 0, 1, 5), YES);

const PAGE_1: Row = (Ask::ReadAll(A, 1, 2, 5), YES);

const PAGE_4096: Row = (Ask::ReadAll(A, 4096, 4097, 5), YES);

// Page 0 is read again while it is in memory; then one page more has room for that which was not read the longest.
const FOUND_STAYS: [Row; 5] = [BEGINS, FIRST_4096, PAGE_0, PAGE_4096, PAGE_0];

const OLDEST_GOES: [Row; 5] = [BEGINS, FIRST_4096, PAGE_0, PAGE_4096, PAGE_1];

const OTHERS_STAY: [Row; 5] = [
    BEGINS,
    FIRST_4096,
    PAGE_0,
    PAGE_4096,
    (Ask::ReadAll(A, 2, 4097, 5), YES),
];

// How often the pages' device is read for each of these.
const READS: [Option<u64>; 4] = [
    Some(8192 + 4096),
    Some(4096 + 1),
    Some(4096 + 1 + 1),
    Some(4096 + 1),
];

// Whether a store of 8,192 pages is written so, and what this leaves.
fn written(alloc: Global) -> Result<(bool, Pair), Refusal> {
    goes_so(alloc, devices(alloc, 8192, 64)?, &WRITTEN)
}

// These devices, where no call was made yet.
fn uncalled(alloc: Global, devices: &Pair) -> Result<Pair, Refusal> {
    failing(alloc, devices, &[], &[])
}

// How often the pages' device is read where the rows are answered so.
fn reads(alloc: Global, devices: &Pair, rows: &[Row]) -> Result<Option<u64>, Refusal> {
    let (is_so, left) = goes_so(alloc, uncalled(alloc, devices)?, rows)?;
    Ok(is_so.then_some(left.1.calls(Call::Read)))
}

fn all_reads(alloc: Global, devices: &Pair) -> Result<[Option<u64>; 4], Refusal> {
    Ok([
        reads(alloc, devices, &READ_AGAIN)?,
        reads(alloc, devices, &FOUND_STAYS)?,
        reads(alloc, devices, &OLDEST_GOES)?,
        reads(alloc, devices, &OTHERS_STAY)?,
    ])
}

// Whether the store is written so, and the pages' device then read so.
fn is_read_so(alloc: Global) -> Result<bool, Refusal> {
    let (is_written, left) = written(alloc)?;
    Ok(is_written && all_reads(alloc, &left)? == READS)
}

#[test]
fn a_pool_of_8192_pages_keeps_the_4096_read_last(rt: HostRuntime) -> Result<(), Fail> {
    assert!(rt; is_read_so(rt.alloc()) == Ok(true));
    Ok(())
}
