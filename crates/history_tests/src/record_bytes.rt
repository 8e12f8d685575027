//! What no clause says: the bytes of records, and lists of bodies with what they stand for, worked by hand.

use gate_log::Unread;
use history::{Base, Change, Version, is_base};
use records::{DecodeError, Entry, decode, encode, read_log, read_maplog};
use std::alloc::{AllocError, Global};
use std::test::Fail;
use values::Seq;

// Sixteen pages, capacity 64, nothing declared.
const BASE: [u8; 39] = [
    1, 0, 1, 0, 0, 0, 0x10, 0, 0, 0, 0x40, 0, 0, 0, 0, 0, 0, 0, 0, 0, 0, 0, 0, 0, 0, 0, 0, 0, 0, 0,
    1, 0, 0, 0, 0, 0, 0, 0, 0,
];
// The same in another version.
const OTHER_VERSION: [u8; 39] = [
    1, 0, 2, 0, 0, 0, 0x10, 0, 0, 0, 0x40, 0, 0, 0, 0, 0, 0, 0, 0, 0, 0, 0, 0, 0, 0, 0, 0, 0, 0, 0,
    1, 0, 0, 0, 0, 0, 0, 0, 0,
];

const DECLARES: [u8; 5] = [2, 1, 0, 0, 0];

const DROPS_BELOW_2: [u8; 5] = [3, 0, 0, 0, 2];

const START: [u8; 15] = [1, 0, 1, 0, 0, 0, 0, 0, 0, 0, 0, 0, 0, 0, 0x40];
// Two mappings of page 7 from 0 on.
const RUN: [u8; 17] = [2, 0, 0, 0, 0, 0, 0, 0, 0, 0, 0, 0, 2, 0, 7, 0, 7];

const LOW_1: [u8; 9] = [3, 0, 0, 0, 0, 0, 0, 0, 1];

const LOW_0: [u8; 9] = [3, 0, 0, 0, 0, 0, 0, 0, 0];

const OTHER_CAPACITY: [u8; 15] = [1, 0, 1, 0, 0, 0, 0, 0, 0, 0, 0, 0, 0, 0, 0x41];
// A mapping of a page that is not one of sixteen.
const PAGE_16: [u8; 15] = [2, 0, 0, 0, 0, 0, 0, 0, 0, 0, 0, 0, 1, 0, 16];

#[test]
fn a_drop_has_these_bytes(rt: HostRuntime) -> Result<(), Fail> {
    let below = Entry::Change(Change::Drop { below: 3 });
    let framed = encode(rt.alloc(), Version::One, &below)?;
    assert_eq!(rt;
        framed.as_bytes(),
        [0, 0, 0, 5, 3, 0, 0, 0, 3, 0].as_slice()
    );
    Ok(())
}

#[test]
fn a_base_has_these_bytes(rt: HostRuntime) -> Result<(), Fail> {
    let alloc = rt.alloc();
    let base = Base {
        page_count: 16,
        capacity: 64,
        changes: 0,
        captures: 0,
        marks: Seq::new(alloc),
        captured: Seq::new(alloc),
    };
    if !is_base(&base) {
        return Err(Fail::new("not right"));
    }
    let framed = encode(alloc, Version::One, &Entry::Base(base))?;
    assert_eq!(rt; framed.as_bytes().get(4..43), Some(BASE.as_slice()));
    Ok(())
}

#[test]
fn bytes_are_these_entries(rt: HostRuntime) {
    let alloc = rt.alloc();
    assert!(rt; matches!(decode(alloc, Version::One, &BASE), Ok(Entry::Base(_))));
    let declares = decode(alloc, Version::One, &[2, 1, 3, b'o', b'n', b'e', 0, 0]);
    assert!(rt; matches!(declares, Ok(Entry::Change(_))));
    // A byte of a label that is not printable, a byte too many.
    let label = decode(alloc, Version::One, &[2, 1, 1, 10, 0, 0]);
    assert!(rt; matches!(label, Err(DecodeError::Malformed)));
    let longer = decode(alloc, Version::One, &[3, 0, 0, 0, 3, 0]);
    assert!(rt; matches!(longer, Err(DecodeError::Malformed)));
}

fn bodies(alloc: Global, list: &[&[u8]]) -> Result<Vec<Vec<u8>>, AllocError> {
    let mut bodies = Vec::new(alloc);
    for body in list {
        bodies.push(body.to_vec(alloc)?)?;
    }
    Ok(bodies)
}

// How many changes a log has, or behind how many bodies it breaks.
fn log_read(alloc: Global, list: &[&[u8]]) -> Result<Result<usize, usize>, AllocError> {
    match read_log(alloc, Version::One, &bodies(alloc, list)?) {
        Ok(log) => Ok(Ok(log.changes.len())),
        Err(Unread::Broken { behind }) => Ok(Err(behind)),
        Err(Unread::OutOfMemory) => Err(AllocError),
    }
}

#[test]
fn a_log_breaks_at_its_first_wrong_body(rt: HostRuntime) -> Result<(), Fail> {
    let table: [(&[&[u8]], Result<usize, usize>); 9] = [
        (&[], Err(0)),
        (&[&BASE], Ok(0)),
        (&[&DECLARES], Err(0)),
        (&[&OTHER_VERSION], Err(0)),
        (&[&BASE, &BASE], Err(1)),
        (&[&BASE, &[2, 0, 0, 0]], Err(1)),
        (&[&BASE, &DECLARES, &DECLARES, &DROPS_BELOW_2], Ok(3)),
        (&[&BASE, &DECLARES, &DROPS_BELOW_2, &DECLARES], Err(2)),
        (&[&BASE, &DECLARES, &[2, 1, 0, 0, 0, 0]], Err(2)),
    ];
    for (list, want) in table {
        assert_eq!(rt; log_read(rt.alloc(), list)?, want);
    }
    Ok(())
}

// The lowest mapping and the next one of a Maplog, or behind how many bodies it breaks.
fn maplog_read(alloc: Global, list: &[&[u8]]) -> Result<Result<(u64, u64), usize>, AllocError> {
    match read_maplog(alloc, Version::One, 16, 64, &bodies(alloc, list)?) {
        Ok(mappings) => Ok(Ok((mappings.low(), mappings.end()))),
        Err(Unread::Broken { behind }) => Ok(Err(behind)),
        Err(Unread::OutOfMemory) => Err(AllocError),
    }
}

#[test]
fn a_maplog_breaks_at_its_first_wrong_body(rt: HostRuntime) -> Result<(), Fail> {
    let table: [(&[&[u8]], Result<(u64, u64), usize>); 11] = [
        (&[], Err(0)),
        (&[&START], Ok((0, 0))),
        (&[&RUN], Err(0)),
        (&[&OTHER_CAPACITY], Err(0)),
        (&[&START, &START], Err(1)),
        (&[&START, &RUN], Ok((0, 2))),
        (&[&START, &RUN, &LOW_1], Ok((1, 2))),
        (&[&START, &LOW_1], Err(1)),
        (&[&START, &RUN, &RUN], Err(2)),
        (&[&START, &RUN, &LOW_1, &LOW_0], Err(3)),
        (&[&START, &PAGE_16], Err(1)),
    ];
    for (list, want) in table {
        assert_eq!(rt; maplog_read(rt.alloc(), list)?, want);
    }
    Ok(())
}
