//! Which half of a log counts, by the headers of both.

use crate::support::{open, put, zeros};
use retro_base::{Device, Refusal};
use std::alloc::Global;
use std::test::Fail;

const OPEN: u8 = 0xa5;

const CLOSED: u8 = 0;

// The gates and generations of the two halves, and how many bodies the log is of: the first half has one, the other
// two.
const HALVES: [((u8, u64), (u8, u64), Option<usize>); 8] = [
    ((CLOSED, 1), (CLOSED, 0), None),
    ((OPEN, 1), (CLOSED, 2), Some(1)),
    ((CLOSED, 2), (OPEN, 7), Some(2)),
    ((OPEN, 1), (OPEN, 2), Some(2)),
    ((OPEN, 3), (OPEN, 2), Some(1)),
    ((OPEN, 1), (OPEN, 0xffff_ffff_ffff_ffff), Some(1)),
    ((OPEN, 2), (OPEN, 2), None),
    ((OPEN, 1), (OPEN, 3), None),
];

// How many bodies a log of these halves is of; none where it is refused at its first place.
fn counted(
    alloc: Global,
    (gate, generation): (u8, u64),
    (other_gate, other): (u8, u64),
) -> Result<Option<usize>, Refusal> {
    let mut disk = zeros(alloc, 200)?;
    put(&mut disk, 0, &[gate])?;
    put(&mut disk, 8, &generation.to_be_bytes())?;
    put(&mut disk, 16, &[0xa5, 0, 0, 0, 0, 0])?;
    put(&mut disk, 100, &[other_gate])?;
    put(&mut disk, 108, &other.to_be_bytes())?;
    put(&mut disk, 116, &[0xa5, 0, 0, 0, 0, 0xa5, 0, 0, 0, 0, 0])?;
    let (device, place) = (Device::Log, 0);
    match open(alloc, &mut disk) {
        Ok(bodies) => Ok(Some(bodies.len())),
        Err(refusal) if refusal == (Refusal::NotAStore { device, place }) => Ok(None),
        Err(refusal) => Err(refusal),
    }
}

#[test]
fn the_open_half_of_the_next_generation_counts(rt: HostRuntime) -> Result<(), Fail> {
    for (first, second, bodies) in HALVES {
        assert!(rt; counted(rt.alloc(), first, second) == Ok(bodies));
    }
    Ok(())
}
