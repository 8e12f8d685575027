//! Devices that fail and stop, and what a crash leaves of them.

use crate::devices::Pair;
use disk_mem::{Call, MemDisk};
use retro_base::Refusal;
use std::alloc::Global;

/// The bytes of these devices, on devices of which these calls fail.
pub fn failing(
    alloc: Global,
    devices: &Pair,
    log: &[(Call, u64)],
    pages: &[(Call, u64)],
) -> Result<Pair, Refusal> {
    let (log, pages) = (Vec::from_slice(alloc, log)?, Vec::from_slice(alloc, pages)?);
    Ok((
        devices.0.again(alloc, log, None)?,
        devices.1.again(alloc, pages, None)?,
    ))
}

/// The bytes of these devices, on devices that stop after so many calls.
pub fn stopping(
    alloc: Global,
    devices: &Pair,
    log: Option<u64>,
    pages: Option<u64>,
) -> Result<Pair, Refusal> {
    Ok((
        devices.0.again(alloc, Vec::new(alloc), log)?,
        devices.1.again(alloc, Vec::new(alloc), pages)?,
    ))
}

/// What a crash leaves of them where each loose byte becomes `fill`.
pub fn crashed(alloc: Global, devices: &Pair, fill: u8) -> Result<Pair, Refusal> {
    Ok((devices.0.crash(alloc, fill)?, devices.1.crash(alloc, fill)?))
}

// Turns the bits of every second byte, from the second on.
fn turn_odd(bytes: &mut [u8]) {
    for (place, byte) in bytes.iter_mut().enumerate() {
        if place % 2 == 1 {
            *byte = !*byte;
        }
    }
}

fn half_crashed(alloc: Global, disk: &MemDisk) -> Result<MemDisk, Refusal> {
    let mut left = disk.bytes().to_vec(alloc)?;
    turn_odd(&mut left);
    disk.crash_as(alloc, &left)
}

/// What a crash leaves of them where the loose bytes at even places are as they were written, and the others are not.
pub fn half_written(alloc: Global, devices: &Pair) -> Result<Pair, Refusal> {
    Ok((
        half_crashed(alloc, &devices.0)?,
        half_crashed(alloc, &devices.1)?,
    ))
}
