//! Calls of the logs and of the devices. Each stands in a function with no clause but one that a caller needs, so
//! that the tests stay cheap to prove, and fails where a condition of the call does not hold.

ghost use Rattle.std.specs.Prelude.{◌≡◌, ◌*◌, IfOk};

use area_log::AreaLog;
use disk_mem::{Call, MemDisk};
use disk_model::Disk;
use gate_log::{Framed, GateLog, put_durably};
use retro_base::{Device, PAGE_BYTES, Page, Refusal};
use std::alloc::Global;

/// A device of that many zeros of which the listed calls fail.
pub fn failing(alloc: Global, size: u64, calls: Vec<(Call, u64)>) -> Result<MemDisk, Refusal> {
    MemDisk::new(alloc, size, calls, None)
}

/// A device of that many zeros of which no call fails.
pub fn zeros(alloc: Global, size: u64) -> Result<MemDisk, Refusal> {
    failing(alloc, size, Vec::new(alloc))
}

/// The same bytes on a device of which no call fails, or that stops after so many calls.
pub fn again(alloc: Global, disk: &MemDisk, stop: Option<u64>) -> Result<MemDisk, Refusal> {
    disk.again(alloc, Vec::new(alloc), stop)
}

/// The same bytes on a device of which the call of that kind with that number fails.
pub fn again_failing(
    alloc: Global,
    disk: &MemDisk,
    call: Call,
    number: u64,
) -> Result<MemDisk, Refusal> {
    disk.again(alloc, vec![in alloc; (call, number)]?, None)
}

/// What a crash leaves of a device.
pub fn crash(alloc: Global, disk: &MemDisk, fill: u8) -> Result<MemDisk, Refusal> {
    disk.crash(alloc, fill)
}

/// What a crash leaves of a device where every second of the loose bytes is as it was written.
pub fn crash_half(alloc: Global, disk: &MemDisk) -> Result<MemDisk, Refusal> {
    let mut left = disk.bytes().to_vec(alloc)?;
    for (i, byte) in left.iter_mut().enumerate() {
        if i % 2 == 1 {
            *byte = !*byte;
        }
    }
    disk.crash_as(alloc, &left)
}

/// How many reads, writes and syncs of the device there were.
pub fn calls_of(disk: &MemDisk) -> [u64; 3] {
    [Call::Read, Call::Write, Call::Sync].map(|call| disk.calls(call))
}

/// Writes these bytes.
pub fn write<D: Disk>(disk: &mut D, place: u64, bytes: &[u8]) -> Result<(), Refusal> {
    let size = disk.size();
    if place > size || size - place < bytes.len() as u64 {
        return Err(Refusal::BadSizes);
    }
    disk.write_at(place, bytes).map_err(|_| Refusal::BadSizes)
}

/// Writes these bytes, and syncs.
pub fn put<D: Disk>(disk: &mut D, place: u64, bytes: &[u8]) -> Result<(), Refusal> {
    let size = disk.size();
    if place > size || size - place < bytes.len() as u64 {
        return Err(Refusal::BadSizes);
    }
    put_durably(disk, Device::Log, place, bytes)
}

// A list of this body alone.
fn list_of(alloc: Global, body: &[u8]) -> Result<Vec<Framed>, Refusal> {
    Ok(vec![in alloc; framed(alloc, body)?]?)
}

/// A body as an append takes it.
pub fn framed(alloc: Global, body: &[u8]) -> Result<Framed, Refusal> {
    if body.len() as u64 > u64::from(u32::MAX) {
        return Err(Refusal::BadSizes);
    }
    Framed::new(alloc, body)
}

/// Fills the first 64 bytes of a device as a region with one body.
pub fn fill<D: Disk>(alloc: Global, disk: &mut D, body: &[u8]) -> Result<(), Refusal> {
    if disk.size() < 64 {
        return Err(Refusal::BadSizes);
    }
    let bodies = list_of(alloc, body)?;
    let _log = GateLog::new_region(alloc, disk, Device::Log, 0, 64, 1, bodies.as_slice())?;
    Ok(())
}

/// Makes the log of one body on an all-zero device.
pub fn make<D: Disk>(alloc: Global, disk: &mut D, body: &[u8]) -> Result<(), Refusal> {
    let size = disk.size();
    if size % 2 != 0 || size < 34 {
        return Err(Refusal::BadSizes);
    }
    let bodies = list_of(alloc, body)?;
    AreaLog::make(alloc, disk, Device::Log, bodies.as_slice())
}

/// The log and its bodies.
pub fn fetch<D: Disk>(alloc: Global, disk: &mut D) -> Result<(AreaLog, Vec<Vec<u8>>), Refusal>
    ensures { IfOk result (λ p. D.extent disk.new ≡ 2 * p.0.log.size) }
{
    let size = disk.size();
    if size % 2 != 0 || size < 34 {
        return Err(Refusal::BadSizes);
    }
    AreaLog::fetch(alloc, disk, Device::Log)
}

/// The bodies of the log.
pub fn open<D: Disk>(alloc: Global, disk: &mut D) -> Result<Vec<Vec<u8>>, Refusal> {
    let (_log, bodies) = fetch(alloc, disk)?;
    Ok(bodies)
}

/// Whether the bodies are these.
pub fn are_these(bodies: &[Vec<u8>], want: &[&[u8]]) -> bool {
    bodies.len() == want.len()
        && bodies
            .iter()
            .zip(want)
            .all(|(body, text)| body.as_slice() == *text)
}

/// Opens the log, and appends a body.
pub fn append<D: Disk>(alloc: Global, disk: &mut D, body: &[u8]) -> Result<(), Refusal> {
    let framed = framed(alloc, body)?;
    let (mut log, _bodies) = fetch(alloc, disk)?;
    log.append(disk, &framed)
}

/// Opens the log, and puts one body in the place of all.
pub fn replace<D: Disk>(alloc: Global, disk: &mut D, body: &[u8]) -> Result<(), Refusal> {
    let bodies = list_of(alloc, body)?;
    let (mut log, _bodies) = fetch(alloc, disk)?;
    log.replace(alloc, disk, bodies.as_slice())
}

/// A page of this byte alone.
pub fn page(byte: u8) -> Page {
    Page::of([byte; PAGE_BYTES])
}
