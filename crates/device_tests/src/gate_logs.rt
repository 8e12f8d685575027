//! Framed bodies, and logs of one region.

use crate::support::{are_these, fill, framed, put, zeros};
use disk_mem::MemDisk;
use disk_model::Disk;
use gate_log::{Framed, FramedBuilder, GateLog};
use retro_base::{Device, Refusal};
use std::alloc::Global;
use std::test::Fail;

// The body 3, 4, 5, framed where it was written.
fn built(alloc: Global) -> Result<Framed, Refusal> {
    let mut builder = FramedBuilder::new(alloc)?;
    builder.push(3)?;
    builder.extend_from_slice(&[4, 5])?;
    builder.finish()
}

#[test]
fn a_body_is_framed_alone_and_where_it_was_written(rt: HostRuntime) -> Result<(), Fail> {
    let alloc = rt.alloc();
    let want = [0, 0, 0, 3, 3, 4, 5, 0].as_slice();
    let (alone, written) = (framed(alloc, &[3, 4, 5])?, built(alloc)?);
    assert!(rt; alone.len() == 3);
    assert!(rt; [alone.as_bytes(), written.as_bytes()] == [want; 2]);
    Ok(())
}

// Reads a device as one region.
fn read<D: Disk>(alloc: Global, disk: &mut D) -> Result<Option<(GateLog, Vec<Vec<u8>>)>, Refusal> {
    let size = disk.size();
    if size < 17 {
        return Err(Refusal::BadSizes);
    }
    GateLog::read_region(alloc, disk, Device::Log, 0, size)
}

// Where that region's log ends, and whether it is of these bodies; none where it is closed.
fn listed<D: Disk>(
    alloc: Global,
    disk: &mut D,
    bodies: &[&[u8]],
) -> Result<Option<(u64, bool)>, Refusal> {
    match read(alloc, disk)? {
        Some((log, found)) => Ok(Some((log.end(), are_these(found.as_slice(), bodies)))),
        None => Ok(None),
    }
}

fn append<D: Disk>(
    alloc: Global,
    log: &mut GateLog,
    disk: &mut D,
    body: &[u8],
) -> Result<(), Refusal> {
    if log.place() != 0 || log.size() > disk.size() {
        return Err(Refusal::BadSizes);
    }
    let framed = framed(alloc, body)?;
    log.append(disk, &framed)
}

#[test]
fn a_region_counts_once_its_gate_is_open(rt: HostRuntime) -> Result<(), Fail> {
    let alloc = rt.alloc();
    let mut disk = zeros(alloc, 64)?;
    let filled = fill(alloc, &mut disk, &[1, 2]);
    let closed = listed(alloc, &mut disk, &[&[1, 2]]);
    let gate = put(&mut disk, 0, &[0xa5]);
    let open = listed(alloc, &mut disk, &[&[1, 2]]);
    assert!(rt; (filled, gate) == (Ok(()), Ok(())));
    assert!(rt; (closed, open) == (Ok(None), Ok(Some((23, true)))));
    Ok(())
}

// A region with one body whose gate is open.
fn open_region(alloc: Global) -> Result<MemDisk, Refusal> {
    let mut disk = zeros(alloc, 64)?;
    fill(alloc, &mut disk, &[1, 2])?;
    put(&mut disk, 0, &[0xa5])?;
    Ok(disk)
}

#[test]
fn an_append_writes_the_body_and_the_next_gate(rt: HostRuntime) -> Result<(), Fail> {
    let alloc = rt.alloc();
    let mut disk = open_region(alloc)?;
    let (mut log, _bodies) = read(alloc, &mut disk)?.ok_or("closed")?;
    let appended = append(alloc, &mut log, &mut disk, &[3, 4, 5]);
    let want = [
        0xa5, 0, 0, 0, 0, 0, 0, 0, 0, 0, 0, 0, 0, 0, 0, 1, 0xa5, 0, 0, 0, 2, 1, 2, 0xa5, 0, 0, 0,
        3, 3, 4, 5, 0,
    ];
    let written = disk.bytes().starts_with(&want);
    let outcomes = [
        append(alloc, &mut log, &mut disk, &[6; 28]),
        append(alloc, &mut log, &mut disk, &[6; 27]),
    ];
    let (needed, free) = (34, 33);
    assert!(rt; appended == Ok(()) && written);
    assert!(rt; outcomes == [Err(Refusal::NoRoom { needed, free }), Ok(())]);
    assert!(rt; log.free() == 1);
    Ok(())
}

// Fills the first bytes of the device, so many of them, as a region of generation 258 with the body 1, 2.
fn fill_so_many<D: Disk>(alloc: Global, disk: &mut D, size: u64) -> Result<(), Refusal> {
    if size < 17 || size > disk.size() {
        return Err(Refusal::BadSizes);
    }
    let bodies = vec![in alloc; framed(alloc, &[1, 2])?]?;
    let _log = GateLog::new_region(alloc, disk, Device::Log, 0, size, 258, &bodies)?;
    Ok(())
}

#[test]
fn a_region_of_one_body_in_bytes(rt: HostRuntime) -> Result<(), Fail> {
    let alloc = rt.alloc();
    let mut disk = zeros(alloc, 64)?;
    let refused = fill_so_many(alloc, &mut disk, 23);
    let filled = fill_so_many(alloc, &mut disk, 24);
    let want = [
        0, 0, 0, 0, 0, 0, 0, 0, 0, 0, 0, 0, 0, 0, 1, 2, 0xa5, 0, 0, 0, 2, 1, 2, 0,
    ];
    let (needed, free) = (8, 7);
    assert!(rt; (refused, filled) == (Err(Refusal::NoRoom { needed, free }), Ok(())));
    assert!(rt; disk.bytes().starts_with(&want));
    Ok(())
}

// Where the log of an open region with these bytes behind its header ends, and whether it is of the body 1, 2 and an
// empty one.
fn of_records(alloc: Global, records: &[u8]) -> Result<Option<(u64, bool)>, Refusal> {
    let mut disk = zeros(alloc, (records.len() as u64).saturating_add(16))?;
    put(&mut disk, 0, &[0xa5])?;
    put(&mut disk, 16, records)?;
    listed(alloc, &mut disk, &[&[1, 2], &[]])
}

#[test]
fn records_end_at_the_first_closed_gate(rt: HostRuntime) -> Result<(), Fail> {
    let bytes = [
        0xa5, 0, 0, 0, 2, 1, 2, 0xa5, 0, 0, 0, 0, 0xa4, 0xa5, 0, 0, 0, 9,
    ];
    let found = of_records(rt.alloc(), &bytes);
    assert!(rt; found == Ok(Some((28, true))));
    Ok(())
}

#[test]
fn a_record_ends_with_a_gate_inside_the_region(rt: HostRuntime) -> Result<(), Fail> {
    let bytes = [0xa5, 0, 0, 0, 0, 0xa5, 0, 0, 0, 2, 1, 2];
    let found = of_records(rt.alloc(), &bytes);
    let (device, place) = (Device::Log, 21);
    assert!(rt; found == Err(Refusal::NotAStore { device, place }));
    Ok(())
}
