//! Rings of page images.

use crate::support::{calls_of, crash, failing, page, zeros};
use block_file::Pagelog;
use disk_mem::{Call, MemDisk};
use disk_model::Disk;
use retro_base::{Device, Refusal};
use std::alloc::Global;
use std::test::Fail;

// The slots of a device of three.
fn ring_on<D: Disk + Drop>(disk: D) -> Result<Pagelog<D>, Refusal> {
    if disk.size() != 3072 {
        return Err(Refusal::BadSizes);
    }
    Ok(Pagelog::new(disk, 3))
}

// The slots that a crash leaves.
fn left_by(alloc: Global, ring: Pagelog<MemDisk>, fill: u8) -> Result<Pagelog<MemDisk>, Refusal> {
    ring_on(crash(alloc, &ring.into_disk(), fill)?)
}

// Lays a page of this byte alone.
fn lay<D: Disk>(ring: &mut Pagelog<D>, number: u64, byte: u8) -> Result<(), Refusal> {
    ring.lay(number, &page(byte))
}

fn settle<D: Disk>(ring: &mut Pagelog<D>) -> Result<(), Refusal> {
    ring.settle()
}

// Whether the page under that number is of this byte alone.
fn holds<D: Disk>(ring: &mut Pagelog<D>, number: u64, byte: u8) -> Result<bool, Refusal> {
    let mut out = page(!byte);
    ring.fetch(number, &mut out)?;
    Ok(out == page(byte))
}

#[test]
fn a_number_stands_in_its_slot_of_the_ring(rt: HostRuntime) -> Result<(), Fail> {
    let mut ring = ring_on(zeros(rt.alloc(), 3072)?)?;
    let laid = [
        lay(&mut ring, 0, 0x10),
        lay(&mut ring, 2, 0x12),
        lay(&mut ring, 4, 0x14),
        settle(&mut ring),
    ];
    let fetched = [holds(&mut ring, 1, 0x14), holds(&mut ring, 2, 0x12)];
    let last = (lay(&mut ring, u64::MAX, 0xff), holds(&mut ring, 0, 0xff));
    let calls = calls_of(&ring.into_disk());
    assert!(rt; (laid, fetched) == ([Ok(()); 4], [Ok(true); 2]));
    assert!(rt; (last, calls) == ((Ok(()), Ok(true)), [3, 4, 1]));
    Ok(())
}

fn fault(count: u64) -> Result<(), Refusal> {
    let device = Device::Pagelog;
    Err(Refusal::DiskFault { device, count })
}

#[test]
fn a_failed_lay_leaves_its_slot_alone_loose(rt: HostRuntime) -> Result<(), Fail> {
    let alloc = rt.alloc();
    let calls = vec![in alloc; (Call::Write, 2), (Call::Sync, 2)]?;
    let mut ring = ring_on(failing(alloc, 3072, calls)?)?;
    let laid = [
        lay(&mut ring, 0, 0x10),
        settle(&mut ring),
        lay(&mut ring, 4, 0x14),
        settle(&mut ring),
    ];
    let mut left = left_by(alloc, ring, 0xff)?;
    let fetched = [
        holds(&mut left, 0, 0x10),
        holds(&mut left, 1, 0xff),
        holds(&mut left, 2, 0),
    ];
    let want = [Ok(()), Ok(()), fault(1), fault(2)];
    assert!(rt; (laid, fetched) == (want, [Ok(true); 3]));
    Ok(())
}
