//! Files of pages.

use crate::support::{calls_of, crash, failing, page, zeros};
use block_file::PageFile;
use disk_mem::{Call, MemDisk};
use disk_model::Disk;
use retro_base::{Device, Refusal};
use std::alloc::Global;
use std::test::Fail;

// The three pages of a device.
fn pages_on<D: Disk + Drop>(disk: D) -> Result<PageFile<D>, Refusal> {
    if disk.size() != 3072 {
        return Err(Refusal::BadSizes);
    }
    Ok(PageFile::new(disk, 3))
}

// The pages that a crash leaves.
fn left_by(alloc: Global, file: PageFile<MemDisk>, fill: u8) -> Result<PageFile<MemDisk>, Refusal> {
    pages_on(crash(alloc, &file.into_disk(), fill)?)
}

// Writes a page of this byte alone.
fn write<D: Disk>(file: &mut PageFile<D>, number: u32, byte: u8) -> Result<(), Refusal> {
    if number >= file.pages() {
        return Err(Refusal::BadSizes);
    }
    file.write(number, &page(byte))
}

fn settle<D: Disk>(file: &mut PageFile<D>) -> Result<(), Refusal> {
    file.settle()
}

// Whether a page is of this byte alone.
fn holds<D: Disk>(file: &mut PageFile<D>, number: u32, byte: u8) -> Result<bool, Refusal> {
    if number >= file.pages() {
        return Err(Refusal::BadSizes);
    }
    let mut out = page(!byte);
    file.read(number, &mut out)?;
    Ok(out == page(byte))
}

#[test]
fn pages_are_read_as_they_were_written(rt: HostRuntime) -> Result<(), Fail> {
    let mut file = pages_on(zeros(rt.alloc(), 3072)?)?;
    let written = [
        write(&mut file, 0, 0x11),
        write(&mut file, 2, 0x22),
        settle(&mut file),
    ];
    let read = [
        holds(&mut file, 0, 0x11),
        holds(&mut file, 1, 0),
        holds(&mut file, 2, 0x22),
    ];
    assert!(rt; (written, read) == ([Ok(()); 3], [Ok(true); 3]));
    Ok(())
}

#[test]
fn a_settle_alone_syncs(rt: HostRuntime) -> Result<(), Fail> {
    let mut file = pages_on(zeros(rt.alloc(), 3072)?)?;
    let written = [write(&mut file, 0, 0x11), write(&mut file, 2, 0x22)];
    let (settled, read) = (settle(&mut file), holds(&mut file, 0, 0x11));
    let calls = calls_of(&file.into_disk());
    assert!(rt; (written, settled, read) == ([Ok(()); 2], Ok(()), Ok(true)));
    assert!(rt; calls == [1, 2, 1]);
    Ok(())
}

#[test]
fn a_failed_write_leaves_its_page_alone_loose(rt: HostRuntime) -> Result<(), Fail> {
    let alloc = rt.alloc();
    let calls = vec![in alloc; (Call::Write, 2)]?;
    let mut file = pages_on(failing(alloc, 3072, calls)?)?;
    let written = [
        write(&mut file, 0, 0x11),
        settle(&mut file),
        write(&mut file, 1, 0x22),
    ];
    let mut left = left_by(alloc, file, 0xa5)?;
    let read = [
        holds(&mut left, 0, 0x11),
        holds(&mut left, 1, 0xa5),
        holds(&mut left, 2, 0),
    ];
    let (device, count) = (Device::Pages, 1);
    let fault = Err(Refusal::DiskFault { device, count });
    assert!(rt; (written, read) == ([Ok(()), Ok(()), fault], [Ok(true); 3]));
    Ok(())
}
