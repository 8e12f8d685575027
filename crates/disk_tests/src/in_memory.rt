//! What no clause says: that calls succeed, and what crashes leave, byte for byte.

use disk_mem::{Call, MemDisk, RamDisk};
use disk_model::{Disk, Failed};
use retro_base::Refusal;
use std::alloc::Global;
use std::test::Fail;

// Each call stands in a function without clauses, so that the tests stay cheap to prove. A call fails where it
// passes the end of the device.

fn write<D: Disk>(disk: &mut D, place: u64, bytes: &[u8]) -> Result<(), Failed> {
    let size = disk.size();
    if place > size || size - place < bytes.len() as u64 {
        return Err(Failed);
    }
    disk.write_at(place, bytes)
}

fn read<D: Disk>(disk: &mut D, place: u64, out: &mut [u8]) -> Result<(), Failed> {
    let size = disk.size();
    if place > size || size - place < out.len() as u64 {
        return Err(Failed);
    }
    disk.read_at(place, out)
}

fn sync<D: Disk>(disk: &mut D) -> Result<(), Failed> {
    disk.sync()
}

fn new(
    alloc: Global,
    size: u64,
    failing: Vec<(Call, u64)>,
    stop: Option<u64>,
) -> Result<MemDisk, Refusal> {
    MemDisk::new(alloc, size, failing, stop)
}

fn holds(disk: &MemDisk, bytes: &[u8]) -> bool {
    disk.bytes() == bytes
}

// Whether a crash with that fill leaves these bytes.
fn leaves(alloc: Global, disk: &MemDisk, fill: u8, bytes: &[u8]) -> Result<bool, Refusal> {
    Ok(disk.crash(alloc, fill)?.bytes() == bytes)
}

// Whether a crash that takes the loose bytes from `left` leaves these bytes.
fn leaves_as(alloc: Global, disk: &MemDisk, left: &[u8], bytes: &[u8]) -> Result<bool, Refusal> {
    if left.len() != disk.bytes().len() {
        return Err(Refusal::BadSizes);
    }
    Ok(disk.crash_as(alloc, left)?.bytes() == bytes)
}

// How many reads, writes and syncs there were, and how many calls have failed.
fn counts(disk: &MemDisk) -> [u64; 4] {
    let calls = [Call::Read, Call::Write, Call::Sync].map(|call| disk.calls(call));
    [calls[0], calls[1], calls[2], disk.faults()]
}

#[test]
fn a_crash_fills_what_no_sync_stands_behind(rt: HostRuntime) -> Result<(), Fail> {
    let alloc = rt.alloc();
    let mut disk = new(alloc, 8, Vec::new(alloc), None)?;
    let first = [
        write(&mut disk, 1, &[1, 2, 3]),
        sync(&mut disk),
        write(&mut disk, 3, &[4, 5]),
    ];
    let seen = holds(&disk, &[0, 1, 2, 4, 5, 0, 0, 0]);
    let loose = leaves(alloc, &disk, 0xa5, &[0, 1, 2, 0xa5, 0xa5, 0, 0, 0])?;
    let last = sync(&mut disk);
    let settled = leaves(alloc, &disk, 0xa5, &[0, 1, 2, 4, 5, 0, 0, 0])?;
    assert!(rt; (first, last) == ([Ok(()); 3], Ok(())));
    assert!(rt; seen && loose && settled);
    Ok(())
}

#[test]
fn a_crash_leaves_half_a_write(rt: HostRuntime) -> Result<(), Fail> {
    let alloc = rt.alloc();
    let mut disk = new(alloc, 6, Vec::new(alloc), None)?;
    let calls = [
        write(&mut disk, 0, &[1, 1]),
        sync(&mut disk),
        write(&mut disk, 1, &[2, 2, 2, 2]),
    ];
    let left = leaves_as(alloc, &disk, &[9, 2, 2, 7, 7, 9], &[1, 2, 2, 7, 7, 0])?;
    assert!(rt; (calls, left) == ([Ok(()); 3], true));
    Ok(())
}

// Whether a device takes its second half in one write, which a sync makes durable.
fn takes_half(alloc: Global, count: usize) -> Result<bool, Refusal> {
    let half = vec![in alloc; 0xa5; count]?;
    let mut disk = new(
        alloc,
        (count as u64).saturating_mul(2),
        Vec::new(alloc),
        None,
    )?;
    let calls = [write(&mut disk, count as u64, &half), sync(&mut disk)];
    let left = disk.crash(alloc, 0)?;
    Ok(calls == [Ok(()); 2] && left.bytes().ends_with(&half))
}

#[test]
fn a_device_of_32_mib_takes_half_of_it_at_once(rt: HostRuntime) -> Result<(), Fail> {
    let taken = takes_half(rt.alloc(), 16_777_216)?;
    assert!(rt; taken);
    Ok(())
}

// Each place of forty has its number, of which the first twenty are durable, in a crash that fills with 0xa5.
const LEFT_OF_FORTY: [u8; 40] = [
    0, 1, 2, 3, 4, 5, 6, 7, 8, 9, 10, 11, 12, 13, 14, 15, 16, 17, 18, 19, 0xa5, 0xa5, 0xa5, 0xa5,
    0xa5, 0xa5, 0xa5, 0xa5, 0xa5, 0xa5, 0xa5, 0xa5, 0xa5, 0xa5, 0xa5, 0xa5, 0xa5, 0xa5, 0xa5, 0xa5,
];

// Writes the number of each place of forty into it, and syncs behind the first twenty.
fn write_forty<D: Disk>(disk: &mut D) -> Result<(), Failed> {
    for place in 0..40u8 {
        if place == 20 {
            sync(disk)?;
        }
        write(disk, u64::from(place), &[place])?;
    }
    Ok(())
}

#[test]
fn forty_writes_are_loose_behind_the_last_sync(rt: HostRuntime) -> Result<(), Fail> {
    let alloc = rt.alloc();
    let mut disk = new(alloc, 40, Vec::new(alloc), None)?;
    let written = write_forty(&mut disk);
    let left = leaves(alloc, &disk, 0xa5, &LEFT_OF_FORTY)?;
    assert!(rt; (written, left, counts(&disk)) == (Ok(()), true, [0, 40, 1, 0]));
    Ok(())
}

#[test]
fn listed_calls_fail(rt: HostRuntime) -> Result<(), Fail> {
    let alloc = rt.alloc();
    let failing = vec![in alloc; (Call::Write, 2), (Call::Sync, 1), (Call::Read, 2)]?;
    let mut disk = new(alloc, 4, failing, None)?;
    let mut out = [9; 2];
    let outcomes = [
        write(&mut disk, 0, &[1, 2]),
        write(&mut disk, 1, &[3, 4]),
        sync(&mut disk),
        read(&mut disk, 1, &mut out),
        read(&mut disk, 0, &mut out),
    ];
    let left = leaves(alloc, &disk, 0xff, &[0xff, 0xff, 0xff, 0])?;
    assert!(rt; outcomes == [Ok(()), Err(Failed), Err(Failed), Ok(()), Err(Failed)]);
    assert!(rt; (out, counts(&disk), left) == ([2, 0], [2, 2, 1, 3], true));
    Ok(())
}

#[test]
fn a_call_behind_the_stop_changes_nothing(rt: HostRuntime) -> Result<(), Fail> {
    let alloc = rt.alloc();
    let mut disk = new(alloc, 4, Vec::new(alloc), Some(2))?;
    let outcomes = [
        write(&mut disk, 0, &[1, 2]),
        sync(&mut disk),
        write(&mut disk, 0, &[3]),
        sync(&mut disk),
    ];
    let left = leaves(alloc, &disk, 0xff, &[1, 2, 0, 0])?;
    let mut again = disk.again(alloc, Vec::new(alloc), None)?;
    let goes_on = write(&mut again, 0, &[3]);
    assert!(rt; outcomes == [Ok(()), Ok(()), Err(Failed), Err(Failed)]);
    assert!(rt; left && goes_on.is_ok() && holds(&again, &[3, 2, 0, 0]));
    Ok(())
}

#[test]
fn a_ram_disk_reads_what_was_written(rt: HostRuntime) -> Result<(), Fail> {
    let mut disk = RamDisk::new(rt.alloc(), 4)?;
    let mut out = [9; 4];
    let outcomes = [
        write(&mut disk, 1, &[1, 2]),
        sync(&mut disk),
        read(&mut disk, 0, &mut out),
    ];
    assert!(rt; (outcomes, out) == ([Ok(()); 3], [0, 1, 2, 0]));
    assert!(rt; (disk.size(), disk.faults()) == (4, 0));
    Ok(())
}
