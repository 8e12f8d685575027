//! What no clause says: devices worked by hand, byte for byte, that calls succeed, and what is read in the end.

use crate::support::{
    MAPLOG_BYTES, PAGELOG_BYTES, SMALL, batch_of, capture, empty, empty_maplog, finds,
    first_unread, first_unsent, page, send, send_one, zeros,
};
use crate::trial::{Trial, make};
use disk_mem::{Call, MemDisk, RamDisk};
use disk_model::{Disk, Sizes};
use race_model::{Batch, Fault};
use retro_base::{BATCH, Device, Refusal};
use std::alloc::Global;
use std::test::Fail;

// Two captures of page 7, and the mapping of the first forgotten.
const TWO_OF_PAGE_7: [u8; 37] = [
    0xA5, 0, 0, 0, 17, 2, 0, 0, 0, 0, 0, 0, 0, 0, 0, 0, 0, 2, 0, 7, 0, 7, //
    0xA5, 0, 0, 0, 9, 3, 0, 0, 0, 0, 0, 0, 0, 1, 0,
];

fn stands_at(disk: &MemDisk, place: usize, want: &[u8]) -> bool {
    let bytes = disk.bytes();
    bytes.len() >= place && bytes[place..].starts_with(want)
}

#[test]
fn a_page_twice_in_one_batch(rt: HostRuntime) -> Result<(), Fail> {
    let alloc = rt.alloc();
    let mut trial = empty(alloc)?;
    let batch = batch_of(alloc, 0, 0, &[(7, 1), (7, 2)])?;
    let sent = send(&mut trial, &batch);
    let found = [
        finds(alloc, &mut trial, (0, 7, 2, Some(1))),
        finds(alloc, &mut trial, (1, 7, 2, Some(2))),
        finds(alloc, &mut trial, (0, 8, 2, None)),
        finds(alloc, &mut trial, (0, 7, 0, None)),
    ];
    let trimmed = trial.trim(1);
    let (_pagelog, maplog) = trial.into_disks();
    assert!(rt; (sent, found, trimmed) == (Ok(2), [Ok(true); 4], Ok(())));
    assert!(rt; stands_at(&maplog, 36, &TWO_OF_PAGE_7));
    Ok(())
}

#[test]
fn the_ring_wraps(rt: HostRuntime) -> Result<(), Fail> {
    let alloc = rt.alloc();
    let mut trial = empty(alloc)?;
    let filled = first_unsent(alloc, &mut trial, 64);
    let trimmed = trial.trim(1);
    let wrapped = send_one(alloc, &mut trial, 64, 63);
    let unread = first_unread(alloc, &mut trial, 1, 65);
    let (pagelog, _maplog) = trial.into_disks();
    assert!(rt; (filled, trimmed, wrapped) == (Ok(None), Ok(()), Ok(true)));
    assert!(rt; (unread, stands_at(&pagelog, 0, &[65; 1024])) == (Ok(None), true));
    Ok(())
}

#[test]
fn a_thousand_captures_pass_the_region(rt: HostRuntime) -> Result<(), Fail> {
    let alloc = rt.alloc();
    let mut trial = empty(alloc)?;
    let sent = first_unsent(alloc, &mut trial, 1000);
    let unread = first_unread(alloc, &mut trial, 936, 1000);
    assert!(rt; (sent, unread, trial.held()) == (Ok(None), Ok(None), 1000));
    Ok(())
}

// Adds the capture of that number to a batch that is not full.
fn add(batch: &mut Batch, number: u64) {
    if batch.len() < BATCH {
        let (number, byte) = capture(number);
        batch.add(number, &page(byte));
    }
}

// A store of 16 pages and 8,192 slots.
const LARGE: Sizes = Sizes {
    pages: 16,
    capacity: 8_192,
};

// Sends 8,192 captures in batches of 64.
fn fill<D: Disk + Drop>(alloc: Global, trial: &mut Trial<D>) -> Result<(), Refusal> {
    let mut batch = Batch::new(alloc)?;
    for number in 0..u64::from(LARGE.capacity) {
        if number % 64 == 0 {
            batch.restart(number, 0);
        }
        add(&mut batch, number);
        if number % 64 == 63 && send(trial, &batch).is_err() {
            return Err(Refusal::BadSizes);
        }
    }
    Ok(())
}

// An archive of 8,192 captures that was opened again.
fn full(alloc: Global) -> Result<Trial<RamDisk>, Refusal> {
    let mut maplog = RamDisk::new(alloc, 532_480)?;
    make(alloc, &mut maplog, LARGE)?;
    let mut trial = Trial::open(alloc, RamDisk::new(alloc, 8_388_608)?, maplog, LARGE)?;
    fill(alloc, &mut trial)?;
    let (pagelog, maplog) = trial.into_disks();
    Trial::open(alloc, pagelog, maplog, LARGE)
}

// How many mappings there are, the first and the last, and where slots and list end.
type Extent = (usize, Option<(u64, u32)>, Option<(u64, u32)>, u64, u64);

fn extent<D: Disk + Drop>(trial: &Trial<D>) -> Result<Extent, Refusal> {
    let mappings = trial.mappings()?;
    let (first, last) = (mappings.first().copied(), mappings.last().copied());
    Ok((mappings.len(), first, last, trial.laid(), trial.end()))
}

#[test]
fn thousands_of_captures_are_opened(rt: HostRuntime) -> Result<(), Fail> {
    let alloc = rt.alloc();
    let mut trial = full(alloc)?;
    let found = [
        finds(alloc, &mut trial, (0, 0, 1, Some(1))),
        finds(alloc, &mut trial, (4096, 0, 8192, Some(81))),
        finds(alloc, &mut trial, (8177, 15, 8192, Some(160))),
    ];
    // Behind the list's 36 bytes, 128 runs of 64 pages of two bytes.
    let want = (8192, Some((0, 0)), Some((8191, 15)), 8192, 36 + 128 * 146);
    assert!(rt; (extent(&trial), found) == (Ok(want), [Ok(true); 3]));
    Ok(())
}

// An archive without a capture, of whose Maplog that write fails.
fn failing(alloc: Global, write: u64) -> Result<Trial<MemDisk>, Refusal> {
    let calls = vec![in alloc; (Call::Write, write)]?;
    let maplog = empty_maplog(alloc)?.again(alloc, calls, None)?;
    Trial::open(alloc, zeros(alloc, PAGELOG_BYTES)?, maplog, SMALL)
}

#[test]
fn a_fault_of_the_maplog_stops_the_archive(rt: HostRuntime) -> Result<(), Fail> {
    let alloc = rt.alloc();
    let mut trial = failing(alloc, 2)?;
    let batch = batch_of(alloc, 0, 0, &[(3, 4)])?;
    let first = send(&mut trial, &batch);
    let second = trial.lay(&batch);
    let (device, count) = (Device::Maplog, 1);
    let faults = [
        (Refusal::DiskFault { device, count }, true),
        (Refusal::Stopped { device, count }, false),
    ];
    let want = faults.map(|(why, wrote)| Fault { why, wrote });
    assert!(rt; (first, second, trial.held()) == (Err(want[0]), Err(want[1]), 0));
    Ok(())
}

#[test]
fn a_stopped_archive_finds(rt: HostRuntime) -> Result<(), Fail> {
    let alloc = rt.alloc();
    let mut trial = failing(alloc, 4)?;
    let sent = [
        send(&mut trial, &batch_of(alloc, 0, 0, &[(3, 4)])?).is_ok(),
        send(&mut trial, &batch_of(alloc, 1, 0, &[(5, 6)])?).is_ok(),
        trial.trim(1).is_ok(),
    ];
    let found = [
        finds(alloc, &mut trial, (0, 3, 1, Some(4))),
        finds(alloc, &mut trial, (0, 5, 1, None)),
    ];
    assert!(rt; (sent, found) == ([true, false, false], [Ok(true); 2]));
    Ok(())
}
