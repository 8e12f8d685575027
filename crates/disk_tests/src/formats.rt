//! What no clause says: the first bytes of a new store, worked by hand, and that its making succeeds.

use disk_mem::RamDisk;
use disk_model::{Disk, Four, Sizes};
use history::Version;
use opening::open_devices;
use replay::Opened;
use retro_base::{PAGE_BYTES, Page, Refusal};
use std::alloc::Global;
use std::test::Fail;
use store_format::format;

// A region of generation 1; a base of sixteen pages and capacity 64, no snapshot, the oldest 1 and the newest 0; and
// the closed gate.
const LOG: [u8; 61] = [
    0xA5, 0, 0, 0, 0, 0, 0, 0, 0, 0, 0, 0, 0, 0, 0, 1, 0xA5, 0, 0, 0, 39, //
    1, 0, 1, 0, 0, 0, 0x10, 0, 0, 0, 0x40, 0, 0, 0, 0, 0, 0, 0, 0, 0, 0, 0, 0, 0, 0, 0, 0, 0, 0, 0,
    1, 0, 0, 0, 0, 0, 0, 0, 0, 0,
];

// A region of generation 1; a start from 0 on with capacity 64; and the closed gate.
const MAPLOG: [u8; 37] = [
    0xA5, 0, 0, 0, 0, 0, 0, 0, 0, 0, 0, 0, 0, 0, 0, 1, 0xA5, 0, 0, 0, 15, //
    1, 0, 1, 0, 0, 0, 0, 0, 0, 0, 0, 0, 0, 0, 0x40, 0,
];

// The devices of a new store of sixteen pages and capacity 64; none where they have other sizes.
fn formatted<D: Disk + Drop>(alloc: Global, disks: Four<D>) -> Option<Four<D>> {
    let sizes = Sizes {
        pages: 16,
        capacity: 64,
    };
    if disks.log.size() != sizes.log_bytes()
        || disks.pages.size() != sizes.pages_bytes()
        || disks.pagelog.size() != sizes.pagelog_bytes()
        || disks.maplog.size() != sizes.maplog_bytes()
    {
        return None;
    }
    format(alloc, Version::One, disks, sizes).ok()
}

fn zeros(alloc: Global) -> Result<Four<RamDisk>, Refusal> {
    Ok(Four {
        log: RamDisk::new(alloc, 33_554_432)?,
        pages: RamDisk::new(alloc, 16_384)?,
        pagelog: RamDisk::new(alloc, 65_536)?,
        maplog: RamDisk::new(alloc, 12_288)?,
    })
}

// Whether the device begins with these bytes, and has zeros behind them up to 64.
fn begins_with<D: Disk>(disk: &mut D, bytes: &[u8]) -> bool {
    let mut front = [0; 64];
    if disk.size() < 64 || disk.read_at(0, &mut front).is_err() || bytes.len() > 64 {
        return false;
    }
    let (begun, rest) = front.split_at(bytes.len());
    begun == bytes && rest.iter().all(|byte| *byte == 0)
}

// Whether this is the empty store of sixteen pages and capacity 64.
fn is_empty(store: &Opened) -> bool {
    let base = &store.base;
    let zero = Page::of([0; PAGE_BYTES]);
    let pages = store.pages.as_slice();
    (base.page_count, base.capacity, base.changes, base.captures) == (16, 64, 0, 0)
        && base.marks.is_empty()
        && base.captured.is_empty()
        && pages.len() == 16
        && pages.iter().all(|page| *page == zero)
        && (store.low, store.held) == (0, 0)
        && store.captures.is_empty()
}

// Whether a new store has its bytes, and opens to the empty one.
fn is_made(alloc: Global) -> Result<bool, Refusal> {
    let Some(mut disks) = formatted(alloc, zeros(alloc)?) else {
        return Ok(false);
    };
    let written = begins_with(&mut disks.log, &LOG) && begins_with(&mut disks.maplog, &MAPLOG);
    Ok(written && is_empty(&open_devices(alloc, Version::One, &mut disks)?))
}

#[test]
fn a_new_store_has_its_bytes_and_is_empty(rt: HostRuntime) -> Result<(), Fail> {
    assert!(rt; is_made(rt.alloc()) == Ok(true));
    Ok(())
}
