//! Stores that open, and the first break of those that do not. One log is used for many openings, since it is large.

use crate::{begin, made, put};
use disk_mem::{Call, MemDisk, RamDisk};
use disk_model::{Disk, Four};
use history::Version;
use opening::open_devices;
use replay::Opened;
use retro_base::{Device, PAGE_BYTES, Page, Refusal};
use std::alloc::Global;
use std::test::Fail;

// How many pages and captures the store on the devices has.
fn open<D: Disk>(alloc: Global, disks: &mut Four<D>) -> Result<(usize, usize), Refusal> {
    let store = open_devices(alloc, Version::One, disks)?;
    Ok((store.pages.len(), store.captures.len()))
}

#[test]
fn a_made_store_opens(rt: HostRuntime) -> Result<(), Fail> {
    let alloc = rt.alloc();
    let mut disks = made(alloc)?;
    assert!(rt; open(alloc, &mut disks) == Ok((16, 0)));
    Ok(())
}

// Bytes that are put on a device from that place on.
type Patch = (Device, u64, &'static [u8]);

fn put_all<D: Disk>(disks: &mut Four<D>, patches: &[Patch]) -> Result<(), Refusal> {
    for (device, place, bytes) in patches {
        put(disks, *device, *place, bytes)?;
    }
    Ok(())
}

// What is put over a made store, the device and the place that are then told, and what was there.
type Damage = (&'static [Patch], Device, u64, &'static [Patch]);

const DAMAGES: [Damage; 15] = [
    // No header of the log is open.
    (
        &[(Device::Log, 0, &[0])],
        Device::Log,
        0,
        &[(Device::Log, 0, &[0xA5])],
    ),
    // Two are, both of generation 1.
    (
        &[
            (Device::Log, 16_777_216, &[0xA5]),
            (Device::Log, 16_777_231, &[1]),
        ],
        Device::Log,
        0,
        &[
            (Device::Log, 16_777_216, &[0]),
            (Device::Log, 16_777_231, &[0]),
        ],
    ),
    // The base's length passes the region.
    (
        &[(Device::Log, 17, &[0xFF])],
        Device::Log,
        16,
        &[(Device::Log, 17, &[0])],
    ),
    // It is a byte too long.
    (
        &[(Device::Log, 20, &[0x28])],
        Device::Log,
        16,
        &[(Device::Log, 20, &[0x27])],
    ),
    // Its version is 3.
    (
        &[(Device::Log, 23, &[3])],
        Device::Log,
        16,
        &[(Device::Log, 23, &[1])],
    ),
    // It has 15 pages.
    (
        &[(Device::Log, 27, &[0x0F])],
        Device::Log,
        16,
        &[(Device::Log, 27, &[0x10])],
    ),
    // A drop stands in its place.
    (
        &[(Device::Log, 16, &[0xA5, 0, 0, 0, 5, 3, 0, 0, 0, 2, 0])],
        Device::Log,
        16,
        &[(Device::Log, 16, &[0xA5, 0, 0, 0, 39, 1, 0, 1, 0, 0, 0])],
    ),
    // A drop stands behind it, of a snapshot that was never declared.
    (
        &[(Device::Log, 60, &[0xA5, 0, 0, 0, 5, 3, 0, 0, 0, 2])],
        Device::Log,
        60,
        &[(Device::Log, 60, &[0; 10])],
    ),
    // So it does, and the length of the record behind it passes the region.
    (
        &[(
            Device::Log,
            60,
            &[0xA5, 0, 0, 0, 5, 3, 0, 0, 0, 2, 0xA5, 0xFF],
        )],
        Device::Log,
        70,
        &[(Device::Log, 60, &[0; 12])],
    ),
    // No header of the Maplog is open.
    (
        &[(Device::Maplog, 0, &[0])],
        Device::Maplog,
        0,
        &[(Device::Maplog, 0, &[0xA5])],
    ),
    // Two are, both of generation 1.
    (
        &[
            (Device::Maplog, 6144, &[0xA5]),
            (Device::Maplog, 6159, &[1]),
        ],
        Device::Maplog,
        0,
        &[(Device::Maplog, 6144, &[0]), (Device::Maplog, 6159, &[0])],
    ),
    // The length of its second record passes the region.
    (
        &[(Device::Maplog, 36, &[0xA5, 0, 0, 0x17, 0xE8])],
        Device::Maplog,
        36,
        &[(Device::Maplog, 36, &[0; 5])],
    ),
    // Its capacity is 65.
    (
        &[(Device::Maplog, 35, &[0x41])],
        Device::Maplog,
        16,
        &[(Device::Maplog, 35, &[0x40])],
    ),
    // Its mappings begin, and end, at 1.
    (
        &[(Device::Maplog, 31, &[1])],
        Device::Maplog,
        36,
        &[(Device::Maplog, 31, &[0])],
    ),
    // It maps page 7, which nothing captured.
    (
        &[(Device::Maplog, 36, &MAPPING_OF_PAGE_7)],
        Device::Maplog,
        56,
        &[(Device::Maplog, 36, &[0; 20])],
    ),
];

// A run of one mapping, number 0, of page 7.
const MAPPING_OF_PAGE_7: [u8; 20] = [
    0xA5, 0, 0, 0, 15, 2, 0, 0, 0, 0, 0, 0, 0, 0, 0, 0, 0, 1, 0, 7,
];

// Whether the damaged devices break first in that one, at that place. What was there is put back.
fn breaks_so<D: Disk>(
    alloc: Global,
    disks: &mut Four<D>,
    damage: &Damage,
) -> Result<bool, Refusal> {
    let (patches, device, place, before) = *damage;
    put_all(disks, patches)?;
    let opened = open(alloc, disks);
    put_all(disks, before)?;
    Ok(opened == Err(Refusal::NotAStore { device, place }))
}

// The first row that is not as it happens; with none of them the devices open.
fn first_wrong<D: Disk>(alloc: Global, disks: &mut Four<D>) -> Result<Option<usize>, Refusal> {
    for (i, damage) in DAMAGES.iter().enumerate() {
        if !breaks_so(alloc, disks, damage)? {
            return Ok(Some(i));
        }
    }
    open(alloc, disks)?;
    Ok(None)
}

#[test]
fn a_damaged_device_is_told_with_its_place(rt: HostRuntime) -> Result<(), Fail> {
    let alloc = rt.alloc();
    let mut disks = made(alloc)?;
    assert!(rt; first_wrong(alloc, &mut disks) == Ok(None));
    Ok(())
}

// Puts a device of zeros, and of that size, in the place of one.
fn resize(
    alloc: Global,
    disks: &mut Four<RamDisk>,
    device: Device,
    size: u64,
) -> Result<(), Refusal> {
    let disk = RamDisk::new(alloc, size)?;
    match device {
        Device::Log => disks.log = disk,
        Device::Pages => disks.pages = disk,
        Device::Pagelog => disks.pagelog = disk,
        Device::Maplog => disks.maplog = disk,
        Device::Cabinet => return Err(Refusal::BadSizes),
    }
    Ok(())
}

// The first size of these that is not told. Each device is looked at before those behind it, whose sizes are wrong
// already.
fn first_untold(alloc: Global) -> Result<Option<usize>, Refusal> {
    let mut disks = made(alloc)?;
    let sizes = [
        (Device::Maplog, 12_287),
        (Device::Maplog, 12_290),
        (Device::Pagelog, 65_535),
        (Device::Pagelog, 66_560),
        (Device::Pages, 16_383),
        (Device::Pages, 17_408),
        (Device::Log, 1024),
    ];
    for (i, (device, place)) in sizes.into_iter().enumerate() {
        resize(alloc, &mut disks, device, place)?;
        if open(alloc, &mut disks) != Err(Refusal::NotAStore { device, place }) {
            return Ok(Some(i));
        }
    }
    Ok(None)
}

#[test]
fn a_device_of_another_size_is_told(rt: HostRuntime) -> Result<(), Fail> {
    assert!(rt; first_untold(rt.alloc()) == Ok(None));
    Ok(())
}

// Over the base of sixteen pages: its thousand pages; a commit that sets page 7 to 0x11 and then declares a snapshot
// with the label a; and one that sets pages 7 and 8 to 0x22 and 0x33, and so captures both. The Maplog has the mapping
// of the first capture alone.
const GROWN: [Patch; 11] = [
    (Device::Log, 24, &[0, 0, 3, 0xE8]),
    (
        Device::Log,
        60,
        &[0xA5, 0, 0, 4, 8, 2, 1, 1, 0x61, 0, 1, 0, 7],
    ),
    (Device::Log, 73, &[0x11; PAGE_BYTES]),
    (Device::Log, 1097, &[0xA5, 0, 0, 8, 8, 2, 0, 0, 2, 0, 7]),
    (Device::Log, 1108, &[0x22; PAGE_BYTES]),
    (Device::Log, 2132, &[0, 8]),
    (Device::Log, 2134, &[0x33; PAGE_BYTES]),
    (Device::Pages, 1_022_976, &[0x44; PAGE_BYTES]),
    (Device::Pages, 8192, &[0x55; PAGE_BYTES]),
    (Device::Pagelog, 0, &[0x11; PAGE_BYTES]),
    (Device::Maplog, 36, &MAPPING_OF_PAGE_7),
];

fn grown(alloc: Global) -> Result<Four<RamDisk>, Refusal> {
    let mut disks = made(alloc)?;
    disks.pages = RamDisk::new(alloc, 1_024_000)?;
    put_all(&mut disks, &GROWN)?;
    Ok(disks)
}

// The byte that the page of that number is of.
fn byte_of(store: &Opened, number: usize) -> Option<u8> {
    one_byte(store.pages.as_slice().get(number)?)
}

// The page of the capture in that place, and the byte that it is of.
fn capture_of(store: &Opened, place: usize) -> Option<(u32, u8)> {
    let image = store.captures.as_slice().get(place)?;
    Some((image.page, one_byte(&image.bytes)?))
}

fn one_byte(page: &Page) -> Option<u8> {
    let byte = *page.bytes().first()?;
    if *page == Page::of([byte; PAGE_BYTES]) {
        Some(byte)
    } else {
        None
    }
}

// Of the store that the devices open to: how many pages and captures it has, how many of these the archive holds, the
// pages 0, 7, 8 and 999, and the captures.
#[derive(Clone, Copy, Debug, PartialEq, Eq)]
struct Told {
    counts: (usize, usize, u64),
    pages: [Option<u8>; 4],
    captures: [Option<(u32, u8)>; 2],
}

fn opens_to<D: Disk>(alloc: Global, disks: &mut Four<D>) -> Result<Told, Refusal> {
    let store = open_devices(alloc, Version::One, disks)?;
    Ok(Told {
        counts: (store.pages.len(), store.captures.len(), store.held),
        pages: [
            byte_of(&store, 0),
            byte_of(&store, 7),
            byte_of(&store, 8),
            byte_of(&store, 999),
        ],
        captures: [capture_of(&store, 0), capture_of(&store, 1)],
    })
}

#[test]
fn a_store_opens_to_what_its_log_and_its_archive_say(rt: HostRuntime) -> Result<(), Fail> {
    let alloc = rt.alloc();
    let want = Told {
        counts: (1000, 2, 1),
        pages: [Some(0), Some(0x22), Some(0x33), Some(0x44)],
        captures: [Some((7, 0x11)), Some((8, 0x55))],
    };
    let mut disks = grown(alloc)?;
    assert!(rt; opens_to(alloc, &mut disks) == Ok(want));
    Ok(())
}

// Declares so many snapshots without a label behind the base, in records of ten bytes.
fn declare<D: Disk>(disks: &mut Four<D>, count: u64) -> Result<(), Refusal> {
    for index in 0..count {
        let place = index.saturating_mul(10).saturating_add(60);
        put(
            disks,
            Device::Log,
            place,
            &[0xA5, 0, 0, 0, 5, 2, 1, 0, 0, 0],
        )?;
    }
    Ok(())
}

// What devices of 5,000 snapshots open to, and what they do with a drop of the first one, which is no drop, behind
// them.
fn opened_long(alloc: Global) -> Result<[Result<(usize, usize), Refusal>; 2], Refusal> {
    let mut disks = made(alloc)?;
    declare(&mut disks, 5000)?;
    let whole = open(alloc, &mut disks);
    put(
        &mut disks,
        Device::Log,
        50_060,
        &[0xA5, 0, 0, 0, 5, 3, 0, 0, 0, 1],
    )?;
    Ok([whole, open(alloc, &mut disks)])
}

#[test]
fn a_break_behind_five_thousand_records_is_told_with_its_place(
    rt: HostRuntime,
) -> Result<(), Fail> {
    let (device, place) = (Device::Log, 50_060);
    let want = [Ok((16, 0)), Err(Refusal::NotAStore { device, place })];
    assert!(rt; opened_long(rt.alloc()) == Ok(want));
    Ok(())
}

// A device of so many bytes that tells its calls.
fn counting(alloc: Global, size: u64) -> Result<MemDisk, Refusal> {
    MemDisk::new(alloc, size, Vec::new(alloc), None)
}

// How many reads, writes and syncs of the device there were.
fn calls_of(disk: &MemDisk) -> [u64; 3] {
    [Call::Read, Call::Write, Call::Sync].map(|call| disk.calls(call))
}

// The calls that each device of a made store has for an opening, beside the write of its first records.
fn calls_of_an_opening(alloc: Global) -> Result<[[u64; 3]; 4], Refusal> {
    let mut disks = Four {
        log: counting(alloc, 33_554_432)?,
        pages: counting(alloc, 16_384)?,
        pagelog: counting(alloc, 65_536)?,
        maplog: counting(alloc, 12_288)?,
    };
    begin(&mut disks)?;
    open(alloc, &mut disks)?;
    Ok([
        calls_of(&disks.log),
        calls_of(&disks.pages),
        calls_of(&disks.pagelog),
        calls_of(&disks.maplog),
    ])
}

#[test]
fn an_opening_reads_each_page_once_and_syncs_the_lists(rt: HostRuntime) -> Result<(), Fail> {
    let calls = calls_of_an_opening(rt.alloc());
    assert!(rt; calls == Ok([[3, 1, 1], [16, 0, 0], [64, 0, 0], [3, 1, 1]]));
    Ok(())
}
