//! A Maplog that is full: on its device no more records fit.

ghost use Rattle.std.specs.Prelude.{◌≡◌, ◌*◌, IfOk};

use crate::bodies::{PAGES, low_mark, run};
use disk_mem::RamDisk;
use disk_model::{Disk, Sizes};
use gate_log::Framed;
use history::Version;
use map_log::MapLog;
use retro_base::{MAX_CAPACITY, Refusal};
use skippy::Mappings;
use std::alloc::Global;

// The mappings of a run.
const RUN: u64 = 64;

fn make<D: Disk>(alloc: Global, disk: &mut D, sizes: Sizes) -> Result<(), Refusal> {
    if sizes.capacity > MAX_CAPACITY || disk.size() != sizes.maplog_bytes() {
        return Err(Refusal::BadSizes);
    }
    MapLog::make(alloc, disk, Version::One, sizes.capacity)
}

// The log of the device, and the mappings that it lists.
fn fetch<D: Disk>(alloc: Global, disk: &mut D, sizes: Sizes) -> Result<(MapLog, Mappings), Refusal>
    ensures { IfOk result (λ p. D.extent disk.new ≡ 2 * p.0.area.log.size) }
{
    if sizes.capacity > MAX_CAPACITY || sizes.pages > PAGES {
        return Err(Refusal::BadSizes);
    }
    MapLog::fetch(alloc, disk, Version::One, sizes)
}

fn add<D: Disk>(alloc: Global, log: &mut MapLog, disk: &mut D, body: &[u8]) -> Result<(), Refusal>
    requires { D.extent disk.old ≡ 2 * log.old.area.log.size }
    ensures { D.extent disk.new ≡ 2 * log.new.area.log.size }
{
    if body.len() as u64 > u64::from(u32::MAX) {
        return Err(Refusal::BadSizes);
    }
    let framed = Framed::new(alloc, body)?;
    log.add(disk, &framed)
}

// Adds a run of the mappings from this one on, behind a low mark where more would be kept than there are slots.
fn add_run<D: Disk>(
    alloc: Global,
    log: &mut MapLog,
    disk: &mut D,
    first: u64,
    slots: u64,
) -> Result<(), Refusal>
    requires { D.extent disk.old ≡ 2 * log.old.area.log.size }
    ensures { D.extent disk.new ≡ 2 * log.new.area.log.size }
{
    if first >= slots {
        let low = first.saturating_sub(slots).saturating_add(RUN);
        add(alloc, log, disk, &low_mark(alloc, low)?)?;
    }
    add(alloc, log, disk, &run(alloc, first, RUN)?)
}

// Adds runs until no low mark and run fit.
#[inline(never)]
fn fill<D: Disk>(alloc: Global, disk: &mut D, sizes: Sizes) -> Result<(), Refusal> {
    let (mut log, _none) = fetch(alloc, disk, sizes)?;
    for index in 0..u64::from(u32::MAX) {
        if !log.has_room_for(RUN as usize) {
            break;
        }
        add_run(
            alloc,
            &mut log,
            disk,
            index * RUN,
            u64::from(sizes.capacity),
        )?;
    }
    Ok(())
}

// The lowest mapping and the end of what the device lists.
#[inline(never)]
fn listed<D: Disk>(alloc: Global, disk: &mut D, sizes: Sizes) -> Result<(u64, u64), Refusal> {
    let (_log, mappings) = fetch(alloc, disk, sizes)?;
    Ok((mappings.low(), mappings.end()))
}

/// The lowest mapping and the end of a full Maplog of so many slots: runs of 64 mappings, and a low mark before each
/// once all slots are taken.
pub fn full(alloc: Global, slots: u32) -> Result<(u64, u64), Refusal> {
    let sizes = Sizes {
        pages: PAGES,
        capacity: slots,
    };
    let mut disk = RamDisk::new(alloc, sizes.maplog_bytes())?;
    make(alloc, &mut disk, sizes)?;
    fill(alloc, &mut disk, sizes)?;
    listed(alloc, &mut disk, sizes)
}
