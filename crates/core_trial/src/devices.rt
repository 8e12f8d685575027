//! The devices of a small store, whose sessions these are.

use crate::made::make;
use crate::trial::Trial;
use disk_mem::{MemDisk, RamDisk};
use disk_model::{Disk, Sizes};
use retro_base::{LOG_REGION_BYTES, PAGE_BYTES, Refusal, Who};
use skippy::Mappings;
use std::alloc::Global;

pub const A: Who = Who {
    phase: 1,
    session: 0,
    item: 3,
};

pub const B: Who = Who {
    phase: 1,
    session: 1,
    item: 7,
};

pub const C: Who = Who {
    phase: 1,
    session: 5,
    item: 2,
};

/// The worker that copies, and the one that writes back.
pub const COPIER: Who = Who {
    phase: 1,
    session: 16,
    item: 0,
};

pub const FLUSHER: Who = Who {
    phase: 1,
    session: 17,
    item: 0,
};

/// The devices of the log and of the pages.
pub type Pair = (MemDisk, MemDisk);

fn size_of(pages: u32) -> u64 {
    PAGE_BYTES as u64 * u64::from(pages)
}

/// The devices of a store of these sizes in which nothing was declared.
pub fn devices(alloc: Global, pages: u32, capacity: u32) -> Result<Pair, Refusal> {
    let mut log = MemDisk::new(alloc, 2 * LOG_REGION_BYTES, Vec::new(alloc), None)?;
    make(alloc, &mut log, Sizes { pages, capacity })?;
    Ok((
        log,
        MemDisk::new(alloc, size_of(pages), Vec::new(alloc), None)?,
    ))
}

/// Opens them beside a Maplog of these mappings, which ends at 99.
pub fn open<D: Disk + Drop>(
    alloc: Global,
    log: D,
    pages: D,
    mapped: &[u32],
) -> Result<Trial<D>, Refusal> {
    let mut mappings = Mappings::new(alloc, 0);
    if mapped.len() > 4 {
        return Err(Refusal::BadSizes);
    }
    mappings.push(mapped)?;
    Trial::open(alloc, log, pages, &mappings, 99)
}

/// An empty store on devices that remember nothing.
pub fn empty(alloc: Global, pages: u32, capacity: u32) -> Result<Trial<RamDisk>, Refusal> {
    let mut log = RamDisk::new(alloc, 2 * LOG_REGION_BYTES)?;
    make(alloc, &mut log, Sizes { pages, capacity })?;
    open(alloc, log, RamDisk::new(alloc, size_of(pages))?, &[])
}
