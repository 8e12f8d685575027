//! The log that a store is made with.

use disk_model::{Disk, Sizes};
use history::{Base, Version};
use redo_log::RedoLog;
use retro_base::{LOG_REGION_BYTES, MAX_CAPACITY, MAX_PAGES, MIN_CAPACITY, MIN_PAGES, Refusal};
use std::alloc::Global;
use values::Seq;

/// Makes the log of a store of these sizes, with nothing declared, on an all-zero device.
pub fn make<D: Disk>(alloc: Global, log: &mut D, sizes: Sizes) -> Result<(), Refusal> {
    let Sizes { pages, capacity } = sizes;
    if !(MIN_PAGES..=MAX_PAGES).contains(&pages)
        || !(MIN_CAPACITY..=MAX_CAPACITY).contains(&capacity)
        || log.size() != 2 * LOG_REGION_BYTES
    {
        return Err(Refusal::BadSizes);
    }
    let base = Base {
        page_count: pages,
        capacity,
        changes: 0,
        captures: 0,
        marks: Seq::new(alloc),
        captured: Seq::new(alloc),
    };
    RedoLog::make(alloc, Version::One, log, &base)
}
