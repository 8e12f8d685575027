//! The running desk, and what it tells of itself.

ghost use Rattle.std.specs.Prelude.{◌≡◌, ◌-◌, ◌*◌, ℕ, List, length};
ghost use Rattle.retro_base.specs.declared.limits.TheConstants.{LOG_REGION_BYTES, PAGE_BYTES};
ghost use Rattle.history.specs.Marks.{newest, oldest};
ghost use Rattle.page_pool.specs.Frames.{count_below};
ghost use Rattle.page_pool.specs.Side.{soiled};
ghost use Rattle.desk.specs.Cause.{stop_behind};
ghost use Rattle.desk.specs.Desk.{IsDesk};

use copy_queue::CopyQueue;
use disk_model::{Disk, Sizes};
use history::{RunningBase, Stop, Version, newest, oldest};
use page_pool::PagePool;
use redo_log::LogSide;
use retro_base::Refusal;

/// While just `first` captures are acknowledged, no dirty page below `page` may be written back.
#[derive(Clone, Copy)]
pub struct Passed {
    pub(crate) page: u32,
    pub(crate) first: u64,
}

/// The desk over its two devices.
#[derive(Drop)]
pub struct RunningDesk<D: Disk> {
    pub(crate) log: LogSide<D>,
    pub(crate) pool: PagePool<D>,
    pub(crate) queue: CopyQueue,
    pub(crate) base: RunningBase,
    pub(crate) stop: Option<Stop>,
    pub(crate) passed: Passed,
}

impl<D: Disk + Drop> RunningDesk<D> {
    /// What the log says now.
    pub fn base(&self) -> &RunningBase
        ensures { result.now ≡ self.now.base }
    {
        &self.base
    }

    /// The version of the log's records.
    pub fn version(&self) -> Version
        ensures { result ≡ self.now.log.log.version }
    {
        self.log.version()
    }

    /// How many pages it has, and how many page images its archive holds.
    pub fn sizes(&self) -> Sizes
        ensures { result ≡ record { pages = self.now.base.page_count; capacity = self.now.base.capacity } }
    {
        Sizes {
            pages: self.base.page_count(),
            capacity: self.base.capacity(),
        }
    }

    /// The oldest and the newest retained snapshot; 1 and 0 where none was declared.
    pub fn horizon(&self) -> (u32, u32)
        ensures { result ≡ (oldest self.now.base.marks, newest self.now.base.marks) }
    {
        let marks = self.base.marks();
        (oldest(marks), newest(marks))
    }

    /// How many captures are not yet acknowledged.
    pub fn pending(&self) -> usize
        ensures { result ≡ length self.now.queue.images }
    {
        self.queue.len()
    }

    /// How many captures are acknowledged.
    pub fn acked(&self) -> u64
        ensures { result ≡ self.now.queue.first }
    {
        self.queue.first()
    }

    /// How many pages were changed and not yet written back.
    pub fn dirty(&self) -> usize
        ensures { result ≡ count_below (soiled self.now.pool) self.now.pool.file.blocks }
    {
        self.pool.dirty()
    }

    /// How many bytes of the log's half are free.
    pub fn free(&self) -> u64
        ensures { result ≡ LOG_REGION_BYTES - self.now.log.log.area.log.gate }
    {
        self.log.free()
    }

    /// The first fault of a write or a sync, at which it stopped.
    pub fn stopped(&self) -> Option<Stop>
        ensures { result ≡ self.now.stop }
    {
        self.stop
    }

    /// The devices of the log and of the pages.
    pub fn into_disks(self) -> (D, D)
        ensures disks { result ≡ (self.log.disk, self.pool.file.disk) }
        ensures whole { D.extent result.1 ≡ PAGE_BYTES * self.pool.file.blocks }
    {
        (self.log.into_disk(), self.pool.into_disk())
    }
}

// The first fault behind a refusal of a desk that goes on.
pub(crate) fn stop_behind(stop: Option<Stop>, why: Refusal) -> Option<Stop>
    ensures { result ≡ stop_behind stop why }
{
    match why {
        Refusal::DiskFault { device, count } => Some(Stop { device, count }),
        _ => stop,
    }
}
