//! The core, and what it tells of itself.

ghost use Rattle.std.specs.Prelude.{◌≡◌, ◌-◌, ◌*◌, is_some, length};
ghost use Rattle.retro_base.specs.declared.limits.TheConstants.{LOG_REGION_BYTES, PAGE_BYTES};
ghost use Rattle.history.specs.History.{History, now};
ghost use Rattle.history.specs.Lines.{horizon_of, first_stop};
ghost use Rattle.page_pool.specs.Frames.{count_below};
ghost use Rattle.page_pool.specs.Side.{soiled};
ghost use Rattle.race_model.specs.Desk.{Desk};
ghost use Rattle.store_core.specs.Core.{IsCore};

use desk::RunningDesk;
use disk_model::{Disk, Sizes};
use history::Journal;
use txn_set::Ledger;

/// The desk over its two devices, with the journal and what each session has open.
#[derive(Drop)]
pub struct Core<D: Disk> {
    pub(crate) desk: RunningDesk<D>,
    pub(crate) ledger: Ledger,
}

impl<D: Disk + Drop> Core<D> {
    /// Whether the journal tells a fault of a write or a sync: since then the desk writes nothing.
    pub fn stopped(&self) -> bool
        ensures { result ≡ is_some (first_stop self.now.ledger.book.lines) }
    {
        self.ledger.book.stop().is_some()
    }

    /// The journal, and what each session has open.
    pub fn ledger(&self) -> &Ledger
        ensures { result.now ≡ self.now.ledger }
    {
        &self.ledger
    }

    /// How many pages the store has, and how many page images its archive holds.
    pub fn sizes(&self) -> Sizes
        ensures { result ≡ record { pages = self.now.desk.base.page_count; capacity = self.now.desk.base.capacity } }
    {
        self.desk.sizes()
    }

    /// The oldest and the newest retained snapshot; 1 and 0 where none was declared.
    pub fn horizon(&self) -> (u32, u32)
        ensures { (opening : History) (plain : Desk) → IsCore D.is_honest D.state opening self.now plain
            → result ≡ horizon_of (now opening).base self.now.ledger.book.lines }
    {
        self.desk.horizon()
    }

    /// How many captures are not yet acknowledged.
    pub fn pending(&self) -> u64
        ensures { result ≡ length self.now.desk.queue.images }
    {
        self.desk.pending() as u64
    }

    /// How many captures are acknowledged.
    pub fn acked(&self) -> u64
        ensures { result ≡ self.now.desk.queue.first }
    {
        self.desk.acked()
    }

    /// How many pages were changed and not yet written back.
    pub fn dirty(&self) -> u64
        ensures { result ≡ count_below (soiled self.now.desk.pool) self.now.desk.pool.file.blocks }
    {
        self.desk.dirty() as u64
    }

    /// How many bytes of the log's half are free.
    pub fn free(&self) -> u64
        ensures { result ≡ LOG_REGION_BYTES - self.now.desk.log.log.area.log.gate }
    {
        self.desk.free()
    }

    /// The devices of the log and of the pages, and the journal; takes no memory.
    pub fn into_parts(self) -> (D, D, Journal)
        ensures parts { result ≡ (self.desk.log.disk, self.desk.pool.file.disk, self.ledger.book.lines) }
        ensures whole { D.extent result.1 ≡ PAGE_BYTES * self.desk.pool.file.blocks }
    {
        let Core { desk, ledger } = self;
        let (log, pages) = desk.into_disks();
        (log, pages, ledger.book.into_journal())
    }
}
