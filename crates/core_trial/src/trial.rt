//! A desk whose calls test what they ask.

use crate::conditions::{is_closed, is_idle, is_looking, is_open, is_pinned, may_fault, may_mark};
use disk_model::Disk;
use history::{FailedCall, Journal, Mark, Version};
use race_model::{Batch, Receipt};
use retro_base::{Device, Page, Refusal, Who};
use skippy::Mappings;
use std::alloc::Global;
use std::marker::Model;
use store_core::Core;
use txn_set::Ending;
use values::Seq;

// The answer where a condition of a call does not hold.
const NOT_ASKED: Refusal = Refusal::BadSizes;

/// A desk over two devices. A call whose condition does not hold is refused, and changes nothing.
#[derive(Drop)]
pub struct Trial<D: Disk> {
    core: Core<D>,
}

impl<D: Disk> Model for Trial<D> {
    ghost use Rattle.store_core.specs.Core.{IsWholeCore};

    ghost Value = { Unit {0} };

    ghost view = { λ _. tt };

    ghost invariant = { λ t. IsWholeCore D.is_honest D.state t.core };
}

/// What a reader of a page as of a snapshot is told: its bytes, and how many captures were acknowledged.
#[derive(Clone, Copy, Debug, PartialEq, Eq)]
pub struct Peek {
    pub page: Page,
    pub acked: u64,
}

// A call that was to write, or to read.
fn call_of(wrote: bool) -> FailedCall {
    if wrote {
        return FailedCall::Write;
    }
    FailedCall::Read
}

impl<D: Disk + Drop> Trial<D> {
    /// Opens the desk of these devices beside the mappings of a Maplog that ends there.
    pub fn open(
        alloc: Global,
        log: D,
        pages: D,
        mappings: &Mappings,
        end: u64,
    ) -> Result<Trial<D>, Refusal> {
        match Core::fetch(alloc, Version::One, log, pages, mappings, end) {
            Ok(core) => Ok(Trial { core }),
            Err(unopened) => Err(unopened.why),
        }
    }

    /// Begins a transaction.
    pub fn begin(&mut self, alloc: Global, who: Who) -> Result<(), Refusal> {
        if !is_idle(self.core.ledger(), who) {
            return Err(NOT_ASKED);
        }
        self.core.begin(alloc, who)
    }

    /// Reads a page.
    pub fn read(&mut self, who: Who, page: u32) -> Result<Page, Refusal> {
        if !is_open(self.core.ledger(), who) || page >= self.core.sizes().pages {
            return Err(NOT_ASKED);
        }
        let mut out = Page::zero();
        self.core.read(who, page, &mut out)?;
        Ok(out)
    }

    /// Edits a page.
    pub fn edit(&mut self, who: Who, page: u32, bytes: &Page) -> Result<(), Refusal> {
        if !is_open(self.core.ledger(), who) || page >= self.core.sizes().pages {
            return Err(NOT_ASKED);
        }
        self.core.edit(who, page, bytes)
    }

    /// Commits, with a mark or without.
    pub fn commit(
        &mut self,
        alloc: Global,
        who: Who,
        mark: Option<&[u8]>,
    ) -> Result<Option<u32>, Refusal> {
        if !is_open(self.core.ledger(), who) || !may_mark(mark) {
            return Err(NOT_ASKED);
        }
        self.core.commit(alloc, who, mark)
    }

    /// Rolls a transaction back.
    pub fn rollback(&mut self, who: Who, why: Ending) -> Result<(), Refusal> {
        if !is_open(self.core.ledger(), who) {
            return Err(NOT_ASKED);
        }
        self.core.rollback(who, why);
        Ok(())
    }

    /// Looks at a snapshot; its start.
    pub fn look(&mut self, alloc: Global, who: Who, number: u64) -> Result<u64, Refusal> {
        if !is_idle(self.core.ledger(), who) {
            return Err(NOT_ASKED);
        }
        self.core.look(alloc, who, number)
    }

    /// Looks at all snapshots.
    pub fn look_all(&mut self, alloc: Global, who: Who) -> Result<Seq<Mark>, Refusal> {
        if !is_idle(self.core.ledger(), who) {
            return Err(NOT_ASKED);
        }
        self.core.look_all(alloc, who)
    }

    /// Drops the snapshots below a number.
    pub fn drop_below(&mut self, alloc: Global, who: Who, below: u64) -> Result<(), Refusal> {
        if !is_closed(self.core.ledger(), who) {
            return Err(NOT_ASKED);
        }
        self.core.drop_below(alloc, who, below)
    }

    /// Ends a look.
    pub fn unlook(&mut self, who: Who, why: Ending) -> Result<(), Refusal> {
        if !is_looking(self.core.ledger(), who) {
            return Err(NOT_ASKED);
        }
        self.core.unlook(who, why);
        Ok(())
    }

    /// Reads a page as of a snapshot that a look of the session pins.
    pub fn peek(&mut self, session: u16, page: u32, snapshot: u32) -> Result<Peek, Refusal> {
        if !is_pinned(self.core.ledger(), session, snapshot) || page >= self.core.sizes().pages {
            return Err(NOT_ASKED);
        }
        let mut out = Page::zero();
        let acked = self.core.peek(page, snapshot, &mut out)?.acked;
        Ok(Peek { page: out, acked })
    }

    /// Fills a batch.
    pub fn next_batch(&self, batch: &mut Batch) -> bool {
        self.core.next_batch(batch)
    }

    /// Acknowledges that many captures.
    pub fn ack(&mut self, count: u64) -> Result<(), Refusal> {
        let captures = self.core.acked().saturating_add(self.core.pending());
        if count > captures {
            return Err(NOT_ASKED);
        }
        self.core.ack(Receipt::of(count));
        Ok(())
    }

    /// Writes a page back.
    pub fn write_back(&mut self, who: Who) -> Result<bool, Refusal> {
        if !may_fault(self.core.ledger(), who) {
            return Err(NOT_ASKED);
        }
        self.core.write_back(who)
    }

    /// Settles the pages.
    pub fn settle(&mut self, who: Who) -> Result<(), Refusal> {
        if !may_fault(self.core.ledger(), who) {
            return Err(NOT_ASKED);
        }
        self.core.settle(who)
    }

    /// Cuts the log.
    pub fn cut_log(&mut self, alloc: Global, who: Who) -> Result<bool, Refusal> {
        if !may_fault(self.core.ledger(), who) {
            return Err(NOT_ASKED);
        }
        self.core.cut_log(alloc, who)
    }

    /// Notes a fault of another device.
    pub fn note(
        &mut self,
        who: Who,
        device: Device,
        count: u64,
        wrote: bool,
    ) -> Result<(), Refusal> {
        if !may_fault(self.core.ledger(), who) {
            return Err(NOT_ASKED);
        }
        self.core.note(who, device, count, call_of(wrote));
        Ok(())
    }

    /// How many captures are pending, and how many pages are dirty.
    pub fn owed(&self) -> (u64, u64) {
        (self.core.pending(), self.core.dirty())
    }

    /// The oldest and the newest snapshot.
    pub fn horizon(&self) -> (u32, u32) {
        self.core.horizon()
    }

    /// How many pages there are, and how many page images the archive holds.
    pub fn sizes(&self) -> (u32, u32) {
        let sizes = self.core.sizes();
        (sizes.pages, sizes.capacity)
    }

    /// The free bytes of the log's half.
    pub fn free(&self) -> u64 {
        self.core.free()
    }

    /// Whether it has stopped.
    pub fn stopped(&self) -> bool {
        self.core.stopped()
    }

    /// The devices of the log and of the pages, and the journal.
    pub fn into_parts(self) -> (D, D, Journal) {
        let Trial { core } = self;
        core.into_parts()
    }
}
