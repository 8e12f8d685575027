//! Captures on their way to the archive, and what a reader of the past is told meanwhile.

ghost use Rattle.std.specs.Prelude.{◌≡◌, ◌≤◌, ◌<◌, ◌-◌, true, false, ℕ, List, [], drop, max, IfOk, OnErr};
ghost use Rattle.block_file.specs.Blocks.{SameFile};
ghost use Rattle.disk_model.specs.Runs.{OnlyReads};
ghost use Rattle.retro_base.specs.Cause.{FaultsAlone};
ghost use Rattle.retro_base.specs.declared.device.Device.TheVariants.{Pages};
ghost use Rattle.history.specs.History.{History};
ghost use Rattle.race_model.specs.Desk.{Desk};
ghost use Rattle.race_model.specs.Machine.{MayTake, acked_to, batch_of};
ghost use Rattle.race_model.specs.Reading.{told_of};
ghost use Rattle.desk.specs.Steps.{SameButPages, next_of};
ghost use Rattle.store_core.specs.Calls.{IsPinned};
ghost use Rattle.store_core.specs.Core.{IsCore, IsWholeCore, StaysCore};

use crate::desk_core::Core;
use disk_model::Disk;
use race_model::{Batch, Receipt};
use retro_base::{Page, Refusal};

/// What a reader of the past was told with a page: how many captures were acknowledged, up to which the archive is to
/// be asked before.
#[derive(Clone, Copy, Debug, PartialEq, Eq)]
pub struct Peeked {
    pub acked: u64,
}

impl<D: Disk + Drop> Core<D> {
    /// Takes note that the archive holds the captures below a receipt's count, which is at most the captures so far.
    pub fn ack(&mut self, receipt: Receipt)
        requires core { IsWholeCore D.is_honest D.state self.old }
        requires there { receipt ≤ self.old.desk.base.captures }
        ensures ledger { self.new.ledger ≡ self.old.ledger }
        ensures queue { self.new.desk ≡ record self.old.desk {
          queue = record {
            first = max self.old.desk.queue.first receipt;
            images = drop (receipt - self.old.desk.queue.first) self.old.desk.queue.images;
          };
        } }
        ensures done { (opening : History) (plain : Desk) → IsCore D.is_honest D.state opening self.old plain
            → IsCore D.is_honest D.state opening self.new (acked_to plain receipt) }
    {
        self.desk.ack(receipt);
    }

    /// Makes a batch of the first 64 of the captures that are pending, or of all; false exactly where none is, and
    /// then the batch is as before. Takes no memory.
    pub fn next_batch(&self, batch: &mut Batch) -> bool
        ensures some { result ≡ true → batch.new ≡ next_of self.now.desk.base self.now.desk.queue }
        ensures none { result ≡ false → (self.now.desk.queue.images ≡ []) × (batch.new ≡ batch.old) }
        ensures takes { (opening : History) (plain : Desk) → IsCore D.is_honest D.state opening self.now plain
            → D.is_honest self.now.desk.pool.file.disk → result ≡ true
            → (count : ℕ) × MayTake plain count × (batch.new ≡ batch_of plain count) }
        ensures all { (opening : History) (plain : Desk) → IsCore D.is_honest D.state opening self.now plain
            → result ≡ false → (count : ℕ) → MayTake plain count → ⊥ }
    {
        self.desk.next_batch(batch)
    }

    /// Reads what a reader of a page as of a pinned snapshot is told: the bytes that the page had at its first pending
    /// capture from the snapshot's start on, else as it is. The only refusal is a fault of the pages' device; then
    /// `out` is as before.
    pub fn peek(&mut self, page: u32, snapshot: u32, out: &mut Page) -> Result<Peeked, Refusal>
        requires core { IsWholeCore D.is_honest D.state self.old }
        requires inside { page < self.old.desk.base.page_count }
        requires pinned { IsPinned self.old.ledger snapshot }
        ensures ledger { self.new.ledger ≡ self.old.ledger }
        ensures rest { SameButPages self.old.desk self.new.desk }
        ensures same { SameFile D.is_honest self.old.desk.pool.file self.new.desk.pool.file }
        ensures cause { FaultsAlone Pages (D.faults self.old.desk.pool.file.disk) (D.faults
            self.new.desk.pool.file.disk)
            result }
        ensures upto { IfOk result (λ peeked. peeked.acked ≡ self.old.desk.queue.first) }
        ensures told { (opening : History) (plain : Desk) → IsCore D.is_honest D.state opening self.old plain
            → D.is_honest self.old.desk.pool.file.disk
            → IfOk result (λ peeked. (out.new ≡ (told_of plain snapshot page).bytes)
            × (peeked.acked ≡ (told_of plain snapshot page).upto)) }
        ensures err { OnErr result (out.new ≡ out.old) }
        ensures quiet { D.is_honest self.old.desk.pool.file.disk
            → OnlyReads D.remembers D.state D.clock self.old.desk.pool.file.disk self.new.desk.pool.file.disk }
        ensures core { StaysCore D.is_honest D.state self.old self.new }
    {
        match self.desk.peek(page, snapshot, out) {
            Ok(acked) => Ok(Peeked { acked }),
            Err(why) => Err(why),
        }
    }
}
