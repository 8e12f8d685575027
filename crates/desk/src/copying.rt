//! Captures on their way to the archive, and what a reader of the past is told meanwhile.

ghost use Rattle.std.specs.Prelude.{◌≡◌, ◌≤◌, ◌<◌, ◌-◌, true, false, ℕ, List, [], drop, length, max, take, IfOk, OnErr};
ghost use Rattle.block_file.specs.Blocks.{SameFile};
ghost use Rattle.disk_model.specs.Runs.{OnlyReads};
ghost use Rattle.retro_base.specs.declared.limits.TheConstants.{BATCH};
ghost use Rattle.retro_base.specs.Cause.{FaultsAlone};
ghost use Rattle.retro_base.specs.declared.device.Device.TheVariants.{Pages};
ghost use Rattle.history.specs.Marks.{is_retained, oldest, start_of};
ghost use Rattle.page_pool.specs.Side.{HoldsSame};
ghost use Rattle.race_model.specs.Desk.{Desk};
ghost use Rattle.race_model.specs.Fits.{DeskFits};
ghost use Rattle.race_model.specs.Machine.{acked_to, batch_of, MayTake};
ghost use Rattle.race_model.specs.Reading.{told_of};
ghost use Rattle.records.specs.Entries.{IsNumberedFrom};
ghost use Rattle.desk.specs.Desk.{IsDesk, IsWhole};
ghost use Rattle.desk.specs.Steps.{next_of, SameButPages};

use crate::desk::RunningDesk;
use copy_queue::CopyQueue;
use disk_model::Disk;
use history::{Mark, oldest, oldest_start};
use race_model::{Batch, Receipt};
use retro_base::{BATCH, Page, Refusal};

// The start of a retained snapshot, among snapshots that are numbered without gaps.
fn start_of(marks: &[Mark], snapshot: u32) -> u64
    requires numbered { IsNumberedFrom (oldest marks.now) marks.now }
    requires retained { is_retained snapshot marks.now ≡ true }
    ensures { result ≡ start_of snapshot marks.now }
{
    marks[(snapshot - oldest(marks)) as usize].start
}

// Adds the first 64 of the captures, or all, to an empty batch.
fn fill(batch: &mut Batch, queue: &CopyQueue)
    requires { batch.old.images ≡ [] }
    ensures { batch.new ≡ record {
      first = batch.old.first;
      low = batch.old.low;
      images = take BATCH queue.now.images;
    } }
{
    for place in 0..queue.len().min(BATCH) {
        let image = queue.image(place);
        batch.add(image.page, &image.bytes);
    }
}

impl<D: Disk + Drop> RunningDesk<D> {
    /// Takes note that the archive holds the captures below a receipt's count.
    pub fn ack(&mut self, receipt: Receipt)
        requires whole { IsWhole D.is_honest D.state self.old }
        requires there { receipt ≤ self.old.base.captures }
        ensures whole { IsWhole D.is_honest D.state self.new }
        ensures queue { self.new ≡ record self.old {
          queue = record {
            first = max self.old.queue.first receipt;
            images = drop (receipt - self.old.queue.first) self.old.queue.images;
          };
        } }
        ensures done { (desk : Desk) → IsDesk D.is_honest D.state self.old desk
            → IsDesk D.is_honest D.state self.new (acked_to desk receipt) }
    {
        self.queue.ack(receipt.held());
    }

    /// Makes a batch of the first 64 of the captures that are pending, or of all; false exactly where none is, and
    /// then the batch is as before. Takes no memory.
    pub fn next_batch(&self, batch: &mut Batch) -> bool
        ensures some { result ≡ true → batch.new ≡ next_of self.now.base self.now.queue }
        ensures none { result ≡ false → (self.now.queue.images ≡ []) × (batch.new ≡ batch.old) }
        ensures takes { (desk : Desk) → IsDesk D.is_honest D.state self.now desk → DeskFits desk
            → D.is_honest self.now.pool.file.disk → result ≡ true
            → (count : ℕ) × MayTake desk count × (batch.new ≡ batch_of desk count) }
        ensures all { (desk : Desk) → IsDesk D.is_honest D.state self.now desk → DeskFits desk → result ≡ false
            → (count : ℕ) → MayTake desk count → ⊥ }
    {
        if self.queue.is_empty() {
            return false;
        }
        let first = self.queue.first();
        batch.restart(first, oldest_start(self.base.marks()).min(first));
        fill(batch, &self.queue);
        true
    }

    /// The start of a retained snapshot.
    pub fn start(&self, snapshot: u32) -> u64
        requires whole { IsWhole D.is_honest D.state self.now }
        requires retained { is_retained snapshot self.now.base.marks ≡ true }
        ensures { result ≡ start_of snapshot self.now.base.marks }
    {
        start_of(self.base.marks(), snapshot)
    }

    /// Reads what a reader of a page as of a retained snapshot is told: the bytes that the page had at its first
    /// pending capture from the snapshot's start on, else as it is. Answers the count of captures up to which the
    /// archive is to be asked before. The only refusal is a fault of the pages' device; then `out` is as before.
    pub fn peek(&mut self, page: u32, snapshot: u32, out: &mut Page) -> Result<u64, Refusal>
        requires whole { IsWhole D.is_honest D.state self.old }
        requires inside { page < self.old.base.page_count }
        requires retained { is_retained snapshot self.old.base.marks ≡ true }
        ensures whole { IsWhole D.is_honest D.state self.new }
        ensures rest { SameButPages self.old self.new }
        ensures same { SameFile D.is_honest self.old.pool.file self.new.pool.file }
        ensures held { HoldsSame self.old.pool self.new.pool }
        ensures cause { FaultsAlone Pages (D.faults self.old.pool.file.disk) (D.faults self.new.pool.file.disk) result }
        ensures desk { (desk : Desk) → IsDesk D.is_honest D.state self.old desk
            → IsDesk D.is_honest D.state self.new desk }
        ensures upto { IfOk result (λ upto. upto ≡ self.old.queue.first) }
        ensures told { (desk : Desk) → IsDesk D.is_honest D.state self.old desk → DeskFits desk
            → D.is_honest self.old.pool.file.disk → IfOk result (λ upto. (out.new ≡ (told_of desk snapshot page).bytes)
            × (upto ≡ (told_of desk snapshot page).upto)) }
        ensures err { OnErr result (out.new ≡ out.old) }
        ensures quiet { D.is_honest self.old.pool.file.disk
            → OnlyReads D.remembers D.state D.clock self.old.pool.file.disk self.new.pool.file.disk }
    {
        let upto = self.queue.first();
        match self.queue.find(page, self.start(snapshot)) {
            Some(place) => {
                *out = self.queue.image(place).bytes;
                Ok(upto)
            }
            None => match self.pool.read(page, out) {
                Ok(()) => Ok(upto),
                Err(why) => Err(why),
            },
        }
    }
}
