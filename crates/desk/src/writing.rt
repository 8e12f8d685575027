//! Pages written back, and the log cut.

ghost use Rattle.std.specs.Prelude.{◌≡◌, ◌<◌, true, false, None, Some, ℕ, Bool, List};
ghost use Rattle.std.specs.Prelude.{IfOk, IfErr, MatchOption, MatchResult, OnErr, OnOk};
ghost use Rattle.std.specs.Option.{option_or};
ghost use Rattle.block_file.specs.Blocks.{IsAsLong, SameFile};
ghost use Rattle.disk_model.specs.Moments.{LeavesOnly};
ghost use Rattle.disk_model.specs.Runs.{SameDevice};
ghost use Rattle.retro_base.specs.Cause.{FaultsAlone, IsFault};
ghost use Rattle.retro_base.specs.declared.device.Device.TheVariants.{Log, Pages};
ghost use Rattle.gate_log.specs.Cause.{IsDiskFault};
ghost use Rattle.history.specs.Writes.{pages_of, is_among};
ghost use Rattle.page_pool.specs.Side.{HoldsSame, soiled};
ghost use Rattle.race_model.specs.Desk.{Desk};
ghost use Rattle.race_model.specs.Fits.{DeskFits};
ghost use Rattle.race_model.specs.Machine.{cut, cut_failed, MayCut, MayWrite, settled};
ghost use Rattle.race_model.specs.Machine.{stopped, write_failed, written_desk};
ghost use Rattle.redo_log.specs.Cause.{IsMemoryOrFault};
ghost use Rattle.desk.specs.Cause.{IsWriteRefusal, stop_behind};
ghost use Rattle.desk.specs.Desk.{HoldsPagesOf, IsDesk, IsWhole, ListsLogOf};
ghost use Rattle.desk.specs.Steps.{IsLeastWritable, NoneWritable};

use crate::desk::{Passed, RunningDesk, stop_behind};
use disk_model::Disk;
use history::Stop;
use retro_base::Refusal;
use std::alloc::Global;

impl<D: Disk + Drop> RunningDesk<D> {
    /// Takes note of a fault that wrote: the first is kept, and since then nothing is written.
    pub fn stop(&mut self, fault: Stop)
        requires { IsWhole D.is_honest D.state self.old }
        ensures whole { IsWhole D.is_honest D.state self.new }
        ensures first { self.new ≡ record self.old { stop = option_or self.old.stop (Some fault) } }
        ensures done { (desk : Desk) → IsDesk D.is_honest D.state self.old desk
            → IsDesk D.is_honest D.state self.new (stopped desk) }
    {
        if self.stop.is_none() {
            self.stop = Some(fault);
        }
    }

    // A place below which each dirty page waits for one of its captures.
    fn start_of_writable(&self) -> u32
        requires { IsWhole D.is_honest D.state self.now }
        ensures { (page : ℕ) → page < result → soiled self.now.pool page ≡ true
            → is_among page (pages_of self.now.queue.images) ≡ true }
    {
        if self.passed.first == self.queue.first() {
            self.passed.page
        } else {
            0
        }
    }

    // The least dirty page that no pending capture is of.
    fn next_writable(&self) -> Option<u32>
        requires { IsWhole D.is_honest D.state self.now }
        ensures { MatchOption result
            ((page : ℕ) → soiled self.now.pool page ≡ true → is_among page (pages_of self.now.queue.images) ≡ true)
            (λ page. (soiled self.now.pool page ≡ true) × (is_among page (pages_of self.now.queue.images) ≡ false)
            × ((other : ℕ) → other < page → soiled self.now.pool other ≡ true
            → is_among other (pages_of self.now.queue.images) ≡ true)) }
    {
        let mut from = self.start_of_writable();
        while let Some(page) = self.pool.next_dirty(from) {
            if !self.queue.pends(page) {
                return Some(page);
            }
            from = page + 1;
        }
        None
    }

    // Writes a dirty page back.
    fn send(&mut self, page: u32) -> Result<(), Refusal>
        requires soiled { soiled self.old.pool page ≡ true }
        ensures log { self.new.log ≡ self.old.log }
        ensures memory { (self.new.queue ≡ self.old.queue) × (self.new.base ≡ self.old.base) }
        ensures same { SameFile D.is_honest self.old.pool.file self.new.pool.file }
        ensures held { HoldsSame self.old.pool self.new.pool }
        ensures cause { FaultsAlone Pages (D.faults self.old.pool.file.disk) (D.faults self.new.pool.file.disk) result }
        ensures stop { MatchResult result (λ _. self.new.stop ≡ self.old.stop)
            (λ why. self.new.stop ≡ stop_behind self.old.stop why) }
        ensures done { (desk : Desk) (need : ℕ) → IsDesk D.is_honest D.state self.old desk
            → OnOk result (IsDesk D.is_honest D.state self.new (written_desk desk page need)) }
        ensures failed { (desk : Desk) (need : ℕ) → IsDesk D.is_honest D.state self.old desk
            → OnErr result ((left : List ℕ) × IsDesk D.is_honest D.state self.new (write_failed desk page need left)) }
        ensures any_moment { (desk : Desk) (need : ℕ) (left : List ℕ) → IsDesk D.is_honest D.state self.old desk
            → D.is_honest self.old.pool.file.disk
            → LeavesOnly D.remembers (D.clock self.old.pool.file.disk) (D.clock self.new.pool.file.disk)
            (HoldsPagesOf (write_failed desk page need left)) }
        ensures long { D.is_honest self.old.pool.file.disk → LeavesOnly D.remembers
            (D.clock self.old.pool.file.disk) (D.clock self.new.pool.file.disk)
            (IsAsLong (D.state self.old.pool.file.disk)) }
    {
        match self.pool.write_back(page) {
            Ok(()) => Ok(()),
            Err(why) => {
                self.stop = stop_behind(self.stop, why);
                Err(why)
            }
        }
    }

    /// Writes back the least dirty page all of whose captures are acknowledged; false exactly where there is none.
    /// A dirty page that waits for a capture costs a look-up to pass. Between two acknowledgements the calls that
    /// answer true pass each such page once, and once more for each commit that makes a lower page one that may be
    /// written. A call that answers false passes all that wait behind the last one written, each time. It is refused,
    /// in this order, after the first fault, which is told, and exactly where a call of the pages' device failed: then
    /// the page may have any bytes there, and the desk has stopped.
    pub fn write_back(&mut self) -> Result<bool, Refusal>
        requires whole { IsWhole D.is_honest D.state self.old }
        ensures whole { IsWhole D.is_honest D.state self.new }
        ensures rest { (self.new.log ≡ self.old.log) × (self.new.queue ≡ self.old.queue)
            × (self.new.base ≡ self.old.base) }
        ensures same { SameFile D.is_honest self.old.pool.file self.new.pool.file }
        ensures held { HoldsSame self.old.pool self.new.pool }
        ensures cause { MatchResult result
            (λ _. (self.old.stop ≡ None)
            × (D.faults self.new.pool.file.disk ≡ D.faults self.old.pool.file.disk))
            (IsWriteRefusal self.old.stop
            (IsFault Pages (D.faults self.old.pool.file.disk) (D.faults self.new.pool.file.disk))) }
        ensures untouched { IfErr result (λ why. (IsDiskFault why → ⊥) → self.new ≡ self.old) }
        ensures stop { MatchResult result (λ _. self.new.stop ≡ self.old.stop)
            (λ why. self.new.stop ≡ stop_behind self.old.stop why) }
        ensures done { (desk : Desk) → IsDesk D.is_honest D.state self.old desk → DeskFits desk
            → IfOk result (λ wrote. wrote ≡ true → (page : ℕ) × IsLeastWritable desk page
            × MayWrite desk page desk.acked
            × ((need : ℕ) → IsDesk D.is_honest D.state self.new (written_desk desk page need))) }
        ensures none { (desk : Desk) → IsDesk D.is_honest D.state self.old desk
            → IfOk result (λ wrote. wrote ≡ false → (self.new ≡ self.old) × NoneWritable desk) }
        ensures failed { (desk : Desk) (need : ℕ) → IsDesk D.is_honest D.state self.old desk → DeskFits desk
            → IfErr result (λ why. IsDiskFault why → (page : ℕ) × (left : List ℕ) × IsLeastWritable desk page
            × MayWrite desk page desk.acked × IsDesk D.is_honest D.state self.new (write_failed desk page need left)) }
        ensures any_moment { (desk : Desk) (page need : ℕ) (left : List ℕ) → IsDesk D.is_honest D.state self.old desk
            → IsLeastWritable desk page → D.is_honest self.old.pool.file.disk
            → LeavesOnly D.remembers (D.clock self.old.pool.file.disk) (D.clock self.new.pool.file.disk)
            (HoldsPagesOf (write_failed desk page need left)) }
        ensures long { D.is_honest self.old.pool.file.disk → LeavesOnly D.remembers
            (D.clock self.old.pool.file.disk) (D.clock self.new.pool.file.disk)
            (IsAsLong (D.state self.old.pool.file.disk)) }
    {
        if let Some(stop) = self.stop {
            return Err(stop.refusal());
        }
        match self.next_writable() {
            None => Ok(false),
            Some(page) => match self.send(page) {
                Ok(()) => {
                    let first = self.queue.first();
                    self.passed = Passed { page, first };
                    Ok(true)
                }
                Err(why) => Err(why),
            },
        }
    }

    /// Makes the pages durable. It is refused, in this order, after the first fault, which is told, and exactly where
    /// a call of the pages' device failed: then the desk has stopped.
    pub fn settle(&mut self) -> Result<(), Refusal>
        requires whole { IsWhole D.is_honest D.state self.old }
        ensures whole { IsWhole D.is_honest D.state self.new }
        ensures rest { (self.new.log ≡ self.old.log) × (self.new.queue ≡ self.old.queue)
            × (self.new.base ≡ self.old.base) }
        ensures same { SameFile D.is_honest self.old.pool.file self.new.pool.file }
        ensures held { HoldsSame self.old.pool self.new.pool }
        ensures cause { MatchResult result
            (λ _. (self.old.stop ≡ None)
            × (D.faults self.new.pool.file.disk ≡ D.faults self.old.pool.file.disk))
            (IsWriteRefusal self.old.stop
            (IsFault Pages (D.faults self.old.pool.file.disk) (D.faults self.new.pool.file.disk))) }
        ensures untouched { IfErr result (λ why. (IsDiskFault why → ⊥) → self.new ≡ self.old) }
        ensures stop { MatchResult result (λ _. self.new.stop ≡ self.old.stop)
            (λ why. self.new.stop ≡ stop_behind self.old.stop why) }
        ensures done { (desk : Desk) → IsDesk D.is_honest D.state self.old desk
            → OnOk result (IsDesk D.is_honest D.state self.new (settled desk)) }
        ensures failed { (desk : Desk) → IsDesk D.is_honest D.state self.old desk
            → IfErr result (λ why. IsDiskFault why → IsDesk D.is_honest D.state self.new (stopped desk)) }
        ensures any_moment { (desk : Desk) → IsDesk D.is_honest D.state self.old desk
            → D.is_honest self.old.pool.file.disk
            → LeavesOnly D.remembers (D.clock self.old.pool.file.disk) (D.clock self.new.pool.file.disk)
            (HoldsPagesOf (stopped desk)) }
        ensures long { D.is_honest self.old.pool.file.disk → LeavesOnly D.remembers
            (D.clock self.old.pool.file.disk) (D.clock self.new.pool.file.disk)
            (IsAsLong (D.state self.old.pool.file.disk)) }
    {
        if let Some(stop) = self.stop {
            return Err(stop.refusal());
        }
        match self.pool.settle() {
            Ok(()) => Ok(()),
            Err(why) => {
                self.stop = stop_behind(self.stop, why);
                Err(why)
            }
        }
    }

    // Whether no page is dirty or unsettled, and no capture is pending.
    fn is_clean(&self) -> bool
        ensures clean { (desk : Desk) → IsDesk D.is_honest D.state self.now desk → DeskFits desk
            → desk.stopped ≡ false → result ≡ true → MayCut desk }
        ensures soiled { (desk : Desk) → IsDesk D.is_honest D.state self.now desk → DeskFits desk → result ≡ false
            → MayCut desk → ⊥ }
    {
        if self.pool.is_unsettled() {
            return false;
        }
        if self.pool.dirty() > 0 {
            return false;
        }
        self.queue.is_empty()
    }

    // Puts what the log says now in its place.
    fn rewrite(&mut self, alloc: Global) -> Result<(), Refusal>
        requires whole { IsWhole D.is_honest D.state self.old }
        requires goes { self.old.stop ≡ None }
        ensures rest { (self.new.pool ≡ self.old.pool) × (self.new.queue ≡ self.old.queue)
            × (self.new.base ≡ self.old.base) }
        ensures same { SameDevice D.extent D.is_honest self.old.log.disk self.new.log.disk }
        ensures cause { MatchResult result
            (λ _. D.faults self.new.log.disk ≡ D.faults self.old.log.disk)
            (IsMemoryOrFault Log (D.faults self.old.log.disk) (D.faults self.new.log.disk)) }
        ensures untouched { IfErr result (λ why. (IsDiskFault why → ⊥) → self.new ≡ self.old) }
        ensures stop { MatchResult result (λ _. self.new.stop ≡ self.old.stop)
            (λ why. self.new.stop ≡ stop_behind self.old.stop why) }
        ensures done { (desk : Desk) → IsDesk D.is_honest D.state self.old desk → DeskFits desk
            → OnOk result (IsDesk D.is_honest D.state self.new (cut desk)) }
        ensures failed { (desk : Desk) → IsDesk D.is_honest D.state self.old desk → DeskFits desk
            → IfErr result (λ why. IsDiskFault why → IsDesk D.is_honest D.state self.new (cut_failed desk)) }
        ensures any_moment { (desk : Desk) → IsDesk D.is_honest D.state self.old desk → DeskFits desk
            → D.is_honest self.old.log.disk
            → LeavesOnly D.remembers (D.clock self.old.log.disk) (D.clock self.new.log.disk)
            (ListsLogOf (cut_failed desk)) }
    {
        let base = self.base.to_base(alloc)?;
        match self.log.cut(alloc, self.log.version(), &base) {
            Ok(()) => Ok(()),
            Err(why) => {
                self.stop = stop_behind(self.stop, why);
                Err(why)
            }
        }
    }

    /// Cuts the log to what it says now; false exactly where a page is dirty or not settled, or a capture is pending.
    /// It is refused, in this order, after the first fault, which is told; for want of memory; and exactly where a
    /// call of the log's device failed: then the desk has stopped.
    pub fn cut_log(&mut self, alloc: Global) -> Result<bool, Refusal>
        requires whole { IsWhole D.is_honest D.state self.old }
        ensures whole { IsWhole D.is_honest D.state self.new }
        ensures rest { (self.new.pool ≡ self.old.pool) × (self.new.queue ≡ self.old.queue)
            × (self.new.base ≡ self.old.base) }
        ensures same { SameDevice D.extent D.is_honest self.old.log.disk self.new.log.disk }
        ensures cause { MatchResult result
            (λ _. (self.old.stop ≡ None) × (D.faults self.new.log.disk ≡ D.faults self.old.log.disk))
            (IsWriteRefusal self.old.stop
            (IsMemoryOrFault Log (D.faults self.old.log.disk) (D.faults self.new.log.disk))) }
        ensures untouched { IfErr result (λ why. (IsDiskFault why → ⊥) → self.new ≡ self.old) }
        ensures stop { MatchResult result (λ _. self.new.stop ≡ self.old.stop)
            (λ why. self.new.stop ≡ stop_behind self.old.stop why) }
        ensures done { (desk : Desk) → IsDesk D.is_honest D.state self.old desk → DeskFits desk
            → IfOk result (λ was_cut. was_cut ≡ true → MayCut desk × IsDesk D.is_honest D.state self.new (cut desk)) }
        ensures none { (desk : Desk) → IsDesk D.is_honest D.state self.old desk → DeskFits desk
            → IfOk result (λ was_cut. was_cut ≡ false → (self.new ≡ self.old) × (MayCut desk → ⊥)) }
        ensures failed { (desk : Desk) → IsDesk D.is_honest D.state self.old desk → DeskFits desk
            → IfErr result (λ why. IsDiskFault why
            → MayCut desk × IsDesk D.is_honest D.state self.new (cut_failed desk)) }
        ensures any_moment { (desk : Desk) → IsDesk D.is_honest D.state self.old desk → DeskFits desk
            → desk.stopped ≡ false → D.is_honest self.old.log.disk
            → LeavesOnly D.remembers (D.clock self.old.log.disk) (D.clock self.new.log.disk)
            (ListsLogOf (cut_failed desk)) }
    {
        if let Some(stop) = self.stop {
            return Err(stop.refusal());
        }
        if !self.is_clean() {
            return Ok(false);
        }
        match self.rewrite(alloc) {
            Ok(()) => Ok(true),
            Err(why) => Err(why),
        }
    }
}
