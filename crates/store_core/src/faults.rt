//! Faults of writes and syncs, with their lines, and pages written back by a worker.

ghost use Rattle.std.specs.Prelude.{◌≡◌, ◌&&◌, ℕ, List, None, Some, if◌then◌else◌, not};
ghost use Rattle.std.specs.Prelude.{true, false, IfErr, IfOk, MatchResult, OnOk};
ghost use Rattle.std.specs.Option.{option_or};
ghost use Rattle.block_file.specs.Blocks.{IsAsLong, SameFile};
ghost use Rattle.disk_model.specs.Moments.{LeavesOnly};
ghost use Rattle.disk_model.specs.Runs.{SameDevice};
ghost use Rattle.retro_base.specs.Cause.{IsFault};
ghost use Rattle.retro_base.specs.declared.device.Device.TheVariants.{Log, Pages};
ghost use Rattle.gate_log.specs.Cause.{IsDiskFault};
ghost use Rattle.history.specs.declared.journal.What.TheVariants.{Fault};
ghost use Rattle.history.specs.Lines.{is_write};
ghost use Rattle.history.specs.History.{History};
ghost use Rattle.journal_book.specs.Works.{work_at};
ghost use Rattle.page_pool.specs.Side.{held};
ghost use Rattle.race_model.specs.Desk.{Desk};
ghost use Rattle.race_model.specs.Machine.{MayCut, MayWrite, cut, cut_failed, settled};
ghost use Rattle.race_model.specs.Machine.{stopped, write_failed, written_desk};
ghost use Rattle.redo_log.specs.Cause.{IsMemoryOrFault};
ghost use Rattle.desk.specs.Cause.{IsWriteRefusal};
ghost use Rattle.desk.specs.Desk.{HoldsPagesOf, IsDesk, IsWhole, ListsLogOf};
ghost use Rattle.desk.specs.Steps.{IsLeastWritable, NoneWritable, SameButPages};
ghost use Rattle.txn_set.specs.Ledger.{MayFault, faulted};
ghost use Rattle.txn_set.specs.WorksFit.{Closes, WorksFit};
ghost use Rattle.store_core.specs.Calls.{MayRecord, failed, failed_at, has_released};
ghost use Rattle.store_core.specs.Core.{IsCore, IsWholeCore, StaysCore};

use crate::desk_core::Core;
use crate::works::{edits_of, release_all};
use desk::RunningDesk;
use disk_model::Disk;
use history::{FailedCall, Stop};
use retro_base::{Device, Refusal, Who};
use std::alloc::Global;

// Stops the desk where the fault was met by a write or a sync.
fn stop_where<D: Disk + Drop>(desk: &mut RunningDesk<D>, wrote: bool, fault: Stop)
    requires { IsWhole D.is_honest D.state desk.old }
    ensures whole { IsWhole D.is_honest D.state desk.new }
    ensures first { desk.new ≡ record desk.old {
      stop = if wrote then option_or desk.old.stop (Some fault) else desk.old.stop;
    } }
    ensures done { (plain : Desk) → wrote ≡ true → IsDesk D.is_honest D.state desk.old plain
        → IsDesk D.is_honest D.state desk.new (stopped plain) }
    ensures quiet { wrote ≡ false → desk.new ≡ desk.old }
{
    if wrote {
        desk.stop(fault);
    }
}

impl<D: Disk + Drop> Core<D> {
    // Records the line of a fault that such a call met, if this is one: it closes what the session has, and releases
    // its pages, or else is a worker's.
    pub(crate) fn record(&mut self, who: Who, call: FailedCall, why: Refusal)
        requires whole { IsWhole D.is_honest D.state self.old.desk }
        requires works { WorksFit self.old.ledger }
        requires place { MayFault who self.old.ledger }
        requires closes { (device : _) (count : ℕ)
            → Closes who (Fault device count call) (work_at self.old.ledger.works.slots who.session) }
        ensures rest { SameButPages self.old.desk self.new.desk }
        ensures file { self.new.desk.pool.file ≡ self.old.desk.pool.file }
        ensures works { WorksFit self.new.ledger }
        ensures ledger { self.new.ledger ≡ failed_at call who why self.old.ledger }
        ensures untouched { (IsDiskFault why → ⊥) → self.new.desk ≡ self.old.desk }
        ensures held { (page : ℕ) → held self.new.desk.pool page
            ≡ (held self.old.desk.pool page && not (has_released who why page self.old.ledger)) }
        ensures desk { (plain : Desk) → IsDesk D.is_honest D.state self.old.desk plain
            → IsDesk D.is_honest D.state self.new.desk plain }
    {
        if let Refusal::DiskFault { device, count } = why {
            release_all(&mut self.desk, edits_of(&self.ledger.works, who.session));
            self.ledger.note(who, device, count, call);
        }
    }

    /// Writes back the least dirty page all of whose captures are acknowledged; false exactly where there is none. It
    /// is refused, in this order, after the first fault, which is told, and exactly where a call of the pages' device
    /// failed: then the page may have any bytes there, the fault has its line, and the desk has stopped.
    pub fn write_back(&mut self, who: Who) -> Result<bool, Refusal>
        requires core { IsWholeCore D.is_honest D.state self.old }
        requires place { MayRecord who self.old.ledger }
        ensures log { self.new.desk.log ≡ self.old.desk.log }
        ensures same { SameFile D.is_honest self.old.desk.pool.file self.new.desk.pool.file }
        ensures cause { MatchResult result
            (λ _. (self.old.desk.stop ≡ None)
            × (D.faults self.new.desk.pool.file.disk ≡ D.faults self.old.desk.pool.file.disk))
            (IsWriteRefusal self.old.desk.stop
            (IsFault Pages (D.faults self.old.desk.pool.file.disk) (D.faults self.new.desk.pool.file.disk))) }
        ensures ledger { MatchResult result (λ _. self.new.ledger ≡ self.old.ledger)
            (λ why. self.new.ledger ≡ failed who why self.old.ledger) }
        ensures untouched { IfErr result (λ why. (IsDiskFault why → ⊥) → self.new.desk ≡ self.old.desk) }
        ensures done { (opening : History) (plain : Desk) → IsCore D.is_honest D.state opening self.old plain
            → IfOk result (λ wrote. wrote ≡ true → (page : ℕ) × IsLeastWritable plain page
            × MayWrite plain page plain.acked × ((need : ℕ) → MayWrite plain page need
            → IsCore D.is_honest D.state opening self.new (written_desk plain page need))) }
        ensures none { (opening : History) (plain : Desk) → IsCore D.is_honest D.state opening self.old plain
            → IfOk result (λ wrote. wrote ≡ false → (self.new ≡ self.old) × NoneWritable plain) }
        ensures failed { (opening : History) (plain : Desk) (need : ℕ)
            → IsCore D.is_honest D.state opening self.old plain
            → IfErr result (λ why. IsDiskFault why → (page : ℕ) × (left : List ℕ) × IsLeastWritable plain page
            × MayWrite plain page plain.acked × (MayWrite plain page need
            → IsCore D.is_honest D.state opening self.new (write_failed plain page need left))) }
        ensures any_moment { (opening : History) (plain : Desk) (page need : ℕ) (left : List ℕ)
            → IsCore D.is_honest D.state opening self.old plain → IsLeastWritable plain page
            → D.is_honest self.old.desk.pool.file.disk
            → LeavesOnly D.remembers (D.clock self.old.desk.pool.file.disk) (D.clock self.new.desk.pool.file.disk)
            (HoldsPagesOf (write_failed plain page need left)) }
        ensures long { D.is_honest self.old.desk.pool.file.disk → LeavesOnly D.remembers
            (D.clock self.old.desk.pool.file.disk) (D.clock self.new.desk.pool.file.disk)
            (IsAsLong (D.state self.old.desk.pool.file.disk)) }
    {
        match self.desk.write_back() {
            Ok(wrote) => Ok(wrote),
            Err(why) => {
                self.record(who, FailedCall::Write, why);
                Err(why)
            }
        }
    }

    /// Makes the pages durable. It is refused, in this order, after the first fault, which is told, and exactly where
    /// a call of the pages' device failed: then the fault has its line, and the desk has stopped.
    pub fn settle(&mut self, who: Who) -> Result<(), Refusal>
        requires core { IsWholeCore D.is_honest D.state self.old }
        requires place { MayRecord who self.old.ledger }
        ensures log { self.new.desk.log ≡ self.old.desk.log }
        ensures same { SameFile D.is_honest self.old.desk.pool.file self.new.desk.pool.file }
        ensures cause { MatchResult result
            (λ _. (self.old.desk.stop ≡ None)
            × (D.faults self.new.desk.pool.file.disk ≡ D.faults self.old.desk.pool.file.disk))
            (IsWriteRefusal self.old.desk.stop
            (IsFault Pages (D.faults self.old.desk.pool.file.disk) (D.faults self.new.desk.pool.file.disk))) }
        ensures ledger { MatchResult result (λ _. self.new.ledger ≡ self.old.ledger)
            (λ why. self.new.ledger ≡ failed who why self.old.ledger) }
        ensures untouched { IfErr result (λ why. (IsDiskFault why → ⊥) → self.new.desk ≡ self.old.desk) }
        ensures done { (opening : History) (plain : Desk) → IsCore D.is_honest D.state opening self.old plain
            → OnOk result (IsCore D.is_honest D.state opening self.new (settled plain)) }
        ensures failed { (opening : History) (plain : Desk) → IsCore D.is_honest D.state opening self.old plain
            → IfErr result (λ why. IsDiskFault why → IsCore D.is_honest D.state opening self.new (stopped plain)) }
        ensures any_moment { (opening : History) (plain : Desk) → IsCore D.is_honest D.state opening self.old plain
            → D.is_honest self.old.desk.pool.file.disk
            → LeavesOnly D.remembers (D.clock self.old.desk.pool.file.disk) (D.clock self.new.desk.pool.file.disk)
            (HoldsPagesOf (stopped plain)) }
        ensures long { D.is_honest self.old.desk.pool.file.disk → LeavesOnly D.remembers
            (D.clock self.old.desk.pool.file.disk) (D.clock self.new.desk.pool.file.disk)
            (IsAsLong (D.state self.old.desk.pool.file.disk)) }
    {
        match self.desk.settle() {
            Ok(()) => Ok(()),
            Err(why) => {
                self.record(who, FailedCall::Write, why);
                Err(why)
            }
        }
    }

    /// Cuts the log to what it says now; false exactly where a page is dirty or not settled, or a capture is pending.
    /// It is refused, in this order, after the first fault, which is told; for want of memory; and exactly where a
    /// call of the log's device failed: then the fault has its line, and the desk has stopped.
    pub fn cut_log(&mut self, alloc: Global, who: Who) -> Result<bool, Refusal>
        requires core { IsWholeCore D.is_honest D.state self.old }
        requires place { MayRecord who self.old.ledger }
        ensures pages { self.new.desk.pool.file ≡ self.old.desk.pool.file }
        ensures same { SameDevice D.extent D.is_honest self.old.desk.log.disk self.new.desk.log.disk }
        ensures cause { MatchResult result
            (λ _. (self.old.desk.stop ≡ None)
            × (D.faults self.new.desk.log.disk ≡ D.faults self.old.desk.log.disk))
            (IsWriteRefusal self.old.desk.stop
            (IsMemoryOrFault Log (D.faults self.old.desk.log.disk) (D.faults self.new.desk.log.disk))) }
        ensures ledger { MatchResult result (λ _. self.new.ledger ≡ self.old.ledger)
            (λ why. self.new.ledger ≡ failed who why self.old.ledger) }
        ensures untouched { IfErr result (λ why. (IsDiskFault why → ⊥) → self.new.desk ≡ self.old.desk) }
        ensures done { (opening : History) (plain : Desk) → IsCore D.is_honest D.state opening self.old plain
            → IfOk result (λ was_cut. was_cut ≡ true → MayCut plain
            × IsCore D.is_honest D.state opening self.new (cut plain)) }
        ensures none { (opening : History) (plain : Desk) → IsCore D.is_honest D.state opening self.old plain
            → IfOk result (λ was_cut. was_cut ≡ false → (self.new ≡ self.old) × (MayCut plain → ⊥)) }
        ensures failed { (opening : History) (plain : Desk) → IsCore D.is_honest D.state opening self.old plain
            → IfErr result (λ why. IsDiskFault why
            → MayCut plain × IsCore D.is_honest D.state opening self.new (cut_failed plain)) }
        ensures any_moment { (opening : History) (plain : Desk) → IsCore D.is_honest D.state opening self.old plain
            → plain.stopped ≡ false → D.is_honest self.old.desk.log.disk
            → LeavesOnly D.remembers (D.clock self.old.desk.log.disk) (D.clock self.new.desk.log.disk)
            (ListsLogOf (cut_failed plain)) }
    {
        match self.desk.cut_log(alloc) {
            Ok(was_cut) => Ok(was_cut),
            Err(why) => {
                self.record(who, FailedCall::Write, why);
                Err(why)
            }
        }
    }

    /// Records the line of a fault of another device's call: it closes what the session has, or else is a worker's.
    /// Where a write or a sync met it, the desk stops. Takes no memory.
    pub fn note(&mut self, who: Who, device: Device, count: u64, call: FailedCall)
        requires core { IsWholeCore D.is_honest D.state self.old }
        requires place { MayFault who self.old.ledger }
        requires closes { Closes who (Fault device count call) (work_at self.old.ledger.works.slots who.session) }
        ensures log { self.new.desk.log ≡ self.old.desk.log }
        ensures file { self.new.desk.pool.file ≡ self.old.desk.pool.file }
        ensures ledger { self.new.ledger ≡ faulted who device count call self.old.ledger }
        ensures stops { (opening : History) (plain : Desk) → IsCore D.is_honest D.state opening self.old plain
            → is_write call ≡ true → IsCore D.is_honest D.state opening self.new (stopped plain) }
        ensures quiet { is_write call ≡ false → StaysCore D.is_honest D.state self.old self.new }
    {
        stop_where(&mut self.desk, call.is_write(), Stop { device, count });
        release_all(&mut self.desk, edits_of(&self.ledger.works, who.session));
        self.ledger.note(who, device, count, call);
    }
}
