//! Drops of snapshots.

ghost use Rattle.std.specs.Prelude.{◌≡◌, ◌≤◌, ◌<◌, ◌&&◌, ℕ, None, not, true, length, IsOk, IfErr, MatchResult, OnOk};
ghost use Rattle.disk_model.specs.Moments.{LeavesOnly};
ghost use Rattle.disk_model.specs.Runs.{SameDevice};
ghost use Rattle.retro_base.specs.declared.refusal.Refusal.TheVariants.{OutOfMemory};
ghost use Rattle.gate_log.specs.Cause.{IsDiskFault};
ghost use Rattle.history.specs.declared.entry.Change.TheVariants.{Drop};
ghost use Rattle.history.specs.declared.journal.What.TheVariants.{Dropped};
ghost use Rattle.history.specs.History.{History, base_after};
ghost use Rattle.history.specs.Marks.{newest, oldest};
ghost use Rattle.history.specs.Right.{IsRight};
ghost use Rattle.records.specs.declared.entry.Entry.TheVariants as entries;
ghost use Rattle.records.specs.Entries.{ChangeFits, change_bytes};
ghost use Rattle.journal_book.specs.Works.{work_at};
ghost use Rattle.page_pool.specs.Side.{HoldsSame, held};
ghost use Rattle.race_model.specs.Desk.{Desk};
ghost use Rattle.race_model.specs.Machine.{changed, change_failed};
ghost use Rattle.desk.specs.Cause.{IsChangeRefusal, IsWriteRefusal, stop_behind};
ghost use Rattle.desk.specs.Desk.{IsDesk, IsWhole, ListsLogOf};
ghost use Rattle.desk.specs.Steps.{IsChangeOf, SameButPages};
ghost use Rattle.txn_set.specs.Ledger.{IsKeptDrop, closed, is_closed};
ghost use Rattle.txn_set.specs.WorksFit.{WorksFit};
ghost use Rattle.store_core.specs.Calls.{dropped_behind, has_released};
ghost use Rattle.store_core.specs.Core.{IsCore, IsWholeCore, StaysCore};
ghost use Rattle.store_core.specs.Drops.{HasDropped, HasEndedDrop, IsAllowedDrop};
ghost use Rattle.store_core.specs.Drops.{drop_refused_by, is_kept_drop, without_drop};

use crate::desk_core::Core;
use desk::RunningDesk;
use disk_model::Disk;
use history::{Change, FailedCall, What};
use journal_book::{Work, Works};
use records::Entry;
use retro_base::{Refusal, Who};
use std::alloc::Global;
use txn_set::drop_refused;

// Drops the snapshots below a number in the log and in memory, where that is right.
fn send_drop<D: Disk + Drop>(
    desk: &mut RunningDesk<D>,
    alloc: Global,
    below: u32,
) -> Result<(), Refusal>
    requires whole { IsWhole D.is_honest D.state desk.old }
    requires right { IsRight desk.old.base (Drop below) }
    ensures whole { IsWhole D.is_honest D.state desk.new }
    ensures same { SameDevice D.extent D.is_honest desk.old.log.disk desk.new.log.disk }
    ensures pages { desk.new.pool.file ≡ desk.old.pool.file }
    ensures held { HoldsSame desk.old.pool desk.new.pool }
    ensures cause { MatchResult result
        (λ _. (desk.old.stop ≡ None) × (D.faults desk.new.log.disk ≡ D.faults desk.old.log.disk))
        (IsWriteRefusal desk.old.stop
        (IsChangeRefusal desk.old.log.log.area.log (length (change_bytes desk.old.log.log.version (Drop below)))
        (D.faults desk.old.log.disk) (D.faults desk.new.log.disk))) }
    ensures stop { MatchResult result (λ _. desk.new.stop ≡ desk.old.stop)
        (λ why. desk.new.stop ≡ stop_behind desk.old.stop why) }
    ensures untouched { IfErr result (λ why. (IsDiskFault why → ⊥) → desk.new ≡ desk.old) }
    ensures base { OnOk result (desk.new.base ≡ base_after desk.old.base (Drop below)) }
    ensures done { (plain : Desk)
        → IsChangeOf D.is_honest D.state desk.old (entries.Change (Drop below)) plain (Drop below)
        → OnOk result (IsDesk D.is_honest D.state desk.new (changed plain (Drop below))) }
    ensures failed { (plain : Desk)
        → IsChangeOf D.is_honest D.state desk.old (entries.Change (Drop below)) plain (Drop below)
        → IfErr result (λ why. IsDiskFault why
        → IsDesk D.is_honest D.state desk.new (change_failed plain (Drop below))) }
    ensures any_moment { (plain : Desk)
        → IsChangeOf D.is_honest D.state desk.old (entries.Change (Drop below)) plain (Drop below)
        → D.is_honest desk.old.log.disk → LeavesOnly D.remembers (D.clock desk.old.log.disk) (D.clock desk.new.log.disk)
        (ListsLogOf (change_failed plain (Drop below))) }
{
    let entry = Entry::Change(Change::Drop { below });
    desk.change(alloc, &entry)
}

// Whether a session keeps the line of a drop.
fn keeps_drop(works: &Works, session: u16) -> bool
    ensures { result ≡ is_kept_drop (work_at works.now.slots session) }
{
    match works.at(session) {
        Some(Work::KeptDrop(_)) => true,
        _ => false,
    }
}

impl<D: Disk + Drop> Core<D> {
    // Ends a drop that was refused behind its line: want of memory gives the line up, a fault closes it.
    fn end_drop(&mut self, who: Who, below: u32, why: Refusal)
        requires whole { IsWhole D.is_honest D.state self.old.desk }
        requires works { WorksFit self.old.ledger }
        requires kept { IsKeptDrop (work_at self.old.ledger.works.slots who.session) }
        ensures rest { SameButPages self.old.desk self.new.desk }
        ensures file { self.new.desk.pool.file ≡ self.old.desk.pool.file }
        ensures works { WorksFit self.new.ledger }
        ensures ledger { HasEndedDrop who below why self.old.ledger self.new.ledger }
        ensures untouched { (IsDiskFault why → ⊥) → self.new.desk ≡ self.old.desk }
        ensures held { IsDiskFault why → (page : ℕ) → held self.new.desk.pool page
            ≡ (held self.old.desk.pool page && not (has_released who why page self.old.ledger)) }
        ensures desk { (plain : Desk) → IsDesk D.is_honest D.state self.old.desk plain
            → IsDesk D.is_honest D.state self.new.desk plain }
        ensures stays { (IsDiskFault why → ⊥) → StaysCore D.is_honest D.state self.old self.new }
    {
        match why {
            Refusal::OutOfMemory => self.ledger.give_up(who.session),
            _ => self.record(who, FailedCall::Append(Change::Drop { below }), why),
        }
    }

    // Makes a drop that has its line, that nothing refuses, and that drops something.
    fn drop_record(&mut self, alloc: Global, who: Who, below: u32) -> Result<(), Refusal>
        requires core { IsWholeCore D.is_honest D.state self.old }
        requires kept { IsKeptDrop (work_at self.old.ledger.works.slots who.session) }
        requires free { drop_refused_by (newest self.old.desk.base.marks) below self.old.ledger ≡ None }
        requires above { oldest self.old.desk.base.marks < below }
        ensures same { SameDevice D.extent D.is_honest self.old.desk.log.disk self.new.desk.log.disk }
        ensures pages { self.new.desk.pool.file ≡ self.old.desk.pool.file }
        ensures ledger { MatchResult result (λ _. self.new.ledger ≡ closed who (Dropped below) self.old.ledger)
            (λ why. HasEndedDrop who below why self.old.ledger self.new.ledger) }
        ensures cause { MatchResult result
            (λ _. D.faults self.new.desk.log.disk ≡ D.faults self.old.desk.log.disk)
            (IsChangeRefusal self.old.desk.log.log.area.log
            (length (change_bytes self.old.desk.log.log.version (Drop below)))
            (D.faults self.old.desk.log.disk) (D.faults self.new.desk.log.disk)) }
        ensures untouched { IfErr result (λ why. (IsDiskFault why → ⊥) → self.new.desk ≡ self.old.desk) }
        ensures done { (opening : History) (plain : Desk) → IsCore D.is_honest D.state opening self.old plain
            → OnOk result (IsCore D.is_honest D.state opening self.new (changed plain (Drop below))) }
        ensures failed { (opening : History) (plain : Desk) → IsCore D.is_honest D.state opening self.old plain
            → IfErr result (λ why. IsDiskFault why
            → IsCore D.is_honest D.state opening self.new (change_failed plain (Drop below))) }
        ensures stays { IfErr result (λ why. (IsDiskFault why → ⊥)
            → StaysCore D.is_honest D.state self.old self.new) }
        ensures any_moment { (opening : History) (plain : Desk) → IsCore D.is_honest D.state opening self.old plain
            → D.is_honest self.old.desk.log.disk
            → LeavesOnly D.remembers (D.clock self.old.desk.log.disk) (D.clock self.new.desk.log.disk)
            (ListsLogOf (change_failed plain (Drop below))) }
    {
        match send_drop(&mut self.desk, alloc, below) {
            Ok(()) => {
                self.ledger.close(who, What::Dropped { below });
                Ok(())
            }
            Err(why) => {
                self.end_drop(who, below, why);
                Err(why)
            }
        }
    }

    // Makes a drop that has its line and that nothing refuses.
    fn drop_allowed(&mut self, alloc: Global, who: Who, below: u32) -> Result<(), Refusal>
        requires core { IsWholeCore D.is_honest D.state self.old }
        requires kept { IsKeptDrop (work_at self.old.ledger.works.slots who.session) }
        requires free { drop_refused_by (newest self.old.desk.base.marks) below self.old.ledger ≡ None }
        ensures same { SameDevice D.extent D.is_honest self.old.desk.log.disk self.new.desk.log.disk }
        ensures pages { self.new.desk.pool.file ≡ self.old.desk.pool.file }
        ensures ledger { MatchResult result (λ _. self.new.ledger ≡ closed who (Dropped below) self.old.ledger)
            (λ why. HasEndedDrop who below why self.old.ledger self.new.ledger) }
        ensures cause { MatchResult result
            (λ _. D.faults self.new.desk.log.disk ≡ D.faults self.old.desk.log.disk)
            (IsChangeRefusal self.old.desk.log.log.area.log
            (length (change_bytes self.old.desk.log.log.version (Drop below)))
            (D.faults self.old.desk.log.disk) (D.faults self.new.desk.log.disk)) }
        ensures untouched { IfErr result (λ why. (IsDiskFault why → ⊥) → self.new.desk ≡ self.old.desk) }
        ensures nothing { below ≤ oldest self.old.desk.base.marks
            → IsOk result × (self.new.desk ≡ self.old.desk) }
        ensures done { (opening : History) (plain : Desk) → IsCore D.is_honest D.state opening self.old plain
            → OnOk result (IsCore D.is_honest D.state opening self.new
            (dropped_behind (oldest self.old.desk.base.marks) below plain)) }
        ensures failed { (opening : History) (plain : Desk) → IsCore D.is_honest D.state opening self.old plain
            → IfErr result (λ why. IsDiskFault why
            → IsCore D.is_honest D.state opening self.new (change_failed plain (Drop below))) }
        ensures stays { IfErr result (λ why. (IsDiskFault why → ⊥)
            → StaysCore D.is_honest D.state self.old self.new) }
        ensures any_moment { (opening : History) (plain : Desk) → IsCore D.is_honest D.state opening self.old plain
            → oldest self.old.desk.base.marks < below → D.is_honest self.old.desk.log.disk
            → LeavesOnly D.remembers (D.clock self.old.desk.log.disk) (D.clock self.new.desk.log.disk)
            (ListsLogOf (change_failed plain (Drop below))) }
    {
        if below > self.desk.horizon().0 {
            return self.drop_record(alloc, who, below);
        }
        self.ledger.close(who, What::Dropped { below });
        Ok(())
    }

    // Why a drop of the snapshots below a number is refused that has its line.
    fn why_not_dropped(&self, below: u64) -> Option<Refusal>
        ensures { result ≡ drop_refused_by (newest self.now.desk.base.marks) below self.now.ledger }
    {
        let newest = self.desk.horizon().1;
        drop_refused(&self.ledger.works, self.ledger.book.stop(), newest, below)
    }

    /// Drops the snapshots below a number, for a session that has nothing open. It is refused, in this order: where
    /// its line finds no room; after the first fault, which is told; where no snapshot has the number; where a look
    /// pins a snapshot below it, which names the least such and the least session that pins it; for want of memory;
    /// where the log has no room; and exactly where a call of the log's device failed. The second to the fourth have
    /// a line that says so, which takes memory where none is kept. Want of memory gives the drop's line up; where the
    /// log has no room it stays kept for the session's next drop, or for a fault; behind a fault the line is the
    /// fault's, and the desk has stopped. Where the number is not above the oldest snapshot's no device is called.
    pub fn drop_below(&mut self, alloc: Global, who: Who, below: u64) -> Result<(), Refusal>
        requires core { IsWholeCore D.is_honest D.state self.old }
        requires is_closed { is_closed (work_at self.old.ledger.works.slots who.session) ≡ true }
        ensures same { SameDevice D.extent D.is_honest self.old.desk.log.disk self.new.desk.log.disk }
        ensures pages { self.new.desk.pool.file ≡ self.old.desk.pool.file }
        ensures dropped { HasDropped who below (newest self.old.desk.base.marks) self.old.ledger self.new.ledger
            result }
        ensures cause { IsAllowedDrop self.old who below → MatchResult result
            (λ _. D.faults self.new.desk.log.disk ≡ D.faults self.old.desk.log.disk)
            (IsChangeRefusal self.old.desk.log.log.area.log
            (length (change_bytes self.old.desk.log.log.version (Drop below)))
            (D.faults self.old.desk.log.disk) (D.faults self.new.desk.log.disk)) }
        ensures untouched { IfErr result (λ why. (IsDiskFault why → ⊥) → self.new.desk ≡ self.old.desk) }
        ensures nothing { below ≤ oldest self.old.desk.base.marks → IsAllowedDrop self.old who below
            → IfErr result (λ why. why ≡ OutOfMemory) × (self.new.desk ≡ self.old.desk) }
        ensures done { (opening : History) (plain : Desk) → IsCore D.is_honest D.state opening self.old plain
            → OnOk result (IsCore D.is_honest D.state opening self.new
            (dropped_behind (oldest self.old.desk.base.marks) below plain)) }
        ensures failed { (opening : History) (plain : Desk) → IsCore D.is_honest D.state opening self.old plain
            → IfErr result (λ why. IsDiskFault why
            → IsCore D.is_honest D.state opening self.new (change_failed plain (Drop below))) }
        ensures stays { IfErr result (λ why. (IsDiskFault why → ⊥)
            → StaysCore D.is_honest D.state self.old self.new) }
        ensures any_moment { (opening : History) (plain : Desk) → IsCore D.is_honest D.state opening self.old plain
            → IsAllowedDrop self.old who below → oldest self.old.desk.base.marks < below
            → D.is_honest self.old.desk.log.disk
            → LeavesOnly D.remembers (D.clock self.old.desk.log.disk) (D.clock self.new.desk.log.disk)
            (ListsLogOf (change_failed plain (Drop below))) }
    {
        if let Err(why) = self.ledger.keep_drop(who) {
            return Err(why);
        }
        match self.why_not_dropped(below) {
            Some(why) => {
                self.ledger.close(who, What::Refused { why });
                Err(why)
            }
            None => self.drop_allowed(alloc, who, below as u32),
        }
    }

    /// Gives up the line that the session keeps for a drop, if any. Takes no memory and calls no device.
    pub fn give_up_drop(&mut self, who: Who)
        requires core { IsWholeCore D.is_honest D.state self.old }
        ensures desk { self.new.desk ≡ self.old.desk }
        ensures given_up { self.new.ledger ≡ without_drop who.session self.old.ledger }
        ensures core { StaysCore D.is_honest D.state self.old self.new }
    {
        if keeps_drop(&self.ledger.works, who.session) {
            self.ledger.give_up(who.session);
        }
    }
}
