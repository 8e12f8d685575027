//! Commits as the desk is asked for them.

ghost use Rattle.std.specs.Prelude.{◌≡◌, ◌&&◌, not, true, false, ℕ, Some, None, is_some, option_copied, length};
ghost use Rattle.std.specs.Prelude.{if◌then◌else◌, IsTrue, Err, IfErr, IfOk, IfSome, IsOk, MatchResult, OnOk};
ghost use Rattle.disk_model.specs.Moments.{LeavesOnly};
ghost use Rattle.disk_model.specs.Runs.{SameDevice};
ghost use Rattle.retro_base.specs.declared.refusal.Refusal.{Refusal};
ghost use Rattle.gate_log.specs.Cause.{IsDiskFault};
ghost use Rattle.history.specs.Lines.{first_stop};
ghost use Rattle.history.specs.declared.entry.Change.TheVariants.{Commit};
ghost use Rattle.history.specs.declared.journal.FailedCall.TheVariants.{Append};
ghost use Rattle.history.specs.History.{History};
ghost use Rattle.history.specs.Label.{is_label};
ghost use Rattle.history.specs.Marks.{newest};
ghost use Rattle.records.specs.Entries.{change_bytes};
ghost use Rattle.journal_book.specs.declared.work.Transaction.{Transaction};
ghost use Rattle.journal_book.specs.declared.work.Work.TheVariants.{Open};
ghost use Rattle.journal_book.specs.Works.{work_at};
ghost use Rattle.race_model.specs.Desk.{Desk};
ghost use Rattle.race_model.specs.Machine.{changed, change_failed};
ghost use Rattle.desk.specs.Cause.{IsChangeRefusal};
ghost use Rattle.page_pool.specs.Side.{held};
ghost use Rattle.desk.specs.Desk.{IsDesk, IsWhole, ListsLogOf};
ghost use Rattle.desk.specs.Steps.{SameButPages};
ghost use Rattle.txn_set.specs.Ledger.{IsOpenAs, committed, kept_behind, taken, with_open};
ghost use Rattle.txn_set.specs.Refused.{commit_refused, counts_of, leaves_record};
ghost use Rattle.txn_set.specs.WorksFit.{WorksFit};
ghost use Rattle.store_core.specs.Calls.{failed_at, has_released};
ghost use Rattle.store_core.specs.Commits.{HasEnded, IsAllowed, IsRefusedSo, MayCommitAs, desk_behind};
ghost use Rattle.store_core.specs.Core.{IsCore, IsWholeCore, StaysCore};

use crate::commit::{Sent, counts_of, label_of, leaves_record, send};
use crate::desk_core::Core;
use crate::works::{edits_of, release_all};
use disk_model::Disk;
use history::{Change, Label};
use journal_book::Transaction;
use retro_base::{Refusal, Who};
use std::alloc::Global;

impl<D: Disk + Drop> Core<D> {
    // Records the line of a fault that the append of a commit met, if this is one, with the change that it leaves in
    // doubt: it closes the transaction, and releases its pages.
    fn record_commit(&mut self, who: Who, label: Option<Label>, why: Refusal)
        requires whole { IsWhole D.is_honest D.state self.old.desk }
        requires works { WorksFit self.old.ledger }
        requires is_open { IsOpenAs self.old.ledger.works.slots who }
        ensures rest { SameButPages self.old.desk self.new.desk }
        ensures file { self.new.desk.pool.file ≡ self.old.desk.pool.file }
        ensures works { WorksFit self.new.ledger }
        ensures ledger { (t : Transaction) → work_at self.old.ledger.works.slots who.session ≡ Some (Open t)
            → self.new.ledger ≡ failed_at (Append (Commit label t.edits)) who why self.old.ledger }
        ensures untouched { (IsDiskFault why → ⊥) → self.new.desk ≡ self.old.desk }
        ensures held { (page : ℕ) → held self.new.desk.pool page
            ≡ (held self.old.desk.pool page && not (has_released who why page self.old.ledger)) }
        ensures desk { (plain : Desk) → IsDesk D.is_honest D.state self.old.desk plain
            → IsDesk D.is_honest D.state self.new.desk plain }
    {
        if let Refusal::DiskFault { device, count } = why {
            release_all(&mut self.desk, edits_of(&self.ledger.works, who.session));
            let Transaction { edits, .. } = self.ledger.take(who);
            let change = Change::Commit {
                label,
                writes: edits,
            };
            self.ledger.fail(who, device, count, change);
        }
    }

    // Makes a commit that was not refused, and that leaves a record.
    fn commit_record(
        &mut self,
        alloc: Global,
        who: Who,
        label: Option<Label>,
    ) -> Result<(), Refusal>
        requires core { IsWholeCore D.is_honest D.state self.old }
        requires may { MayCommitAs self.old who label }
        requires leaves { (t : Transaction) → work_at self.old.ledger.works.slots who.session ≡ Some (Open t)
            → leaves_record label t.edits ≡ true }
        ensures same { SameDevice D.extent D.is_honest self.old.desk.log.disk self.new.desk.log.disk }
        ensures pages { self.new.desk.pool.file ≡ self.old.desk.pool.file }
        ensures ledger { (t : Transaction) → IsAllowed self.old who label t
            → HasEnded who label t self.old.ledger self.new.ledger result }
        ensures cause { (t : Transaction) → IsAllowed self.old who label t → MatchResult result
            (λ _. D.faults self.new.desk.log.disk ≡ D.faults self.old.desk.log.disk)
            (IsChangeRefusal self.old.desk.log.log.area.log
            (length (change_bytes self.old.desk.log.log.version (Commit label t.edits)))
            (D.faults self.old.desk.log.disk) (D.faults self.new.desk.log.disk)) }
        ensures untouched { IfErr result (λ why. (IsDiskFault why → ⊥) → self.new ≡ self.old) }
        ensures done { (opening : History) (plain : Desk) (t : Transaction)
            → IsCore D.is_honest D.state opening self.old plain → IsAllowed self.old who label t
            → OnOk result (IsCore D.is_honest D.state opening self.new (changed plain (Commit label t.edits))) }
        ensures failed { (opening : History) (plain : Desk) (t : Transaction)
            → IsCore D.is_honest D.state opening self.old plain → IsAllowed self.old who label t
            → IfErr result (λ why. IsDiskFault why
            → IsCore D.is_honest D.state opening self.new (change_failed plain (Commit label t.edits))) }
        ensures any_moment { (opening : History) (plain : Desk) (t : Transaction)
            → IsCore D.is_honest D.state opening self.old plain → IsAllowed self.old who label t
            → D.is_honest self.old.desk.log.disk
            → LeavesOnly D.remembers (D.clock self.old.desk.log.disk) (D.clock self.new.desk.log.disk)
            (ListsLogOf (change_failed plain (Commit label t.edits))) }
    {
        let Transaction {
            who: item,
            began,
            edits,
            reads,
            kept,
        } = self.ledger.take(who);
        let Sent {
            label,
            writes,
            outcome,
        } = send(&mut self.desk, alloc, label, edits);
        match outcome {
            Ok(()) => {
                release_all(&mut self.desk, writes.images());
                self.ledger.finish(who, label, writes);
                Ok(())
            }
            Err(why) => {
                self.ledger.put(Transaction {
                    who: item,
                    began,
                    edits: writes,
                    reads,
                    kept,
                });
                self.record_commit(who, label, why);
                Err(why)
            }
        }
    }

    // Closes a transaction that neither wrote nor declares.
    fn commit_nothing(&mut self, who: Who, label: Option<Label>)
        requires core { IsWholeCore D.is_honest D.state self.old }
        requires may { MayCommitAs self.old who label }
        requires nothing { (t : Transaction) → work_at self.old.ledger.works.slots who.session ≡ Some (Open t)
            → leaves_record label t.edits ≡ false }
        ensures desk { self.new.desk ≡ self.old.desk }
        ensures ledger { (t : Transaction) → IsAllowed self.old who label t
            → self.new.ledger ≡ committed who label t.edits (taken who self.old.ledger) }
        ensures core { StaysCore D.is_honest D.state self.old self.new }
    {
        let Transaction { edits, .. } = self.ledger.take(who);
        self.ledger.finish(who, label, edits);
    }

    // Makes a commit that was not refused.
    fn commit_allowed(
        &mut self,
        alloc: Global,
        who: Who,
        label: Option<Label>,
    ) -> Result<(), Refusal>
        requires core { IsWholeCore D.is_honest D.state self.old }
        requires may { MayCommitAs self.old who label }
        ensures same { SameDevice D.extent D.is_honest self.old.desk.log.disk self.new.desk.log.disk }
        ensures pages { self.new.desk.pool.file ≡ self.old.desk.pool.file }
        ensures ledger { (t : Transaction) → IsAllowed self.old who label t
            → HasEnded who label t self.old.ledger self.new.ledger result }
        ensures cause { (t : Transaction) → IsAllowed self.old who label t → MatchResult result
            (λ _. D.faults self.new.desk.log.disk ≡ D.faults self.old.desk.log.disk)
            (IsChangeRefusal self.old.desk.log.log.area.log
            (length (change_bytes self.old.desk.log.log.version (Commit label t.edits)))
            (D.faults self.old.desk.log.disk) (D.faults self.new.desk.log.disk)) }
        ensures untouched { IfErr result (λ why. (IsDiskFault why → ⊥) → self.new ≡ self.old) }
        ensures nothing { (t : Transaction) → IsAllowed self.old who label t → leaves_record label t.edits ≡ false
            → IsOk result × (self.new.desk ≡ self.old.desk) }
        ensures done { (opening : History) (plain : Desk) (t : Transaction)
            → IsCore D.is_honest D.state opening self.old plain → IsAllowed self.old who label t
            → OnOk result (IsCore D.is_honest D.state opening self.new (desk_behind plain label t.edits)) }
        ensures failed { (opening : History) (plain : Desk) (t : Transaction)
            → IsCore D.is_honest D.state opening self.old plain → IsAllowed self.old who label t
            → IfErr result (λ why. IsDiskFault why
            → IsCore D.is_honest D.state opening self.new (change_failed plain (Commit label t.edits))) }
        ensures any_moment { (opening : History) (plain : Desk) (t : Transaction)
            → IsCore D.is_honest D.state opening self.old plain → IsAllowed self.old who label t
            → leaves_record label t.edits ≡ true → D.is_honest self.old.desk.log.disk
            → LeavesOnly D.remembers (D.clock self.old.desk.log.disk) (D.clock self.new.desk.log.disk)
            (ListsLogOf (change_failed plain (Commit label t.edits))) }
    {
        if leaves_record(&label, edits_of(&self.ledger.works, who.session)) {
            return self.commit_record(alloc, who, label);
        }
        self.commit_nothing(who, label);
        Ok(())
    }

    /// Commits the transaction of this item: its edits become public, and where there is a mark a snapshot with that
    /// label is declared, whose number it answers. It is refused, in this order: for what the transaction keeps; for
    /// the first fault, where it would leave a record; where a page that it read was changed since, which names the
    /// last item that changed the least such page, and is kept; where the page images pass the journal's limit; where
    /// the snapshots do; where the archive has too few slots; for want of memory, all of which is taken before the
    /// log is written; where the log has no room; and exactly where a call of the log's device failed. Behind the
    /// last the transaction is closed with the line of the fault, and the desk has stopped; behind every other the
    /// transaction is open as it was. The last three never end a commit of neither edit nor mark.
    pub fn commit(
        &mut self,
        alloc: Global,
        who: Who,
        mark: Option<&[u8]>,
    ) -> Result<Option<u32>, Refusal>
        requires core { IsWholeCore D.is_honest D.state self.old }
        requires is_open { IsOpenAs self.old.ledger.works.slots who }
        requires label { IfSome mark (λ bytes. IsTrue (is_label bytes.now)) }
        ensures same { SameDevice D.extent D.is_honest self.old.desk.log.disk self.new.desk.log.disk }
        ensures pages { self.new.desk.pool.file ≡ self.old.desk.pool.file }
        ensures refused { (t : Transaction) (why : Refusal) → IsRefusedSo self.old who (option_copied mark.entry) t why
            → (result ≡ Err why) × (self.new.desk ≡ self.old.desk)
            × (self.new.ledger ≡ with_open who (kept_behind why t) self.old.ledger) }
        ensures stays { (t : Transaction) (why : Refusal) → IsRefusedSo self.old who (option_copied mark.entry) t why
            → StaysCore D.is_honest D.state self.old self.new }
        ensures number { IfOk result (λ number. number
            ≡ (if is_some mark.entry then Some (newest self.new.desk.base.marks) else None)) }
        ensures ledger { (t : Transaction) → IsAllowed self.old who (option_copied mark.entry) t
            → HasEnded who (option_copied mark.entry) t self.old.ledger self.new.ledger result }
        ensures cause { (t : Transaction) → IsAllowed self.old who (option_copied mark.entry) t → MatchResult result
            (λ _. D.faults self.new.desk.log.disk ≡ D.faults self.old.desk.log.disk)
            (IsChangeRefusal self.old.desk.log.log.area.log
            (length (change_bytes self.old.desk.log.log.version (Commit (option_copied mark.entry) t.edits)))
            (D.faults self.old.desk.log.disk) (D.faults self.new.desk.log.disk)) }
        ensures untouched { (t : Transaction) → IsAllowed self.old who (option_copied mark.entry) t
            → IfErr result (λ why. (IsDiskFault why → ⊥) → self.new ≡ self.old) }
        ensures nothing { (t : Transaction) → IsAllowed self.old who (option_copied mark.entry) t
            → leaves_record (option_copied mark.entry) t.edits ≡ false
            → IsOk result × (self.new.desk ≡ self.old.desk) }
        ensures done { (opening : History) (plain : Desk) (t : Transaction)
            → IsCore D.is_honest D.state opening self.old plain → IsAllowed self.old who (option_copied mark.entry) t
            → OnOk result (IsCore D.is_honest D.state opening self.new
            (desk_behind plain (option_copied mark.entry) t.edits)) }
        ensures failed { (opening : History) (plain : Desk) (t : Transaction)
            → IsCore D.is_honest D.state opening self.old plain → IsAllowed self.old who (option_copied mark.entry) t
            → IfErr result (λ why. IsDiskFault why → IsCore D.is_honest D.state opening self.new
            (change_failed plain (Commit (option_copied mark.entry) t.edits))) }
        ensures any_moment { (opening : History) (plain : Desk) (t : Transaction)
            → IsCore D.is_honest D.state opening self.old plain → IsAllowed self.old who (option_copied mark.entry) t
            → leaves_record (option_copied mark.entry) t.edits ≡ true → D.is_honest self.old.desk.log.disk
            → LeavesOnly D.remembers (D.clock self.old.desk.log.disk) (D.clock self.new.desk.log.disk)
            (ListsLogOf (change_failed plain (Commit (option_copied mark.entry) t.edits))) }
    {
        if let Some(why) = self.why_refused(who, mark) {
            self.ledger.keep(who, why);
            return Err(why);
        }
        match label_of(alloc, mark) {
            Err(_) => Err(Refusal::OutOfMemory),
            Ok(label) => match self.commit_allowed(alloc, who, label) {
                Ok(()) => Ok(self.declared(mark.is_some())),
                Err(why) => Err(why),
            },
        }
    }

    // Why a commit is refused before it takes any memory.
    fn why_refused(&self, who: Who, mark: Option<&[u8]>) -> Option<Refusal>
        requires core { IsWholeCore D.is_honest D.state self.now }
        requires is_open { IsOpenAs self.now.ledger.works.slots who }
        ensures { (t : Transaction) → work_at self.now.ledger.works.slots who.session ≡ Some (Open t)
            → result ≡ commit_refused (first_stop self.now.ledger.book.lines) (counts_of self.now.desk.base t.edits)
            self.now.ledger.book.lines t (is_some (option_copied mark.entry)) }
    {
        let edits = edits_of(&self.ledger.works, who.session);
        let counts = counts_of(self.desk.base(), edits);
        let fault = self.ledger.book.stop();
        self.ledger
            .commit_refused(who, fault, &counts, mark.is_some())
    }

    // The number of the newest snapshot, where one was declared.
    fn declared(&self, declares: bool) -> Option<u32>
        ensures { result ≡ (if declares then Some (newest self.now.desk.base.marks) else None) }
    {
        if declares {
            return Some(self.desk.horizon().1);
        }
        None
    }
}
