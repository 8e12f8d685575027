//! Pages read and edited by open transactions.

ghost use Rattle.std.specs.Prelude.{◌≡◌, ◌<◌, ◌==◌, ◌&&◌, not, ℕ, List, Some, None, true, false};
ghost use Rattle.std.specs.Prelude.{length, if◌then◌else◌, Err, IfErr, MatchResult, OnErr, OnOk};
ghost use Rattle.block_file.specs.Blocks.{SameFile};
ghost use Rattle.disk_model.specs.Runs.{OnlyReads};
ghost use Rattle.retro_base.specs.Cause.{FaultsAlone};
ghost use Rattle.retro_base.specs.declared.device.Device.TheVariants.{Pages};
ghost use Rattle.retro_base.specs.declared.limits.TheConstants.{PAGE_BYTES};
ghost use Rattle.retro_base.specs.declared.refusal.Refusal.{Refusal};
ghost use Rattle.retro_base.specs.declared.refusal.Refusal.TheVariants.{OutOfMemory};
ghost use Rattle.gate_log.specs.Cause.{IsDiskFault};
ghost use Rattle.history.specs.History.{History, now};
ghost use Rattle.history.specs.Writes.{is_among, pages_of};
ghost use Rattle.journal_book.specs.declared.work.Transaction.{Transaction};
ghost use Rattle.journal_book.specs.declared.work.Work.TheVariants.{Open};
ghost use Rattle.journal_book.specs.Works.{editing, own_edit, reading, work_at};
ghost use Rattle.page_pool.specs.Side.{held};
ghost use Rattle.race_model.specs.Desk.{Desk};
ghost use Rattle.redo_log.specs.Cause.{IsMemoryOrFault};
ghost use Rattle.desk.specs.Desk.{IsDesk, IsWhole};
ghost use Rattle.desk.specs.Steps.{SameButPages};
ghost use Rattle.txn_set.specs.Ledger.{IsOpenAs, with_open};
ghost use Rattle.txn_set.specs.Refused.{edit_refused, read_refused};
ghost use Rattle.txn_set.specs.WorksFit.{WorksFit};
ghost use Rattle.store_core.specs.Calls.{HasAnswered};
ghost use Rattle.store_core.specs.Core.{IsCore, IsWholeCore, StaysCore};

use crate::desk_core::Core;
use disk_model::Disk;
use retro_base::{PAGE_BYTES, Page, Refusal, Who};
use txn_set::Ledger;

// Whether the transaction of this item edits the page.
fn has_edited(ledger: &Ledger, who: Who, page: u32) -> bool
    requires { IsOpenAs ledger.now.works.slots who }
    ensures { (t : Transaction) → work_at ledger.now.works.slots who.session ≡ Some (Open t)
        → result ≡ is_among page (pages_of t.edits) }
{
    ledger.own_edit(who, page).is_some()
}

impl<D: Disk + Drop> Core<D> {
    // Fills `out` with the transaction's own edit of the page, or else with the page as it is.
    fn page_for(&mut self, who: Who, page: u32, out: &mut Page) -> Result<(), Refusal>
        requires core { IsWholeCore D.is_honest D.state self.old }
        requires is_open { IsOpenAs self.old.ledger.works.slots who }
        requires inside { page < self.old.desk.base.page_count }
        ensures ledger { self.new.ledger ≡ self.old.ledger }
        ensures rest { SameButPages self.old.desk self.new.desk }
        ensures same { SameFile D.is_honest self.old.desk.pool.file self.new.desk.pool.file }
        ensures cause { FaultsAlone Pages (D.faults self.old.desk.pool.file.disk) (D.faults
            self.new.desk.pool.file.disk) result }
        ensures err { OnErr result (out.new ≡ out.old) }
        ensures own { (t : Transaction) (bytes : List ℕ)
            → work_at self.old.ledger.works.slots who.session ≡ Some (Open t)
            → own_edit page t.edits ≡ Some bytes → OnOk result (out.new ≡ bytes) }
        ensures page { (opening : History) (plain : Desk) (t : Transaction)
            → IsCore D.is_honest D.state opening self.old plain
            → D.is_honest self.old.desk.pool.file.disk → work_at self.old.ledger.works.slots who.session ≡ Some (Open t)
            → own_edit page t.edits ≡ None → OnOk result (out.new ≡ (now plain.history).pages page) }
        ensures quiet { D.is_honest self.old.desk.pool.file.disk
            → OnlyReads D.remembers D.state D.clock self.old.desk.pool.file.disk self.new.desk.pool.file.disk }
        ensures core { StaysCore D.is_honest D.state self.old self.new }
    {
        match self.ledger.own_edit(who, page) {
            Some(bytes) => {
                *out = *bytes;
                Ok(())
            }
            None => self.desk.read(page, out),
        }
    }

    /// Reads a page for the transaction of this item: its own edit of the page, or else the page as it is; the page
    /// counts as read. It is refused, in this order, for what the transaction keeps; where another item changed the
    /// page since this one began, which names the last; exactly where a call of the pages' device failed; and for want
    /// of memory, not where the page was read before; after each other refusal `out` is as before. The transaction
    /// keeps an overlap and a fault.
    pub fn read(&mut self, who: Who, page: u32, out: &mut Page) -> Result<(), Refusal>
        requires core { IsWholeCore D.is_honest D.state self.old }
        requires is_open { IsOpenAs self.old.ledger.works.slots who }
        requires inside { page < self.old.desk.base.page_count }
        ensures rest { SameButPages self.old.desk self.new.desk }
        ensures same { SameFile D.is_honest self.old.desk.pool.file self.new.desk.pool.file }
        ensures refused { (t : Transaction) (why : Refusal)
            → work_at self.old.ledger.works.slots who.session ≡ Some (Open t)
            → read_refused self.old.ledger.book.lines t page ≡ Some why
            → (result ≡ Err why) × (self.new.desk ≡ self.old.desk) }
        ensures err { IfErr result (λ why. (why ≡ Refusal.OutOfMemory → ⊥) → out.new ≡ out.old) }
        ensures ledger { (t : Transaction) → work_at self.old.ledger.works.slots who.session ≡ Some (Open t)
            → HasAnswered who t (reading page t) (read_refused self.old.ledger.book.lines t page) self.old.ledger
            self.new.ledger result }
        ensures cause { (t : Transaction) → work_at self.old.ledger.works.slots who.session ≡ Some (Open t)
            → read_refused self.old.ledger.book.lines t page ≡ None
            → MatchResult result (λ _. D.faults self.new.desk.pool.file.disk ≡ D.faults self.old.desk.pool.file.disk)
            (IsMemoryOrFault Pages (D.faults self.old.desk.pool.file.disk) (D.faults self.new.desk.pool.file.disk)) }
        ensures own { (t : Transaction) (bytes : List ℕ)
            → work_at self.old.ledger.works.slots who.session ≡ Some (Open t)
            → own_edit page t.edits ≡ Some bytes → OnOk result (out.new ≡ bytes) }
        ensures page { (opening : History) (plain : Desk) (t : Transaction)
            → IsCore D.is_honest D.state opening self.old plain
            → D.is_honest self.old.desk.pool.file.disk → work_at self.old.ledger.works.slots who.session ≡ Some (Open t)
            → own_edit page t.edits ≡ None → OnOk result (out.new ≡ (now plain.history).pages page) }
        ensures read_before { (t : Transaction) → work_at self.old.ledger.works.slots who.session ≡ Some (Open t)
            → read_refused self.old.ledger.book.lines t page ≡ None → is_among page t.reads.keys ≡ true
            → IfErr result IsDiskFault }
        ensures quiet { D.is_honest self.old.desk.pool.file.disk
            → OnlyReads D.remembers D.state D.clock self.old.desk.pool.file.disk self.new.desk.pool.file.disk }
        ensures core { StaysCore D.is_honest D.state self.old self.new }
    {
        if let Some(why) = self.ledger.read_refused(who, page) {
            self.ledger.keep(who, why);
            return Err(why);
        }
        match self.page_for(who, page, out) {
            Ok(()) => match self.ledger.add_read(who, page) {
                Ok(()) => Ok(()),
                Err(_) => Err(Refusal::OutOfMemory),
            },
            Err(why) => {
                self.ledger.keep(who, why);
                Err(why)
            }
        }
    }

    // Adds the edit of a page that is held. Refused for want of memory alone; then the page is released, unless the
    // transaction edited it before.
    fn add_held(&mut self, who: Who, page: u32, bytes: &Page) -> Result<(), Refusal>
        requires desk { IsWhole D.is_honest D.state self.old.desk }
        requires works { WorksFit self.old.ledger }
        requires is_open { IsOpenAs self.old.ledger.works.slots who }
        requires inside { page < self.old.ledger.book.pages }
        requires allowed { (t : Transaction) → work_at self.old.ledger.works.slots who.session ≡ Some (Open t)
            → edit_refused self.old.ledger.book.lines self.old.ledger.works.slots t page ≡ None }
        ensures rest { SameButPages self.old.desk self.new.desk }
        ensures file { self.new.desk.pool.file ≡ self.old.desk.pool.file }
        ensures whole { length bytes.now ≡ PAGE_BYTES }
        ensures works { WorksFit self.new.ledger }
        ensures done { (t : Transaction) → work_at self.old.ledger.works.slots who.session ≡ Some (Open t)
            → OnOk result (self.new.ledger
            ≡ with_open who (editing (record { page = page; bytes = bytes.now }) t) self.old.ledger) }
        ensures kept { OnOk result (self.new.desk ≡ self.old.desk) }
        ensures memory { IfErr result (λ why. (why ≡ OutOfMemory) × (self.new.ledger ≡ self.old.ledger)) }
        ensures released { (t : Transaction) → work_at self.old.ledger.works.slots who.session ≡ Some (Open t)
            → OnErr result ((other : ℕ) → held self.new.desk.pool other
            ≡ (if (other == page) && not (is_among page (pages_of t.edits)) then false
            else held self.old.desk.pool other)) }
        ensures desk { (plain : Desk) → IsDesk D.is_honest D.state self.old.desk plain
            → IsDesk D.is_honest D.state self.new.desk plain }
    {
        prove!(bytes.bytes().len() == PAGE_BYTES);
        match self.ledger.add_edit(who, page, bytes) {
            Ok(()) => Ok(()),
            Err(_) => {
                if !has_edited(&self.ledger, who, page) {
                    self.desk.release(page);
                }
                Err(Refusal::OutOfMemory)
            }
        }
    }

    /// Edits a page for the transaction of this item, and takes its latch. It is refused, in this order, for what the
    /// transaction keeps; for the holder of the page's latch, an open transaction of another session; where another
    /// item changed the page since this one began, which names the last; where it would be the 1,025th page; exactly
    /// where a call of the pages' device failed; and for want of memory. The transaction keeps all but the last.
    pub fn edit(&mut self, who: Who, page: u32, bytes: &Page) -> Result<(), Refusal>
        requires core { IsWholeCore D.is_honest D.state self.old }
        requires is_open { IsOpenAs self.old.ledger.works.slots who }
        requires inside { page < self.old.desk.base.page_count }
        ensures rest { SameButPages self.old.desk self.new.desk }
        ensures same { SameFile D.is_honest self.old.desk.pool.file self.new.desk.pool.file }
        ensures refused { (t : Transaction) (why : Refusal)
            → work_at self.old.ledger.works.slots who.session ≡ Some (Open t)
            → edit_refused self.old.ledger.book.lines self.old.ledger.works.slots t page ≡ Some why
            → (result ≡ Err why) × (self.new.desk ≡ self.old.desk) }
        ensures ledger { (t : Transaction) → work_at self.old.ledger.works.slots who.session ≡ Some (Open t)
            → HasAnswered who t (editing (record { page = page; bytes = bytes.now }) t)
            (edit_refused self.old.ledger.book.lines self.old.ledger.works.slots t page) self.old.ledger
            self.new.ledger result }
        ensures cause { (t : Transaction) → work_at self.old.ledger.works.slots who.session ≡ Some (Open t)
            → edit_refused self.old.ledger.book.lines self.old.ledger.works.slots t page ≡ None
            → MatchResult result (λ _. D.faults self.new.desk.pool.file.disk ≡ D.faults self.old.desk.pool.file.disk)
            (IsMemoryOrFault Pages (D.faults self.old.desk.pool.file.disk) (D.faults self.new.desk.pool.file.disk)) }
        ensures quiet { D.is_honest self.old.desk.pool.file.disk
            → OnlyReads D.remembers D.state D.clock self.old.desk.pool.file.disk self.new.desk.pool.file.disk }
        ensures core { StaysCore D.is_honest D.state self.old self.new }
    {
        if let Some(why) = self.ledger.edit_refused(who, page) {
            self.ledger.keep(who, why);
            return Err(why);
        }
        match self.desk.hold(page) {
            Ok(()) => self.add_held(who, page, bytes),
            Err(why) => {
                self.ledger.keep(who, why);
                Err(why)
            }
        }
    }
}
