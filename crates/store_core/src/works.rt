//! Transactions begun and rolled back.

ghost use Rattle.std.specs.Prelude.{◌≡◌, ◌&&◌, ℕ, not, true};
ghost use Rattle.history.specs.Writes.{is_among, pages_of};
ghost use Rattle.history.specs.declared.journal.What.TheVariants.{Began};
ghost use Rattle.journal_book.specs.Works.{edits_of, work_at};
ghost use Rattle.journal_book.specs.declared.work.Transaction.{Transaction};
ghost use Rattle.journal_book.specs.declared.work.Work.TheVariants.{Open};
ghost use Rattle.page_pool.specs.Side.{held};
ghost use Rattle.race_model.specs.Desk.{Desk};
ghost use Rattle.desk.specs.Desk.{IsDesk, IsWhole};
ghost use Rattle.desk.specs.Steps.{SameButPages};
ghost use Rattle.txn_set.specs.Ledger.{IsOpenAs, closed, closing, fresh, is_idle};
ghost use Rattle.store_core.specs.Calls.{HasOpened};
ghost use Rattle.store_core.specs.Core.{IsWholeCore, StaysCore};

use crate::desk_core::Core;
use desk::RunningDesk;
use disk_model::Disk;
use history::PageImage;
use journal_book::{Work, Works};
use retro_base::{Refusal, Who};
use std::alloc::Global;
use txn_set::Ending;

// What a session's open transaction edits.
pub(crate) fn edits_of(works: &Works, session: u16) -> &[PageImage]
    ensures { result.now ≡ edits_of (work_at works.now.slots session) }
{
    match works.at(session) {
        Some(Work::Open(transaction)) => transaction.edits.images(),
        _ => &[],
    }
}

// Releases the pages of these edits.
pub(crate) fn release_all<D: Disk + Drop>(desk: &mut RunningDesk<D>, edits: &[PageImage])
    requires { IsWhole D.is_honest D.state desk.old }
    ensures whole { IsWhole D.is_honest D.state desk.new }
    ensures rest { SameButPages desk.old desk.new }
    ensures file { desk.new.pool.file ≡ desk.old.pool.file }
    ensures held { (page : ℕ) → held desk.new.pool page
        ≡ (held desk.old.pool page && not (is_among page (pages_of edits.now))) }
    ensures desk { (plain : Desk) → IsDesk D.is_honest D.state desk.old plain
        → IsDesk D.is_honest D.state desk.new plain }
{
    for edit in edits {
        desk.release(edit.page);
    }
}

impl<D: Disk + Drop> Core<D> {
    /// Begins a transaction of a session that has nothing open. JournalFull comes exactly where its two lines find no
    /// room; else it is refused for want of memory alone, and nothing has begun.
    pub fn begin(&mut self, alloc: Global, who: Who) -> Result<(), Refusal>
        requires core { IsWholeCore D.is_honest D.state self.old }
        requires idle { is_idle who (work_at self.old.ledger.works.slots who.session) ≡ true }
        ensures desk { self.new.desk ≡ self.old.desk }
        ensures begun { HasOpened who Began (fresh who self.old.ledger.book.lines) self.old.ledger self.new.ledger
            result }
        ensures core { StaysCore D.is_honest D.state self.old self.new }
    {
        self.ledger.begin(alloc, who)
    }

    /// Closes the transaction of this item; the refusal that it keeps goes before the reason that is given. Takes no
    /// memory.
    pub fn rollback(&mut self, who: Who, why: Ending)
        requires core { IsWholeCore D.is_honest D.state self.old }
        requires is_open { IsOpenAs self.old.ledger.works.slots who }
        ensures rest { SameButPages self.old.desk self.new.desk }
        ensures file { self.new.desk.pool.file ≡ self.old.desk.pool.file }
        ensures closed { (t : Transaction) → work_at self.old.ledger.works.slots who.session ≡ Some (Open t)
            → self.new.ledger ≡ closed who (closing t.kept why) self.old.ledger }
        ensures core { StaysCore D.is_honest D.state self.old self.new }
    {
        release_all(&mut self.desk, edits_of(&self.ledger.works, who.session));
        self.ledger.rollback(who, why);
    }
}
