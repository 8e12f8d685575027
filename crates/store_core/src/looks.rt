//! Looks at retained snapshots.

ghost use Rattle.std.specs.Prelude.{◌≡◌, true, map, IfOk};
ghost use Rattle.history.specs.declared.journal.What.TheVariants.{LookedAll};
ghost use Rattle.history.specs.Marks.{newest, oldest, start_of};
ghost use Rattle.journal_book.specs.Works.{work_at};
ghost use Rattle.txn_set.specs.Ledger.{IsLookingAs, closed, ended, is_idle, looking};
ghost use Rattle.store_core.specs.Calls.{HasLooked, HasOpened, IsPinned};
ghost use Rattle.store_core.specs.Core.{IsWholeCore, StaysCore};

use crate::desk_core::Core;
use disk_model::Disk;
use history::Mark;
use retro_base::{Refusal, Who};
use std::alloc::Global;
use txn_set::Ending;
use values::Seq;

impl<D: Disk + Drop> Core<D> {
    /// Ends the look of this item; takes no memory.
    pub fn unlook(&mut self, who: Who, why: Ending)
        requires core { IsWholeCore D.is_honest D.state self.old }
        requires is_looking { IsLookingAs self.old.ledger.works.slots who }
        ensures desk { self.new.desk ≡ self.old.desk }
        ensures closed { self.new.ledger ≡ closed who (ended why) self.old.ledger }
        ensures core { StaysCore D.is_honest D.state self.old self.new }
    {
        self.ledger.unlook(who, why);
    }

    /// Opens a look at a snapshot, which stays retained until the look is ended, and answers its start. JournalFull
    /// comes exactly where its two lines find no room; then a number of no snapshot, or of one that was dropped, is
    /// refused, with a line that says so; else want of memory alone.
    pub fn look(&mut self, alloc: Global, who: Who, number: u64) -> Result<u64, Refusal>
        requires core { IsWholeCore D.is_honest D.state self.old }
        requires idle { is_idle who (work_at self.old.ledger.works.slots who.session) ≡ true }
        ensures desk { self.new.desk ≡ self.old.desk }
        ensures looked { HasLooked who number (oldest self.old.desk.base.marks) (newest self.old.desk.base.marks)
            self.old.ledger self.new.ledger result }
        ensures start { IfOk result (λ start. start ≡ start_of number self.old.desk.base.marks) }
        ensures core { StaysCore D.is_honest D.state self.old self.new }
    {
        let (oldest, newest) = self.desk.horizon();
        self.ledger.look(alloc, who, number, oldest, newest)?;
        Ok(self.desk.start(number as u32))
    }

    /// Opens a look at all retained snapshots, which stay retained until the look is ended, and answers them, in rising
    /// number. JournalFull comes exactly where its two lines find no room; else it is refused for want of memory alone.
    pub fn look_all(&mut self, alloc: Global, who: Who) -> Result<Seq<Mark>, Refusal>
        requires core { IsWholeCore D.is_honest D.state self.old }
        requires idle { is_idle who (work_at self.old.ledger.works.slots who.session) ≡ true }
        ensures desk { self.new.desk ≡ self.old.desk }
        ensures looked { HasOpened who LookedAll (looking who self.old.ledger.book.lines
            (map (λ mark. mark.number) self.old.desk.base.marks)) self.old.ledger self.new.ledger result }
        ensures marks { IfOk result (λ marks. marks ≡ self.old.desk.base.marks) }
        ensures core { StaysCore D.is_honest D.state self.old self.new }
    {
        self.ledger.look_all(alloc, who, self.desk.base().marks())
    }

    /// The start of a snapshot that an open look pins.
    pub fn start_of(&self, snapshot: u32) -> u64
        requires core { IsWholeCore D.is_honest D.state self.now }
        requires pinned { IsPinned self.now.ledger snapshot }
        ensures { result ≡ start_of snapshot self.now.desk.base.marks }
    {
        self.desk.start(snapshot)
    }
}
