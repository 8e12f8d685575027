//! The calls of a session: each is one visit to the desk.

ghost use Rattle.std.specs.Prelude.{◌≡◌, IsTrue, None, Some, IfOk, IfSome, OnErr, OnOk, option_copied, true};
ghost use Rattle.history.specs.Label.{is_label};
ghost use Rattle.journal_book.specs.declared.work.Transaction.{Transaction};
ghost use Rattle.journal_book.specs.declared.work.Work.TheVariants.{Open};
ghost use Rattle.txn_set.specs.Ledger.{is_idle};
ghost use Rattle.store.specs.Calls.{BeginDoes, CommitDoes, EditDoes, LookAllDoes};
ghost use Rattle.store.specs.Calls.{LookDoes, ReadDoes, RollbackDoes, UnlookDoes};
ghost use Rattle.store.specs.Past.{IsPinnedBy, IsTableOf, new_table};
ghost use Rattle.store.specs.Seats.{EndingIsTold, IsLookingIn, IsOpenIn, IsPage, IsReady, IsWhole, Visits};
ghost use Rattle.turn.specs.Seats.{IsSame, mine};
ghost use Rattle.turn.specs.Tables.{table_of};

use crate::shared::{Seat, Store};
use disk_model::Disk;
use history::Mark;
use retro_base::{Page, Refusal, Who};
use std::sync::Wait;
use txn_set::Ending;
use values::Seq;

impl<D: Disk + Drop> Store<D> {
    /// Begins a transaction of a session that has nothing open. JournalFull comes exactly where its two lines find no
    /// room; else it is refused for want of memory alone, and nothing has begun.
    pub fn begin<R: Wait>(&self, rt: &R, seat: &mut Seat<D>, who: Who) -> Result<(), Refusal>
        requires ready { IsReady (table_of self.now.turn) seat.old × IsWhole seat.old }
        requires own { who.session ≡ seat.old.number }
        requires idle { is_idle who (mine seat.old).work ≡ true }
        ensures ready { IsReady (table_of self.now.turn) seat.new × IsWhole seat.new }
        ensures begun { OnOk result (IsOpenIn seat.new who) }
        ensures idle { OnErr result (is_idle who (mine seat.new).work ≡ true) }
        ensures same { IsSame seat.old seat.new }
        ensures visits { Visits D.is_honest D.state D.faults (table_of self.now.turn)
            (BeginDoes D.is_honest D.state who result) seat.old seat.new }
    {
        let mut side = self.enter(rt, seat);
        let answer = side.begin(self.alloc, who);
        self.leave(seat, side);
        answer
    }

    /// Reads a page for the transaction of this item: its own edit of the page, or else the page as it is; the page
    /// counts as read. It is refused, in this order, for what the transaction keeps; where another item changed the
    /// page since this one began, which names the last; exactly where a call of the pages' device failed; and for want
    /// of memory, not where the page was read before; after each other refusal `out` is as before. The transaction
    /// keeps an overlap and a fault.
    pub fn read<R: Wait>(
        &self,
        rt: &R,
        seat: &mut Seat<D>,
        who: Who,
        page: u32,
        out: &mut Page,
    ) -> Result<(), Refusal>
        requires ready { IsReady (table_of self.now.turn) seat.old × IsWhole seat.old }
        requires own { who.session ≡ seat.old.number }
        requires is_open { IsOpenIn seat.old who }
        requires inside { IsPage seat.old page }
        ensures ready { IsReady (table_of self.now.turn) seat.new × IsWhole seat.new }
        ensures still { IsOpenIn seat.new who }
        ensures same { IsSame seat.old seat.new }
        ensures visits { (t : Transaction) → (mine seat.old).work ≡ Some (Open t)
            → Visits D.is_honest D.state D.faults (table_of self.now.turn)
            (ReadDoes D.is_honest D.state D.faults D.remembers D.clock who page out.old out.new t result)
            seat.old seat.new }
    {
        let mut side = self.enter(rt, seat);
        let answer = side.read(who, page, out);
        self.leave(seat, side);
        answer
    }

    /// Edits a page for the transaction of this item, and takes its latch. It is refused, in this order, for what the
    /// transaction keeps; for the holder of the page's latch, an open transaction of another session; where another
    /// item changed the page since this one began, which names the last; where it would be the 1,025th page; exactly
    /// where a call of the pages' device failed; and for want of memory. The transaction keeps all but the last.
    pub fn edit<R: Wait>(
        &self,
        rt: &R,
        seat: &mut Seat<D>,
        who: Who,
        page: u32,
        bytes: &Page,
    ) -> Result<(), Refusal>
        requires ready { IsReady (table_of self.now.turn) seat.old × IsWhole seat.old }
        requires own { who.session ≡ seat.old.number }
        requires is_open { IsOpenIn seat.old who }
        requires inside { IsPage seat.old page }
        ensures ready { IsReady (table_of self.now.turn) seat.new × IsWhole seat.new }
        ensures still { IsOpenIn seat.new who }
        ensures same { IsSame seat.old seat.new }
        ensures visits { (t : Transaction) → (mine seat.old).work ≡ Some (Open t)
            → Visits D.is_honest D.state D.faults (table_of self.now.turn)
            (EditDoes D.is_honest D.state D.faults D.remembers D.clock who page bytes.now t result) seat.old seat.new }
    {
        let mut side = self.enter(rt, seat);
        let answer = side.edit(who, page, bytes);
        self.leave(seat, side);
        answer
    }

    // Commits the transaction of this item: one visit to the desk, which may find no room in the log.
    pub(crate) fn ask_commit<R: Wait>(
        &self,
        rt: &R,
        seat: &mut Seat<D>,
        who: Who,
        mark: Option<&[u8]>,
    ) -> Result<Option<u32>, Refusal>
        requires ready { IsReady (table_of self.now.turn) seat.old × IsWhole seat.old }
        requires own { who.session ≡ seat.old.number }
        requires is_open { IsOpenIn seat.old who }
        requires label { IfSome mark (λ bytes. IsTrue (is_label bytes.now)) }
        ensures ready { IsReady (table_of self.now.turn) seat.new × IsWhole seat.new }
        ensures ended { OnOk result ((mine seat.new).work ≡ None) }
        ensures same { IsSame seat.old seat.new }
        ensures visits { (t : Transaction) → (mine seat.old).work ≡ Some (Open t)
            → Visits D.is_honest D.state D.faults (table_of self.now.turn)
            (CommitDoes D.is_honest D.state D.faults D.remembers D.clock who (option_copied mark.entry) t result)
            seat.old seat.new }
    {
        let mut side = self.enter(rt, seat);
        let answer = side.commit(self.alloc, who, mark);
        self.leave(seat, side);
        answer
    }

    /// Closes the transaction of this item; the refusal that it keeps goes before the reason that is given. Takes no
    /// memory, and is never refused.
    pub fn rollback<R: Wait>(&self, rt: &R, seat: &mut Seat<D>, who: Who, why: Ending)
        requires ready { IsReady (table_of self.now.turn) seat.old × IsWhole seat.old }
        requires own { who.session ≡ seat.old.number }
        requires is_open { IsOpenIn seat.old who }
        requires told { EndingIsTold why (mine seat.old).faults }
        ensures ready { IsReady (table_of self.now.turn) seat.new × IsWhole seat.new }
        ensures ended { (mine seat.new).work ≡ None }
        ensures same { IsSame seat.old seat.new }
        ensures visits { (t : Transaction) → (mine seat.old).work ≡ Some (Open t)
            → Visits D.is_honest D.state D.faults (table_of self.now.turn)
            (RollbackDoes D.is_honest D.state who why t) seat.old seat.new }
    {
        let mut side = self.enter(rt, seat);
        side.rollback(who, why);
        self.leave(seat, side);
    }

    /// Opens a look at a snapshot, which stays retained until the look is ended, and answers its start. JournalFull
    /// comes exactly where its two lines find no room; then a number of no snapshot, or of one that was dropped, is
    /// refused, with a line that says so; else want of memory alone.
    pub fn look<R: Wait>(
        &self,
        rt: &R,
        seat: &mut Seat<D>,
        who: Who,
        number: u64,
    ) -> Result<u64, Refusal>
        requires ready { IsReady (table_of self.now.turn) seat.old × IsWhole seat.old }
        requires own { who.session ≡ seat.old.number }
        requires idle { is_idle who (mine seat.old).work ≡ true }
        ensures ready { IsReady (table_of self.now.turn) seat.new × IsWhole seat.new }
        ensures looking { OnOk result (IsLookingIn seat.new who × IsPinnedBy seat.new number) }
        ensures table { IfOk result (λ start. IsTableOf D.is_honest D.state seat.new number (new_table start)) }
        ensures same { IsSame seat.old seat.new }
        ensures visits { Visits D.is_honest D.state D.faults (table_of self.now.turn)
            (LookDoes D.is_honest D.state who number result) seat.old seat.new }
    {
        let mut side = self.enter(rt, seat);
        let answer = side.look(self.alloc, who, number);
        self.leave(seat, side);
        answer
    }

    /// Opens a look at all retained snapshots, which stay retained until it is ended, and answers them in rising number
    /// with their labels and starts. JournalFull comes exactly where its two lines find no room; else it is refused for
    /// want of memory alone.
    pub fn look_all<R: Wait>(
        &self,
        rt: &R,
        seat: &mut Seat<D>,
        who: Who,
    ) -> Result<Seq<Mark>, Refusal>
        requires ready { IsReady (table_of self.now.turn) seat.old × IsWhole seat.old }
        requires own { who.session ≡ seat.old.number }
        requires idle { is_idle who (mine seat.old).work ≡ true }
        ensures ready { IsReady (table_of self.now.turn) seat.new × IsWhole seat.new }
        ensures looking { OnOk result (IsLookingIn seat.new who) }
        ensures same { IsSame seat.old seat.new }
        ensures visits { Visits D.is_honest D.state D.faults (table_of self.now.turn)
            (LookAllDoes D.is_honest D.state who result) seat.old seat.new }
    {
        let mut side = self.enter(rt, seat);
        let answer = side.look_all(self.alloc, who);
        self.leave(seat, side);
        answer
    }

    /// Ends the look of this item; takes no memory, and is never refused.
    pub fn unlook<R: Wait>(&self, rt: &R, seat: &mut Seat<D>, who: Who, why: Ending)
        requires ready { IsReady (table_of self.now.turn) seat.old × IsWhole seat.old }
        requires own { who.session ≡ seat.old.number }
        requires is_looking { IsLookingIn seat.old who }
        requires told { EndingIsTold why (mine seat.old).faults }
        ensures ready { IsReady (table_of self.now.turn) seat.new × IsWhole seat.new }
        ensures ended { (mine seat.new).work ≡ None }
        ensures same { IsSame seat.old seat.new }
        ensures visits { Visits D.is_honest D.state D.faults (table_of self.now.turn)
            (UnlookDoes D.is_honest D.state who why) seat.old seat.new }
    {
        let mut side = self.enter(rt, seat);
        side.core.unlook(who, why);
        self.leave(seat, side);
    }
}
