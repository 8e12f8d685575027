//! The journal with the works of the sessions: each call of a desk with the line that it adds.

ghost use Rattle.std.specs.Prelude.{◌≡◌, ◌≤◌, ◌<◌, ◌+◌, ℕ, [], IfOk, IfErr, OnOk, OnErr, Some, None, true};
ghost use Rattle.std.specs.Prelude.{false, length, map, option_copied, is_some, Err, IsOk, IsSome, ◌∷◌, ◌^◌};
ghost use Rattle.retro_base.specs.declared.refusal.Refusal.{Refusal};
ghost use Rattle.retro_base.specs.declared.refusal.Refusal.TheVariants.{OutOfMemory};
ghost use Rattle.retro_base.specs.declared.limits.TheConstants.{JOURNAL_IMAGES};
ghost use Rattle.history.specs.declared.journal.What.TheVariants.{Began, Fault, Looked, LookedAll};
ghost use Rattle.history.specs.declared.journal.What.TheVariants as whats;
ghost use Rattle.history.specs.Lines.{images_in};
ghost use Rattle.journal_book.specs.declared.work.Transaction.{Transaction};
ghost use Rattle.journal_book.specs.declared.work.Work.TheVariants.{Open};
ghost use Rattle.journal_book.specs.Book.{lines_refused, writes_of};
ghost use Rattle.txn_set.specs.Ledger.{IsKeptDrop, IsLookingAs, IsOpenAs, IsRefusedWith, MayFault, closed, closing};
ghost use Rattle.txn_set.specs.Ledger.{committed, doubted, drop_kept, drop_lines, ended, faulted, fresh, given_up};
ghost use Rattle.txn_set.specs.Ledger.{gives_up, is_closed, is_idle, keeping_drop, keeps_drop, keeps_other_drop};
ghost use Rattle.txn_set.specs.Ledger.{kept_behind, looking, no_lines, opened, taken, with_told_line, with_open};
ghost use Rattle.std.specs.List.{AllByRecursion};
ghost use Rattle.history.specs.Writes.{is_among, rises};
ghost use Rattle.txn_set.specs.Refused.{captures_behind, commit_refused, edit_refused, look_refused, read_refused};
ghost use Rattle.journal_book.specs.Works.{AreFree, editing, edits_of, latch_holder};
ghost use Rattle.journal_book.specs.Works.{own_edit, reading, work_at, working};
ghost use Rattle.txn_set.specs.WorksFit.{Closes, WorksFit};
ghost use Rattle.txn_set.specs.declared.ledger.Ledger.{Ledger};

use crate::counts::Counts;
use crate::ending::{Ending, closing, ended, is_kept};
use crate::refusing::{commit_refused, edit_refused, look_refused, read_refused};
use history::{Change, FailedCall, Label, Line, Mark, PageImage, Stop, What, Writes, copied_marks};
use journal_book::{Book, Look, Transaction, Work, Works, edit_of};
use retro_base::{Device, Page, Refusal, Who};
use std::alloc::{AllocError, Global};
use std::collections::BTreeSet;
use values::Seq;

/// The journal, and what each session has open.
#[derive(Drop)]
pub struct Ledger {
    pub book: Book,
    pub works: Works,
}

impl Ledger {
    /// An empty journal and nothing open, for a store of so many pages. Refused for want of memory alone.
    pub fn new(alloc: Global, pages: u32) -> Result<Ledger, AllocError>
        ensures empty { IfOk result (λ ledger. ledger ≡ no_lines pages) }
        ensures fits { IfOk result WorksFit }
    {
        Ok(Ledger {
            book: Book::new(alloc, pages)?,
            works: Works::new(alloc, pages)?,
        })
    }

    /// Gives up the line that a session keeps for a drop; takes no memory.
    pub fn give_up(&mut self, session: u16)
        requires fits { WorksFit self.old }
        requires drop { IsKeptDrop (work_at self.old.works.slots session) }
        ensures done { self.new ≡ gives_up session self.old }
        ensures fits { WorksFit self.new }
    {
        self.works.clear(session);
        self.book.give_up(1);
    }

    // Gives up the line that the session keeps for a drop in another phase.
    fn give_up_other(&mut self, who: Who)
        requires fits { WorksFit self.old }
        ensures done { self.new ≡ given_up who self.old }
        ensures fits { WorksFit self.new }
    {
        if keeps_other_drop(&self.works, who) {
            self.give_up(who.session);
        }
    }

    // Adds a line that opens a work, and keeps a place for the line that closes it. Refused for want of memory alone,
    // and then as before.
    fn open_work(&mut self, who: Who, what: What, work: Work) -> Result<(), Refusal>
        requires room { lines_refused self.old.book 2 ≡ None }
        requires idle { edits_of (work_at self.old.works.slots who.session) ≡ [] }
        requires nothing { writes_of what ≡ [] }
        requires no_edits { edits_of (Some work) ≡ [] }
        ensures done { OnOk result (self.new ≡ opened who what work self.old) }
        ensures memory { IfErr result (λ why. why ≡ OutOfMemory) }
        ensures stays { OnErr result (self.new ≡ self.old) }
    {
        self.book.keep_lines(2)?;
        if self.works.put(who.session, work).is_err() {
            self.book.give_up(2);
            return Err(Refusal::OutOfMemory);
        }
        self.book.close(Line { who, what });
        Ok(())
    }

    /// Begins a transaction. JournalFull comes exactly where its two lines find no room, behind what the session gives
    /// up; else it is refused for want of memory alone, and nothing has begun.
    pub fn begin(&mut self, alloc: Global, who: Who) -> Result<(), Refusal>
        requires fits { WorksFit self.old }
        requires idle { is_idle who (work_at self.old.works.slots who.session) ≡ true }
        ensures full { (why : Refusal) → lines_refused (given_up who self.old).book 2 ≡ Some why → result ≡ Err why }
        ensures done { OnOk result
            (self.new ≡ opened who Began (fresh who self.old.book.lines) (given_up who self.old)) }
        ensures memory { lines_refused (given_up who self.old).book 2 ≡ None → IfErr result (λ why. why ≡ OutOfMemory) }
        ensures stays { OnErr result (self.new ≡ given_up who self.old) }
        ensures fits { WorksFit self.new }
    {
        self.give_up_other(who);
        if let Some(why) = self.book.lines_refused(2) {
            return Err(why);
        }
        let transaction = Transaction {
            who,
            began: self.book.lines().len(),
            edits: Writes::new(Vec::new(alloc)),
            reads: BTreeSet::new(alloc),
            kept: None,
        };
        self.open_work(who, What::Began, Work::Open(transaction))
    }

    /// Why a read of the page by the transaction of this item is refused.
    pub fn read_refused(&self, who: Who, page: u32) -> Option<Refusal>
        requires fits { WorksFit self.now }
        requires is_open { IsOpenAs self.now.works.slots who }
        requires page { page < self.now.book.pages }
        ensures { (t : Transaction) → work_at self.now.works.slots who.session ≡ Some (Open t)
            → result ≡ read_refused self.now.book.lines t page }
    {
        read_refused(&self.book, self.works.transaction(who.session), page)
    }

    /// The transaction's own edit of the page.
    pub fn own_edit(&self, who: Who, page: u32) -> Option<&Page>
        requires is_open { IsOpenAs self.now.works.slots who }
        ensures { (t : Transaction) → work_at self.now.works.slots who.session ≡ Some (Open t)
            → option_copied result ≡ own_edit page t.edits }
    {
        edit_of(page, self.works.transaction(who.session).edits.images())
    }

    /// Counts a page as read. Refused for want of memory alone, where it was not read before; all is then as before.
    pub fn add_read(&mut self, who: Who, page: u32) -> Result<(), AllocError>
        requires fits { WorksFit self.old }
        requires is_open { IsOpenAs self.old.works.slots who }
        requires page { page < self.old.book.pages }
        ensures done { (t : Transaction) → work_at self.old.works.slots who.session ≡ Some (Open t)
            → OnOk result (self.new ≡ with_open who (reading page t) self.old) }
        ensures refused { OnErr result (self.new ≡ self.old) }
        ensures read_before { (t : Transaction) → work_at self.old.works.slots who.session ≡ Some (Open t)
            → is_among page t.reads.keys ≡ true → IsOk result }
        ensures fits { WorksFit self.new }
    {
        self.works.add_read(who.session, page)
    }

    /// Why an edit of the page by the transaction of this item is refused.
    pub fn edit_refused(&self, who: Who, page: u32) -> Option<Refusal>
        requires fits { WorksFit self.now }
        requires is_open { IsOpenAs self.now.works.slots who }
        requires page { page < self.now.book.pages }
        ensures { (t : Transaction) → work_at self.now.works.slots who.session ≡ Some (Open t)
            → result ≡ edit_refused self.now.book.lines self.now.works.slots t page }
    {
        let transaction = self.works.transaction(who.session);
        edit_refused(&self.book, &self.works, transaction, page)
    }

    /// Edits a page whose edit is not refused, and takes its latch. Refused for want of memory alone, and then all is
    /// as before.
    pub fn add_edit(&mut self, who: Who, page: u32, bytes: &Page) -> Result<(), AllocError>
        requires fits { WorksFit self.old }
        requires is_open { IsOpenAs self.old.works.slots who }
        requires page { page < self.old.book.pages }
        requires allowed { (t : Transaction) → work_at self.old.works.slots who.session ≡ Some (Open t)
            → edit_refused self.old.book.lines self.old.works.slots t page ≡ None }
        ensures done { (t : Transaction) → work_at self.old.works.slots who.session ≡ Some (Open t)
            → OnOk result (self.new ≡ with_open who (editing (record { page = page; bytes = bytes.now }) t) self.old) }
        ensures refused { OnErr result (self.new ≡ self.old) }
        ensures fits { WorksFit self.new }
    {
        let image = PageImage {
            page,
            bytes: *bytes,
        };
        self.works.add_edit(who.session, image)
    }

    /// Keeps a refusal of a read, an edit or a commit, where it is one that a transaction keeps; takes no memory.
    pub fn keep(&mut self, who: Who, why: Refusal)
        requires fits { WorksFit self.old }
        requires is_open { IsOpenAs self.old.works.slots who }
        ensures fits { WorksFit self.new }
        ensures done { (t : Transaction) → work_at self.old.works.slots who.session ≡ Some (Open t)
            → self.new ≡ with_open who (kept_behind why t) self.old }
    {
        if is_kept(why) {
            self.works.keep(who.session, why);
        }
    }

    /// Why a commit of the transaction of this item, which declares a snapshot or not, is refused before it takes any
    /// memory.
    pub fn commit_refused(
        &self,
        who: Who,
        fault: Option<Stop>,
        counts: &Counts,
        declares: bool,
    ) -> Option<Refusal>
        requires fits { WorksFit self.now }
        requires is_open { IsOpenAs self.now.works.slots who }
        requires captures { captures_behind counts.now < 2 ^ 64 }
        ensures { (t : Transaction) → work_at self.now.works.slots who.session ≡ Some (Open t)
            → result ≡ commit_refused fault counts.now self.now.book.lines t declares }
    {
        let transaction = self.works.transaction(who.session);
        commit_refused(&self.book, transaction, fault, counts, declares)
    }

    /// Takes a transaction out for its commit, which puts it back or finishes it; takes no memory. Its closing line
    /// stays kept.
    pub fn take(&mut self, who: Who) -> Transaction
        requires is_open { IsOpenAs self.old.works.slots who }
        ensures transaction { work_at self.old.works.slots who.session ≡ Some (Open result) }
        ensures ledger { self.new ≡ taken who self.old }
        ensures free { AreFree self.new.works result.edits }
        ensures slot { who.session < length self.new.works.slots }
    {
        self.works.take_transaction(who.session)
    }

    /// Puts a transaction back; takes no memory.
    pub fn put(&mut self, transaction: Transaction)
        requires slot { transaction.who.session < length self.old.works.slots }
        requires idle { work_at self.old.works.slots transaction.who.session ≡ None }
        requires free { AreFree self.old.works transaction.edits }
        ensures done { self.new ≡ with_open transaction.who transaction self.old }
        ensures undone { (before : Ledger)
            → work_at before.works.slots transaction.who.session ≡ Some (Open transaction)
            → self.old ≡ taken transaction.who before → self.new ≡ before }
    {
        self.works.put_back(transaction.who.session, transaction);
    }

    /// Adds the line of a commit whose transaction was taken out; takes no memory.
    pub fn finish(&mut self, who: Who, label: Option<Label>, writes: Writes)
        requires kept { 1 ≤ self.old.book.kept }
        requires images { images_in self.old.book.lines + length writes ≤ JOURNAL_IMAGES }
        requires pages { AllByRecursion (λ write. write.page < self.old.book.pages) writes }
        ensures done { self.new ≡ committed who label writes self.old }
        ensures fits { (before : Ledger) (t : Transaction) → WorksFit before
            → work_at before.works.slots who.session ≡ Some (Open t) → t.who ≡ who → t.edits ≡ writes
            → self.old ≡ taken who before → WorksFit self.new }
    {
        self.book.finish(Line {
            who,
            what: What::Done { label, writes },
        });
    }

    /// Adds the line of a fault at which the change of a transaction that was taken out came into doubt; takes no
    /// memory.
    pub fn fail(&mut self, who: Who, device: Device, count: u64, change: Change)
        requires kept { 1 ≤ self.old.book.kept }
        ensures done { self.new ≡ doubted who device count change self.old }
        ensures fits { (before : Ledger) (t : Transaction) → WorksFit before
            → work_at before.works.slots who.session ≡ Some (Open t) → t.who ≡ who
            → self.old ≡ taken who before → WorksFit self.new }
    {
        let call = FailedCall::Append(change);
        self.book.close(Line {
            who,
            what: What::Fault {
                device,
                count,
                call,
            },
        });
    }

    /// Closes what the session has with a line of this item that is no commit; takes no memory.
    pub fn close(&mut self, who: Who, what: What)
        requires fits { WorksFit self.old }
        requires work { IsSome (work_at self.old.works.slots who.session) }
        requires nothing { writes_of what ≡ [] }
        requires closes { Closes who what (work_at self.old.works.slots who.session) }
        ensures done { self.new ≡ closed who what self.old }
        ensures fits { WorksFit self.new }
    {
        self.works.clear(who.session);
        self.book.close(Line { who, what });
    }

    /// Closes the transaction of this item; the refusal that it keeps goes before the reason that is given. Takes no
    /// memory.
    pub fn rollback(&mut self, who: Who, why: Ending)
        requires fits { WorksFit self.old }
        requires is_open { IsOpenAs self.old.works.slots who }
        ensures done { (t : Transaction) → work_at self.old.works.slots who.session ≡ Some (Open t)
            → self.new ≡ closed who (closing t.kept why) self.old }
        ensures fits { WorksFit self.new }
    {
        let kept = self.works.transaction(who.session).kept;
        self.close(who, closing(kept, why));
    }

    /// Ends the look of this item; takes no memory.
    pub fn unlook(&mut self, who: Who, why: Ending)
        requires fits { WorksFit self.old }
        requires is_open { IsLookingAs self.old.works.slots who }
        ensures done { self.new ≡ closed who (ended why) self.old }
        ensures fits { WorksFit self.new }
    {
        self.close(who, ended(why));
    }

    // Adds a line that neither opens nor closes. Refused for want of memory alone, and then as before.
    fn tell(&mut self, who: Who, what: What) -> Result<(), AllocError>
        requires room { lines_refused self.old.book 1 ≡ None }
        requires nothing { writes_of what ≡ [] }
        ensures done { OnOk result (self.new ≡ with_told_line who what self.old) }
        ensures refused { OnErr result (self.new ≡ self.old) }
    {
        self.book.keep_lines(1)?;
        self.book.close(Line { who, what });
        Ok(())
    }

    /// Opens a look at a snapshot, where these are the oldest and the newest. JournalFull comes exactly where its two
    /// lines find no room; then a number of no snapshot, or of one that was dropped, is refused, with a line that says
    /// so; else want of memory alone.
    pub fn look(
        &mut self,
        alloc: Global,
        who: Who,
        number: u64,
        oldest: u32,
        newest: u32,
    ) -> Result<(), Refusal>
        requires fits { WorksFit self.old }
        requires idle { is_idle who (work_at self.old.works.slots who.session) ≡ true }
        ensures full { (why : Refusal) → lines_refused (given_up who self.old).book 2 ≡ Some why
            → (result ≡ Err why) × (self.new ≡ given_up who self.old) }
        ensures refused { (why : Refusal) → lines_refused (given_up who self.old).book 2 ≡ None
            → look_refused number oldest newest ≡ Some why
            → IsRefusedWith (given_up who self.old) (with_told_line who (whats.Refused why) (given_up who self.old))
            why result self.new }
        ensures done { OnOk result (self.new ≡ opened who (Looked number)
            (looking who self.old.book.lines (number ∷ [])) (given_up who self.old)) }
        ensures memory { lines_refused (given_up who self.old).book 2 ≡ None → look_refused number oldest newest ≡ None
            → IfErr result (λ why. (why ≡ OutOfMemory) × (self.new ≡ given_up who self.old)) }
        ensures fits { WorksFit self.new }
    {
        self.give_up_other(who);
        if let Some(why) = self.book.lines_refused(2) {
            return Err(why);
        }
        if let Some(why) = look_refused(number, oldest, newest) {
            self.tell(who, What::Refused { why })?;
            return Err(why);
        }
        let snapshot = number as u32;
        let look = Look {
            who,
            began: self.book.lines().len(),
            pins: Seq::from(vec![in alloc; snapshot]?),
        };
        self.open_work(who, What::Looked { snapshot }, Work::Looking(look))
    }

    /// Opens a look at all retained snapshots, and answers a copy of them. JournalFull comes exactly where its two
    /// lines find no room; else it is refused for want of memory alone.
    pub fn look_all(
        &mut self,
        alloc: Global,
        who: Who,
        marks: &[Mark],
    ) -> Result<Seq<Mark>, Refusal>
        requires fits { WorksFit self.old }
        requires idle { is_idle who (work_at self.old.works.slots who.session) ≡ true }
        requires rising { rises 0 (map (λ mark. mark.number) marks.now) ≡ true }
        ensures full { (why : Refusal) → lines_refused (given_up who self.old).book 2 ≡ Some why → result ≡ Err why }
        ensures marks { IfOk result (λ copied. copied ≡ marks.now) }
        ensures done { OnOk result (self.new ≡ opened who LookedAll (looking who self.old.book.lines
            (map (λ mark. mark.number) marks.now)) (given_up who self.old)) }
        ensures memory { lines_refused (given_up who self.old).book 2 ≡ None → IfErr result (λ why. why ≡ OutOfMemory) }
        ensures stays { OnErr result (self.new ≡ given_up who self.old) }
        ensures fits { WorksFit self.new }
    {
        self.give_up_other(who);
        if let Some(why) = self.book.lines_refused(2) {
            return Err(why);
        }
        let copied = copied_marks(alloc, marks)?;
        let look = Look {
            who,
            began: self.book.lines().len(),
            pins: Seq::from(numbers(alloc, marks)?),
        };
        match self.open_work(who, What::LookedAll, Work::Looking(look)) {
            Ok(()) => Ok(Seq::from(copied)),
            Err(why) => Err(why),
        }
    }

    /// Keeps the line of a drop, unless the session keeps one in this phase. JournalFull comes exactly where it finds
    /// no room; else want of memory alone.
    pub fn keep_drop(&mut self, who: Who) -> Result<(), Refusal>
        requires fits { WorksFit self.old }
        requires is_closed { is_closed (work_at self.old.works.slots who.session) ≡ true }
        ensures full { (why : Refusal)
            → lines_refused (given_up who self.old).book (drop_lines who self.old) ≡ Some why → result ≡ Err why }
        ensures done { OnOk result (self.new ≡ drop_kept who self.old) }
        ensures memory { lines_refused (given_up who self.old).book (drop_lines who self.old) ≡ None
            → IfErr result (λ why. why ≡ OutOfMemory) }
        ensures stays { OnErr result (self.new ≡ given_up who self.old) }
        ensures fits { WorksFit self.new }
    {
        if keeps_drop(&self.works, who) {
            return match self.book.lines_refused(0) {
                Some(why) => Err(why),
                None => Ok(()),
            };
        }
        self.give_up_other(who);
        if let Some(why) = self.book.lines_refused(1) {
            return Err(why);
        }
        self.book.keep_lines(1)?;
        if self.works.put(who.session, Work::KeptDrop(who)).is_err() {
            self.book.give_up(1);
            return Err(Refusal::OutOfMemory);
        }
        Ok(())
    }

    /// Adds the line of a fault: it closes what the session has, or else is a worker's. Takes no memory.
    pub fn note(&mut self, who: Who, device: Device, count: u64, call: FailedCall)
        requires fits { WorksFit self.old }
        requires place { MayFault who self.old }
        requires closes { Closes who (Fault device count call) (work_at self.old.works.slots who.session) }
        ensures done { self.new ≡ faulted who device count call self.old }
        ensures fits { WorksFit self.new }
    {
        let what = What::Fault {
            device,
            count,
            call,
        };
        if has_work(&self.works, who.session) {
            self.close(who, what);
        } else {
            self.book.note(Line { who, what });
        }
    }
}

// Whether the session keeps the line of a drop in another phase.
fn keeps_other_drop(works: &Works, who: Who) -> bool
    ensures { result ≡ keeps_other_drop who (work_at works.now.slots who.session) }
{
    match works.at(who.session) {
        Some(Work::KeptDrop(other)) => other.phase != who.phase,
        _ => false,
    }
}

// Whether the session keeps the line of a drop in this phase.
fn keeps_drop(works: &Works, who: Who) -> bool
    ensures { result ≡ keeps_drop who (work_at works.now.slots who.session) }
{
    match works.at(who.session) {
        Some(Work::KeptDrop(other)) => other.phase == who.phase,
        _ => false,
    }
}

fn has_work(works: &Works, session: u16) -> bool
    ensures { result ≡ is_some (work_at works.now.slots session) }
{
    works.at(session).is_some()
}

fn numbers(alloc: Global, marks: &[Mark]) -> Result<Vec<u32>, AllocError>
    ensures { IfOk result (λ numbers. numbers.items ≡ map (λ mark. mark.number) marks.now) }
{
    let mut numbers = Vec::with_capacity(alloc, marks.len())?;
    for mark in marks {
        numbers.push(mark.number)?;
    }
    Ok(numbers)
}
