//! The calls of the core, as a seat makes them between entering the desk and leaving it.

ghost use Rattle.std.specs.Prelude.{◌≡◌, ◌<◌, IsTrue, None, Some, IfErr, IfSome, option_copied, true};
ghost use Rattle.history.specs.Label.{is_label};
ghost use Rattle.journal_book.specs.Works.{work_at};
ghost use Rattle.journal_book.specs.declared.work.Transaction.{Transaction};
ghost use Rattle.journal_book.specs.declared.work.Work.TheVariants.{Open};
ghost use Rattle.txn_set.specs.Ledger.{IsOpenAs, is_closed, is_idle, keeps_drop};
ghost use Rattle.store_core.specs.Calls.{IsPinned};
ghost use Rattle.store.specs.Calls.{BeginDoes, CommitDoes, EditDoes, LookAllDoes};
ghost use Rattle.store.specs.Calls.{LookDoes, PeekDoes, ReadDoes, RollbackDoes};
ghost use Rattle.store.specs.RoundCalls.{DropDoes, GivesUpDrop};
ghost use Rattle.store.specs.Rounds.{IsRoom};
ghost use Rattle.store.specs.Seats.{CountFits, EndingIsTold, FaultFits, IsGlance, IsVisit, always, slots_of};
ghost use Rattle.store.specs.Sides.{DeskStands};

use crate::desk_side::DeskSide;
use disk_model::Disk;
use history::Mark;
use race_model::Fault;
use retro_base::{Page, Refusal, Who};
use std::alloc::Global;
use store_core::Peeked;
use txn_set::Ending;
use values::Seq;

// The count that a fault tells is one of 64 bits.
pub(crate) fn count_fits<T>(answer: &Result<T, Refusal>)
    ensures { CountFits answer.now }
{
    if let Err(Refusal::DiskFault { count, .. }) = answer {
        let _count = *count;
    }
}

pub(crate) fn fault_fits<T>(answer: &Result<T, Fault>)
    ensures { FaultFits answer.now }
{
    if let Err(
        Fault {
            why: Refusal::DiskFault { count, .. },
            ..
        },
    ) = answer
    {
        let _count = *count;
    }
}

impl<D: Disk + Drop> DeskSide<D> {
    pub(crate) fn begin(&mut self, alloc: Global, who: Who) -> Result<(), Refusal>
        requires stands { DeskStands D.is_honest D.state self.old }
        requires idle { is_idle who (work_at (slots_of self.old) who.session) ≡ true }
        ensures does { BeginDoes D.is_honest D.state who result self.old.core self.new.core }
        ensures visit { IsVisit D.is_honest D.state D.faults who always self.old self.new }
    {
        self.core.begin(alloc, who)
    }

    pub(crate) fn read(&mut self, who: Who, page: u32, out: &mut Page) -> Result<(), Refusal>
        requires stands { DeskStands D.is_honest D.state self.old }
        requires is_open { IsOpenAs (slots_of self.old) who }
        requires inside { page < self.old.core.desk.base.page_count }
        ensures does { (t : Transaction) → work_at (slots_of self.old) who.session ≡ Some (Open t)
            → ReadDoes D.is_honest D.state D.faults D.remembers D.clock who page out.old out.new t result
            self.old.core self.new.core }
        ensures visit { IsVisit D.is_honest D.state D.faults who always self.old self.new }
    {
        let answer = self.core.read(who, page, out);
        count_fits(&answer);
        answer
    }

    pub(crate) fn edit(&mut self, who: Who, page: u32, bytes: &Page) -> Result<(), Refusal>
        requires stands { DeskStands D.is_honest D.state self.old }
        requires is_open { IsOpenAs (slots_of self.old) who }
        requires inside { page < self.old.core.desk.base.page_count }
        ensures does { (t : Transaction) → work_at (slots_of self.old) who.session ≡ Some (Open t)
            → EditDoes D.is_honest D.state D.faults D.remembers D.clock who page bytes.now t result
            self.old.core self.new.core }
        ensures visit { IsVisit D.is_honest D.state D.faults who always self.old self.new }
    {
        let answer = self.core.edit(who, page, bytes);
        count_fits(&answer);
        answer
    }

    pub(crate) fn commit(
        &mut self,
        alloc: Global,
        who: Who,
        mark: Option<&[u8]>,
    ) -> Result<Option<u32>, Refusal>
        requires stands { DeskStands D.is_honest D.state self.old }
        requires is_open { IsOpenAs (slots_of self.old) who }
        requires label { IfSome mark (λ bytes. IsTrue (is_label bytes.now)) }
        ensures does { (t : Transaction) → work_at (slots_of self.old) who.session ≡ Some (Open t)
            → CommitDoes D.is_honest D.state D.faults D.remembers D.clock who (option_copied mark.entry) t result
            self.old.core self.new.core }
        ensures visit { IsVisit D.is_honest D.state D.faults who always self.old self.new }
    {
        self.core.names_log();
        let answer = self.core.commit(alloc, who, mark);
        count_fits(&answer);
        answer
    }

    pub(crate) fn rollback(&mut self, who: Who, why: Ending)
        requires stands { DeskStands D.is_honest D.state self.old }
        requires is_open { IsOpenAs (slots_of self.old) who }
        ensures does { (t : Transaction) → work_at (slots_of self.old) who.session ≡ Some (Open t)
            → RollbackDoes D.is_honest D.state who why t self.old.core self.new.core }
        ensures visit { IsVisit D.is_honest D.state D.faults who (EndingIsTold why) self.old self.new }
    {
        self.core.rollback(who, why);
    }

    pub(crate) fn look(&mut self, alloc: Global, who: Who, number: u64) -> Result<u64, Refusal>
        requires stands { DeskStands D.is_honest D.state self.old }
        requires idle { is_idle who (work_at (slots_of self.old) who.session) ≡ true }
        ensures does { LookDoes D.is_honest D.state who number result self.old.core self.new.core }
        ensures visit { IsVisit D.is_honest D.state D.faults who always self.old self.new }
    {
        self.core.look(alloc, who, number)
    }

    pub(crate) fn look_all(&mut self, alloc: Global, who: Who) -> Result<Seq<Mark>, Refusal>
        requires stands { DeskStands D.is_honest D.state self.old }
        requires idle { is_idle who (work_at (slots_of self.old) who.session) ≡ true }
        ensures does { LookAllDoes D.is_honest D.state who result self.old.core self.new.core }
        ensures visit { IsVisit D.is_honest D.state D.faults who always self.old self.new }
    {
        self.core.look_all(alloc, who)
    }

    pub(crate) fn drop_below(&mut self, alloc: Global, who: Who, below: u64) -> Result<(), Refusal>
        requires stands { DeskStands D.is_honest D.state self.old }
        requires is_closed { is_closed (work_at (slots_of self.old) who.session) ≡ true }
        ensures does { DropDoes D.is_honest D.state D.faults D.remembers D.clock who below result
            self.old.core self.new.core }
        ensures visit { IsVisit D.is_honest D.state D.faults who always self.old self.new }
        ensures is_closed { is_closed (work_at (slots_of self.new) who.session) ≡ true }
        ensures kept { IfErr result (λ why. IsRoom why
            → keeps_drop who (work_at (slots_of self.new) who.session) ≡ true) }
    {
        self.core.names_log();
        let answer = self.core.drop_below(alloc, who, below);
        count_fits(&answer);
        answer
    }

    pub(crate) fn give_up_drop(&mut self, who: Who)
        requires stands { DeskStands D.is_honest D.state self.old }
        requires is_closed { is_closed (work_at (slots_of self.old) who.session) ≡ true }
        ensures does { GivesUpDrop D.is_honest D.state who self.old.core self.new.core }
        ensures visit { IsVisit D.is_honest D.state D.faults who always self.old self.new }
        ensures none { work_at (slots_of self.new) who.session ≡ None }
    {
        self.core.give_up_drop(who);
    }

    pub(crate) fn peek(
        &mut self,
        page: u32,
        snapshot: u32,
        out: &mut Page,
    ) -> Result<Peeked, Refusal>
        requires stands { DeskStands D.is_honest D.state self.old }
        requires inside { page < self.old.core.desk.base.page_count }
        requires pinned { IsPinned self.old.core.ledger snapshot }
        ensures does { PeekDoes D.is_honest D.state D.faults D.remembers D.clock page snapshot out.old out.new result
            self.old.core self.new.core }
        ensures glance { IsGlance D.is_honest D.state D.faults self.old self.new }
        ensures fits { CountFits result }
    {
        let answer = self.core.peek(page, snapshot, out);
        count_fits(&answer);
        answer
    }
}
