//! Room in the log: a commit that finds none makes rounds, and asks again.

ghost use Rattle.std.specs.Prelude.{◌≡◌, IsTrue, None, Some, IfErr, IfSome, OnOk, option_copied, true};
ghost use Rattle.history.specs.Label.{is_label};
ghost use Rattle.journal_book.specs.declared.work.Transaction.{Transaction};
ghost use Rattle.journal_book.specs.declared.work.Work.TheVariants.{Open};
ghost use Rattle.store.specs.Calls.{CommitDoes};
ghost use Rattle.store.specs.RoundCalls.{DropDoes, GivesUpDrop};
ghost use Rattle.store.specs.Rounds.{AnswersAtLast, DropAnswers, IsRoom, MakesRoom, MakesRound, MayServe, tells_drop};
ghost use Rattle.store.specs.Seats.{IsOpenIn, IsReady, IsWhole, Visits};
ghost use Rattle.txn_set.specs.Ledger.{is_closed, keeps_drop};
ghost use Rattle.turn.specs.Seats.{IsSame, mine};
ghost use Rattle.turn.specs.Tables.{table_of};

use crate::shared::{Seat, Store};
use disk_model::Disk;
use race_model::Batch;
use retro_base::{Refusal, Who};
use std::sync::Wait;
use std::thread;

// Whether a line of its own tells what became of a drop.
fn tells_drop(answer: &Result<(), Refusal>) -> bool
    ensures { result ≡ tells_drop answer.now }
{
    match answer {
        Ok(())
        | Err(
            Refusal::DiskFault { .. }
            | Refusal::Stopped { .. }
            | Refusal::NoSuchSnapshot { .. }
            | Refusal::Pinned { .. },
        ) => true,
        _ => false,
    }
}

impl<D: Disk + Drop> Store<D> {
    // Makes a copy round and a write round, and sees whether the log has room for so many bytes, which it cuts where
    // nothing is left to copy or to write back; what is refused ends it.
    fn room_round<R: Wait>(
        &self,
        rt: &R,
        seat: &mut Seat<D>,
        who: Who,
        bytes: u64,
        batch: &mut Batch,
    ) -> Result<bool, Refusal>
        requires ready { IsReady (table_of self.now.turn) seat.old × IsWhole seat.old }
        requires own { who.session ≡ seat.old.number }
        requires serve { MayServe seat.old who }
        ensures ready { IsReady (table_of self.now.turn) seat.new × IsWhole seat.new }
        ensures makes { MakesRound D.is_honest D.state D.faults (table_of self.now.turn) D.remembers D.clock who
            bytes result seat.old seat.new }
    {
        if let Err(why) = self.copy_round(rt, seat, who, batch) {
            return Err(why);
        }
        if let Err(why) = self.write_round(rt, seat, who) {
            return Err(why);
        }
        self.cut_log(rt, seat, who, bytes)
    }

    // Makes rounds until the log has room for so many bytes, or one is refused. Another session's round may have to end
    // before there is, so it gives way behind each of its own.
    fn make_room<R: Wait>(
        &self,
        rt: &R,
        seat: &mut Seat<D>,
        who: Who,
        bytes: u64,
    ) -> Result<(), Refusal>
        requires ready { IsReady (table_of self.now.turn) seat.old × IsWhole seat.old }
        requires own { who.session ≡ seat.old.number }
        requires serve { MayServe seat.old who }
        ensures ready { IsReady (table_of self.now.turn) seat.new × IsWhole seat.new }
        ensures makes { MakesRoom D.is_honest D.state D.faults (table_of self.now.turn) D.remembers D.clock who
            bytes result seat.old seat.new }
    {
        let mut batch = match Batch::new(self.alloc) {
            Ok(batch) => batch,
            Err(why) => return Err(why),
        };
        'rounds: for _ in rt.forever() {
            match self.room_round(rt, seat, who, bytes, &mut batch) {
                Ok(true) => return Ok(()),
                Ok(false) => thread::yield_now(),
                Err(why) => return Err(why),
            }
        }
        unreachable!()
    }

    /// Commits the transaction of this item: its edits become public, and where there is a mark a snapshot with that
    /// label is declared, whose number it answers. The refusals are those of `Core::commit`, in that order, but for
    /// NoRoom: where the log has no room the session makes rounds under its own item until it has, and asks again.
    /// Where a round is refused for want of memory, so is the commit; where a device failed in it, the commit answers
    /// that, and the transaction is closed with the line of the fault.
    pub fn commit<R: Wait>(
        &self,
        rt: &R,
        seat: &mut Seat<D>,
        who: Who,
        mark: Option<&[u8]>,
    ) -> Result<Option<u32>, Refusal>
        requires ready { IsReady (table_of self.now.turn) seat.old × IsWhole seat.old }
        requires own { who.session ≡ seat.old.number }
        requires is_open { IsOpenIn seat.old who }
        requires label { IfSome mark (λ bytes. IsTrue (is_label bytes.now)) }
        ensures ready { IsReady (table_of self.now.turn) seat.new × IsWhole seat.new }
        ensures ended { OnOk result ((mine seat.new).work ≡ None) }
        ensures same { IsSame seat.old seat.new }
        ensures answers { (t : Transaction) → (mine seat.old).work ≡ Some (Open t)
            → AnswersAtLast D.is_honest D.state D.faults (table_of self.now.turn) D.remembers D.clock who
            (CommitDoes D.is_honest D.state D.faults D.remembers D.clock who (option_copied mark.entry) t)
            result seat.old seat.new }
    {
        'ask: for _ in rt.forever() {
            match self.ask_commit(rt, seat, who, mark) {
                Ok(number) => return Ok(number),
                Err(why) => match why {
                    Refusal::NoRoom { needed, .. } => match self.make_room(rt, seat, who, needed) {
                        Ok(()) => {}
                        Err(why) => match why {
                            Refusal::Stopped { .. } => thread::yield_now(),
                            _ => return Err(why),
                        },
                    },
                    _ => return Err(why),
                },
            }
        }
        unreachable!()
    }

    // Drops the snapshots below a number: one visit to the desk, which may find no room in the log, and then keeps the
    // drop's line.
    fn ask_drop<R: Wait>(
        &self,
        rt: &R,
        seat: &mut Seat<D>,
        who: Who,
        below: u64,
    ) -> Result<(), Refusal>
        requires ready { IsReady (table_of self.now.turn) seat.old × IsWhole seat.old }
        requires own { who.session ≡ seat.old.number }
        requires is_closed { is_closed (mine seat.old).work ≡ true }
        ensures ready { IsReady (table_of self.now.turn) seat.new × IsWhole seat.new }
        ensures is_closed { is_closed (mine seat.new).work ≡ true }
        ensures kept { IfErr result (λ why. IsRoom why → keeps_drop who (mine seat.new).work ≡ true) }
        ensures visits { Visits D.is_honest D.state D.faults (table_of self.now.turn)
            (DropDoes D.is_honest D.state D.faults D.remembers D.clock who below result) seat.old seat.new }
    {
        let mut side = self.enter(rt, seat);
        let answer = side.drop_below(self.alloc, who, below);
        self.leave(seat, side);
        answer
    }

    // Asks for a drop until the log has room for it; its line is kept while room is made.
    fn asked_drop<R: Wait>(
        &self,
        rt: &R,
        seat: &mut Seat<D>,
        who: Who,
        below: u64,
    ) -> Result<(), Refusal>
        requires ready { IsReady (table_of self.now.turn) seat.old × IsWhole seat.old }
        requires own { who.session ≡ seat.old.number }
        requires is_closed { is_closed (mine seat.old).work ≡ true }
        ensures ready { IsReady (table_of self.now.turn) seat.new × IsWhole seat.new }
        ensures is_closed { is_closed (mine seat.new).work ≡ true }
        ensures same { IsSame seat.old seat.new }
        ensures answers { AnswersAtLast D.is_honest D.state D.faults (table_of self.now.turn) D.remembers D.clock who
            (DropDoes D.is_honest D.state D.faults D.remembers D.clock who below) result seat.old seat.new }
    {
        'ask: for _ in rt.forever() {
            match self.ask_drop(rt, seat, who, below) {
                Ok(()) => return Ok(()),
                Err(why) => match why {
                    Refusal::NoRoom { needed, .. } => match self.make_room(rt, seat, who, needed) {
                        Ok(()) => {}
                        Err(why) => match why {
                            Refusal::Stopped { .. } => thread::yield_now(),
                            _ => return Err(why),
                        },
                    },
                    _ => return Err(why),
                },
            }
        }
        unreachable!()
    }

    // Gives up the line that the session keeps for a drop, if any.
    fn give_up_drop<R: Wait>(&self, rt: &R, seat: &mut Seat<D>, who: Who)
        requires ready { IsReady (table_of self.now.turn) seat.old × IsWhole seat.old }
        requires own { who.session ≡ seat.old.number }
        requires is_closed { is_closed (mine seat.old).work ≡ true }
        ensures ready { IsReady (table_of self.now.turn) seat.new × IsWhole seat.new }
        ensures none { (mine seat.new).work ≡ None }
        ensures gives_up { Visits D.is_honest D.state D.faults (table_of self.now.turn)
            (GivesUpDrop D.is_honest D.state who) seat.old seat.new }
    {
        let mut side = self.enter(rt, seat);
        side.give_up_drop(who);
        self.leave(seat, side);
    }

    /// Drops the snapshots below a number, for a session that has nothing open. The refusals are those of
    /// `Core::drop_below`, in that order, but for NoRoom: where the log has no room the drop's line is kept, the
    /// session makes rounds under its own item, and asks again. Where a round is refused for want of memory, so is the
    /// drop; where a device failed in it, the drop answers that, and the line is the fault's. Where no line tells what
    /// became of the drop, the line that was kept for it is given up.
    pub fn drop_below<R: Wait>(
        &self,
        rt: &R,
        seat: &mut Seat<D>,
        who: Who,
        below: u64,
    ) -> Result<(), Refusal>
        requires ready { IsReady (table_of self.now.turn) seat.old × IsWhole seat.old }
        requires own { who.session ≡ seat.old.number }
        requires is_closed { is_closed (mine seat.old).work ≡ true }
        ensures ready { IsReady (table_of self.now.turn) seat.new × IsWhole seat.new }
        ensures none { (mine seat.new).work ≡ None }
        ensures same { IsSame seat.old seat.new }
        ensures answers { DropAnswers D.is_honest D.state D.faults (table_of self.now.turn) D.remembers D.clock who
            below result seat.old seat.new }
    {
        let answer = self.asked_drop(rt, seat, who, below);
        if tells_drop(&answer) {
            return answer;
        }
        self.give_up_drop(rt, seat, who);
        answer
    }
}
