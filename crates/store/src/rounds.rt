//! Rounds: pending captures go to the vault, pages are written back, and the log is cut.

ghost use Rattle.std.specs.Prelude.{◌≡◌, ◌<◌, ◌≤◌, true, Err, MatchResult};
ghost use Rattle.history.specs.declared.journal.FailedCall.TheVariants.{Write};
ghost use Rattle.race_model.specs.Vault.{batch_end};
ghost use Rattle.store.specs.RoundCalls.{AckDoes, CutsBelow, NoteDoes, Offers, SettleDoes, WriteBackDoes};
ghost use Rattle.store.specs.Rounds.{CarriesAtLast, CarriesIn, CopiesRound, HasWrittenAll, IsBatchAt, MayServe, Passes};
ghost use Rattle.store.specs.Rounds.{WritesNoMore, WritesRound};
ghost use Rattle.store.specs.Seats.{FaultFits, IsReady, IsWhole, Visits};
ghost use Rattle.turn.specs.Faults.{fault_times};
ghost use Rattle.turn.specs.Seats.{IsSame, held, mine};
ghost use Rattle.turn.specs.Tables.{table_of};

use crate::carrying::{Carried, carry};
use crate::desk_calls::{count_fits, fault_fits};
use crate::shared::{Seat, Store};
use disk_model::Disk;
use history::FailedCall;
use race_model::{Batch, Fault, Receipt};
use retro_base::{BATCH, Device, LOG_REGION_BYTES, Refusal, Who};
use std::sync::Wait;

impl<D: Disk + Drop> Store<D> {
    // Asks the desk for a batch.
    fn offered<R: Wait>(&self, rt: &R, seat: &mut Seat<D>, batch: &mut Batch) -> bool
        requires ready { IsReady (table_of self.now.turn) seat.old }
        ensures asks { Visits D.is_honest D.state D.faults (table_of self.now.turn)
            (Offers batch.old batch.new result) seat.old seat.new }
        ensures batch { result ≡ true → IsBatchAt D.is_honest D.state seat.new batch.new }
    {
        let side = self.enter(rt, seat);
        if side.core.pending() == 0 {
            self.leave(seat, side);
            return false;
        }
        let some = side.core.next_batch(batch);
        self.leave(seat, side);
        some
    }

    // Visits the vault with a batch.
    fn carried<R: Wait>(&self, rt: &R, seat: &mut Seat<D>, batch: &Batch) -> Result<Carried, Fault>
        requires ready { IsReady (table_of self.now.turn) seat.old }
        requires batch { IsBatchAt D.is_honest D.state seat.old batch.now }
        ensures passes { Passes (table_of self.now.turn) seat.old seat.new }
        ensures batch { IsBatchAt D.is_honest D.state seat.new batch.now }
        ensures fits { FaultFits result }
        ensures carries { CarriesIn D.is_honest D.state D.faults (table_of self.now.turn) D.remembers D.clock
            batch.now result seat.old seat.new }
    {
        let mut archive = self.enter_vault(rt, seat);
        let answer = carry(&mut archive, batch);
        fault_fits(&answer);
        self.leave_vault(seat, archive);
        answer
    }

    // Visits the vault with a batch until it is more than laid: entered, by this round or by another, or refused.
    fn copied<R: Wait>(&self, rt: &R, seat: &mut Seat<D>, batch: &Batch) -> Result<Carried, Fault>
        requires ready { IsReady (table_of self.now.turn) seat.old }
        requires batch { IsBatchAt D.is_honest D.state seat.old batch.now }
        ensures passes { Passes (table_of self.now.turn) seat.old seat.new }
        ensures batch { IsBatchAt D.is_honest D.state seat.new batch.now }
        ensures fits { FaultFits result }
        ensures carries { CarriesAtLast D.is_honest D.state D.faults (table_of self.now.turn) D.remembers D.clock
            batch.now result seat.old seat.new }
    {
        'visit: for _ in rt.forever() {
            match self.carried(rt, seat, batch) {
                Ok(Carried::Laid) => {}
                Ok(Carried::There) => return Ok(Carried::There),
                Ok(Carried::Entered(count)) => return Ok(Carried::Entered(count)),
                Err(fault) => return Err(fault),
            }
        }
        unreachable!()
    }

    // Tells the desk that the vault holds so many captures, up to the end of a batch.
    fn acknowledged<R: Wait>(&self, rt: &R, seat: &mut Seat<D>, batch: &Batch, count: u64)
        requires ready { IsReady (table_of self.now.turn) seat.old }
        requires batch { IsBatchAt D.is_honest D.state seat.old batch.now }
        requires there { (count ≡ batch_end batch.now) × (count ≤ held seat.old) }
        ensures acks { Visits D.is_honest D.state D.faults (table_of self.now.turn)
            (AckDoes D.is_honest D.state (batch_end batch.now)) seat.old seat.new }
    {
        let mut side = self.enter(rt, seat);
        side.core.ack(Receipt::of(count));
        self.leave(seat, side);
    }

    // Records the line of a fault that the seat was told at the vault.
    fn noted<R: Wait>(&self, rt: &R, seat: &mut Seat<D>, who: Who, device: Device, count: u64)
        requires ready { IsReady (table_of self.now.turn) seat.old × IsWhole seat.old }
        requires own { who.session ≡ seat.old.number }
        requires serve { MayServe seat.old who }
        requires told { 0 < fault_times device count (mine seat.old).faults }
        ensures ready { IsReady (table_of self.now.turn) seat.new × IsWhole seat.new }
        ensures notes { Visits D.is_honest D.state D.faults (table_of self.now.turn)
            (NoteDoes D.is_honest D.state who device count Write) seat.old seat.new }
    {
        let mut side = self.enter(rt, seat);
        side.core.note(who, device, count, FailedCall::Write);
        self.leave(seat, side);
    }

    /// Copies up to 64 pending captures to the vault, and tells the desk; false exactly where the desk told that none
    /// is pending. It ends with true too where another round has entered them. The batch is room to work in. It is
    /// refused for want of memory; after the first fault of a write; and where a call of the vault's devices failed:
    /// then the Fault line of the item stands, the desk has stopped, and what the session had open is closed.
    pub fn copy_round<R: Wait>(
        &self,
        rt: &R,
        seat: &mut Seat<D>,
        who: Who,
        batch: &mut Batch,
    ) -> Result<bool, Refusal>
        requires ready { IsReady (table_of self.now.turn) seat.old × IsWhole seat.old }
        requires own { who.session ≡ seat.old.number }
        requires serve { MayServe seat.old who }
        ensures ready { IsReady (table_of self.now.turn) seat.new × IsWhole seat.new }
        ensures same { IsSame seat.old seat.new }
        ensures round { CopiesRound D.is_honest D.state D.faults (table_of self.now.turn) D.remembers D.clock
            who batch.old batch.new result seat.old seat.new }
    {
        if !self.offered(rt, seat, batch) {
            return Ok(false);
        }
        match self.copied(rt, seat, batch) {
            Ok(Carried::Entered(count)) => {
                self.acknowledged(rt, seat, batch, count);
                Ok(true)
            }
            Ok(Carried::There) => Ok(true),
            Ok(Carried::Laid) => unreachable!(),
            Err(Fault { why, .. }) => {
                if let Refusal::DiskFault { device, count } = why {
                    self.noted(rt, seat, who, device, count);
                }
                Err(why)
            }
        }
    }

    // Has the desk write a page back.
    fn write_back<R: Wait>(&self, rt: &R, seat: &mut Seat<D>, who: Who) -> Result<bool, Refusal>
        requires ready { IsReady (table_of self.now.turn) seat.old × IsWhole seat.old }
        requires own { who.session ≡ seat.old.number }
        requires serve { MayServe seat.old who }
        ensures ready { IsReady (table_of self.now.turn) seat.new × IsWhole seat.new }
        ensures writes { Visits D.is_honest D.state D.faults (table_of self.now.turn)
            (WriteBackDoes D.is_honest D.state D.faults D.remembers D.clock who result) seat.old seat.new }
    {
        let mut side = self.enter(rt, seat);
        let answer = side.core.write_back(who);
        count_fits(&answer);
        self.leave(seat, side);
        answer
    }

    // Has the desk make its pages durable.
    fn settle<R: Wait>(&self, rt: &R, seat: &mut Seat<D>, who: Who) -> Result<(), Refusal>
        requires ready { IsReady (table_of self.now.turn) seat.old × IsWhole seat.old }
        requires own { who.session ≡ seat.old.number }
        requires serve { MayServe seat.old who }
        ensures ready { IsReady (table_of self.now.turn) seat.new × IsWhole seat.new }
        ensures settles { Visits D.is_honest D.state D.faults (table_of self.now.turn)
            (SettleDoes D.is_honest D.state D.faults D.remembers D.clock who result) seat.old seat.new }
    {
        let mut side = self.enter(rt, seat);
        let answer = side.core.settle(who);
        count_fits(&answer);
        self.leave(seat, side);
        answer
    }

    // Has the desk see to it that so many bytes of its log are free: true where they are, or it was cut.
    pub(crate) fn cut_log<R: Wait>(
        &self,
        rt: &R,
        seat: &mut Seat<D>,
        who: Who,
        bytes: u64,
    ) -> Result<bool, Refusal>
        requires ready { IsReady (table_of self.now.turn) seat.old × IsWhole seat.old }
        requires own { who.session ≡ seat.old.number }
        requires serve { MayServe seat.old who }
        ensures ready { IsReady (table_of self.now.turn) seat.new × IsWhole seat.new }
        ensures cuts { Visits D.is_honest D.state D.faults (table_of self.now.turn)
            (CutsBelow D.is_honest D.state D.faults D.remembers D.clock who bytes result) seat.old seat.new }
    {
        let mut side = self.enter(rt, seat);
        if bytes <= side.core.free() {
            self.leave(seat, side);
            return Ok(true);
        }
        let answer = side.core.cut_log(self.alloc, who);
        count_fits(&answer);
        self.leave(seat, side);
        answer
    }

    // Behind a first page, has up to 63 more written back.
    fn write_more<R: Wait>(&self, rt: &R, seat: &mut Seat<D>, who: Who) -> Result<(), Refusal>
        requires ready { IsReady (table_of self.now.turn) seat.old × IsWhole seat.old }
        requires own { who.session ≡ seat.old.number }
        requires serve { MayServe seat.old who }
        ensures ready { IsReady (table_of self.now.turn) seat.new × IsWhole seat.new }
        ensures all { MatchResult result
            (λ _. HasWrittenAll D.is_honest D.state D.faults (table_of self.now.turn) D.remembers D.clock who
            seat.old seat.new)
            (λ why. WritesNoMore D.is_honest D.state D.faults (table_of self.now.turn) D.remembers D.clock who
            (Err why) seat.old seat.new) }
    {
        'pages: for _count in 0..BATCH - 1 {
            match self.write_back(rt, seat, who) {
                Ok(true) => {}
                Ok(false) => return Ok(()),
                Err(why) => return Err(why),
            }
        }
        Ok(())
    }

    /// Writes up to 64 dirty pages back, all of whose captures the vault holds, makes them durable, and cuts the log
    /// where less than half of its half is free, if it may be cut; false exactly where the desk told that no page may
    /// be written. It is refused after the first fault of a write; for want of memory; and where a call of the desk's
    /// devices failed: then the Fault line of the item stands, the desk has stopped, and what the session had open is
    /// closed.
    pub fn write_round<R: Wait>(
        &self,
        rt: &R,
        seat: &mut Seat<D>,
        who: Who,
    ) -> Result<bool, Refusal>
        requires ready { IsReady (table_of self.now.turn) seat.old × IsWhole seat.old }
        requires own { who.session ≡ seat.old.number }
        requires serve { MayServe seat.old who }
        ensures ready { IsReady (table_of self.now.turn) seat.new × IsWhole seat.new }
        ensures same { IsSame seat.old seat.new }
        ensures round { WritesRound D.is_honest D.state D.faults (table_of self.now.turn) D.remembers D.clock
            who result seat.old seat.new }
    {
        match self.write_back(rt, seat, who) {
            Ok(true) => {}
            Ok(false) => return Ok(false),
            Err(why) => return Err(why),
        }
        if let Err(why) = self.write_more(rt, seat, who) {
            return Err(why);
        }
        if let Err(why) = self.settle(rt, seat, who) {
            return Err(why);
        }
        match self.cut_log(rt, seat, who, LOG_REGION_BYTES / 2) {
            Ok(_) => Ok(true),
            Err(why) => Err(why),
        }
    }
}
