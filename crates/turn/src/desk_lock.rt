//! The desk's lock.

ghost use Rattle.std.specs.Prelude.{◌≡◌, ◌≤◌, Some};
ghost use mathlib.Core.List.{IsPrefix};
ghost use Rattle.history.specs.Lines.{lines_of};
ghost use Rattle.turn.specs.Seats.{IsBehindDesk, IsInDesk, IsSame, LeavesDesk, Rests, held, mine, opening, seen};
ghost use Rattle.turn.specs.Rule.{TellsFaults, VaultBeside};
ghost use Rattle.turn.specs.Tables.{table_of};

use crate::locked::{DeskValue, VaultValue};
use crate::plays::{DrawsDesk, ReadsDesk, Records, ServesDesk};
use crate::seat::Seat;
use crate::turn::Turn;
use crate::view::Kept;
use crate::words::word_of;
use std::sync::Wait;
use std::thread;

impl<A: DeskValue, B: VaultValue<A::Opening>> Turn<A, B> {
    /// Waits for its turn at the desk, and takes its value, as the last one inside left it. The seat has then seen
    /// the journal that the value keeps. Beside the value stands the vault's as it was last left: at that moment both
    /// are of one opening and one journal.
    pub fn enter_desk<R: Wait>(&self, rt: &R, seat: &mut Seat<A, B>) -> A
        requires { Rests (table_of self.now) seat.old }
        ensures inside { IsInDesk (table_of self.now) seat.new result }
        ensures same { IsSame seat.old seat.new × (mine seat.new ≡ mine seat.old) }
        ensures seen { seen seat.new ≡ A.meaning.journal result }
        ensures front { IsPrefix (seen seat.old) (A.meaning.journal result) }
        ensures lines { (mine seat.old).lines ≡ lines_of seat.old.number (A.meaning.journal result) }
        ensures work { (mine seat.old).work ≡ A.meaning.work_of result seat.old.number }
        ensures faults { TellsFaults A.meaning result (mine seat.old) }
        ensures opening { opening seat.old ≡ Some (A.meaning.opening result) }
        ensures fits { A.meaning.Fits result }
        ensures lawful { A.Opening.meaning.Lawful (A.meaning.opening result) (A.meaning.journal result) }
        ensures held { held seat.old ≤ held seat.new }
        ensures acked { A.meaning.acked result ≤ held seat.new }
        ensures beside { VaultBeside A.Opening.meaning A.meaning B.meaning result (held seat.new) }
    {
        let ticket = self
            .table
            .shared
            .fetch_add::<DrawsDesk>(&mut seat.seat, 0, 1);
        for _ in rt.forever() {
            let serving = self.table.shared.load::<ReadsDesk<A, B>>(&mut seat.seat, 1);
            if serving == ticket {
                let taken = self.table.shared.exchange(&mut seat.seat, 0, None);
                let Some(Kept::Desk(desk)) = taken else {
                    unreachable!()
                };
                return desk;
            }
            thread::yield_now();
        }
        unreachable!()
    }

    /// Gives the desk's value back, with what the seat has made of it, and serves the next. Beside the value that it
    /// leaves stands the vault's as it was last left.
    pub fn leave_desk(&self, seat: &mut Seat<A, B>, desk: A)
        requires { LeavesDesk A.Opening.meaning A.meaning (table_of self.now) seat.old desk }
        ensures rests { Rests (table_of self.now) seat.new }
        ensures same { IsSame seat.old seat.new × (held seat.new ≡ held seat.old) }
        ensures seen { seen seat.new ≡ A.meaning.journal desk }
        ensures mine { IsBehindDesk A.meaning (table_of self.now) seat.old desk seat.new }
        ensures beside { VaultBeside A.Opening.meaning A.meaning B.meaning desk (held seat.new) }
    {
        let word = word_of(desk.horizon());
        let left = self
            .table
            .shared
            .exchange(&mut seat.seat, 0, Some(Kept::Desk(desk)));
        let None = left else { unreachable!() };
        self.table
            .shared
            .store::<Records<A, B>>(&mut seat.seat, 2, word);
        self.table
            .shared
            .fetch_add::<ServesDesk>(&mut seat.seat, 1, 1);
    }
}
