//! The vault's lock.

ghost use Rattle.std.specs.Prelude.{◌≡◌, ◌≤◌, IfSome};
ghost use mathlib.Core.List.{IsPrefix};
ghost use Rattle.history.specs.Lines.{lines_of};
ghost use Rattle.turn.specs.Seats.{IsBehindVault, IsInVault, IsSame, LeavesVault, Rests, held, mine, opening, seen};
ghost use Rattle.turn.specs.Rule.{DeskBeside};
ghost use Rattle.turn.specs.Tables.{table_of};

use crate::locked::{DeskValue, VaultValue};
use crate::plays::{DrawsVault, Raises, ReadsVault, ServesVault};
use crate::seat::Seat;
use crate::turn::Turn;
use crate::view::Kept;
use std::sync::Wait;
use std::thread;

impl<A: DeskValue, B: VaultValue<A::Opening>> Turn<A, B> {
    /// Waits for its turn at the vault, and takes its value, as the last one inside left it. The seat has then seen
    /// a journal that the value stands for, with all its own lines: that of the desk's value as it was last left, which
    /// stands beside it.
    pub fn enter_vault<R: Wait>(&self, rt: &R, seat: &mut Seat<A, B>) -> B
        requires { Rests (table_of self.now) seat.old }
        ensures inside { IsInVault (table_of self.now) seat.new result }
        ensures same { IsSame seat.old seat.new × (mine seat.new ≡ mine seat.old) }
        ensures front { IsPrefix (seen seat.old) (seen seat.new) }
        ensures own { (mine seat.old).lines ≡ lines_of seat.old.number (seen seat.new) }
        ensures fits { IfSome (opening seat.old) (λ x. B.meaning.Fits result x (seen seat.new)) }
        ensures lawful { IfSome (opening seat.old) (λ x. A.Opening.meaning.Lawful x (seen seat.new)) }
        ensures held { held seat.new ≡ B.meaning.held result }
        ensures rises { held seat.old ≤ held seat.new }
        ensures beside { (near : DeskBeside A.Opening.meaning A.meaning B.meaning result (opening seat.old)
            (seen seat.new))
            × (A.meaning.journal near.desk ≡ seen seat.new) }
    {
        let ticket = self
            .table
            .shared
            .fetch_add::<DrawsVault>(&mut seat.seat, 3, 1);
        for _ in rt.forever() {
            let serving = self
                .table
                .shared
                .load::<ReadsVault<A, B>>(&mut seat.seat, 4);
            if serving == ticket {
                let taken = self.table.shared.exchange(&mut seat.seat, 1, None);
                let Some(Kept::Vault(vault)) = taken else {
                    unreachable!()
                };
                return vault;
            }
            thread::yield_now();
        }
        unreachable!()
    }

    /// Gives the vault's value back, with what the seat has made of it, and serves the next. Beside the value that it
    /// leaves stands the desk's as it was last left.
    pub fn leave_vault(&self, seat: &mut Seat<A, B>, vault: B)
        requires { LeavesVault B.meaning (table_of self.now) seat.old vault }
        ensures rests { Rests (table_of self.now) seat.new }
        ensures same { IsSame seat.old seat.new × (seen seat.new ≡ seen seat.old) }
        ensures held { held seat.new ≡ B.meaning.held vault }
        ensures mine { IsBehindVault B.meaning (table_of self.now) seat.old vault seat.new }
        ensures beside { DeskBeside A.Opening.meaning A.meaning B.meaning vault (opening seat.old) (seen seat.old) }
    {
        let held = vault.held();
        let left = self
            .table
            .shared
            .exchange(&mut seat.seat, 1, Some(Kept::Vault(vault)));
        let None = left else { unreachable!() };
        self.table
            .shared
            .store::<Raises<A, B>>(&mut seat.seat, 5, held);
        self.table
            .shared
            .fetch_add::<ServesVault>(&mut seat.seat, 4, 1);
    }
}
