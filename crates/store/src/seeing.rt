//! What seats see of the journal beside their own calls, and what they tell one another.

ghost use Rattle.std.specs.Prelude.{◌≡◌, ◌<◌, ◌≤◌, ℕ, is_some, IfSome};
ghost use Rattle.history.specs.Lines.{first_stop, horizon_of};
ghost use Rattle.store.specs.Moments.{KeepsDevices};
ghost use Rattle.store.specs.Seats.{IsPage, IsReady, IsWhole, StaysIn, Visits, Waits};
ghost use Rattle.store.specs.Start.{opened_base};
ghost use Rattle.turn.specs.Seats.{IsSame, held, mine, opening, seen};
ghost use Rattle.turn.specs.Tables.{table_of};
ghost use Rattle.turn.specs.Views.{lending, lent, longer, returned};

use crate::shared::{Seat, Store};
use disk_model::{Disk, Sizes};
use std::sync::Wait;

impl<D: Disk + Drop> Store<D> {
    /// How many pages the store has, and how many page images its archive holds.
    pub fn sizes<R: Wait>(&self, rt: &R, seat: &mut Seat<D>) -> Sizes
        requires { IsReady (table_of self.now.turn) seat.old }
        ensures ready { IsReady (table_of self.now.turn) seat.new }
        ensures same { StaysIn seat.old seat.new }
        ensures whole { IsWhole seat.old → IsWhole seat.new }
        ensures work { (mine seat.new).work ≡ (mine seat.old).work }
        ensures waits { Waits seat.old seat.new }
        ensures pages { IfSome (opening seat.old) (λ start. result.pages ≡ (opened_base start).page_count) }
        ensures capacity { IfSome (opening seat.old) (λ start. result.capacity ≡ (opened_base start).capacity) }
        ensures inside { (page : ℕ) → page < result.pages → IsPage seat.new page }
        ensures visits { Visits D.is_honest D.state D.faults (table_of self.now.turn) KeepsDevices seat.old seat.new }
    {
        let side = self.enter(rt, seat);
        let sizes = side.core.sizes();
        self.leave(seat, side);
        sizes
    }

    /// Whether the journal tells a fault of a write or a sync: since then the store writes nothing.
    pub fn stopped<R: Wait>(&self, rt: &R, seat: &mut Seat<D>) -> bool
        requires { IsReady (table_of self.now.turn) seat.old }
        ensures ready { IsReady (table_of self.now.turn) seat.new }
        ensures same { StaysIn seat.old seat.new }
        ensures whole { IsWhole seat.old → IsWhole seat.new }
        ensures work { (mine seat.new).work ≡ (mine seat.old).work }
        ensures waits { Waits seat.old seat.new }
        ensures stopped { result ≡ is_some (first_stop (seen seat.new)) }
        ensures visits { Visits D.is_honest D.state D.faults (table_of self.now.turn) KeepsDevices seat.old seat.new }
    {
        let side = self.enter(rt, seat);
        let stopped = side.core.stopped();
        self.leave(seat, side);
        stopped
    }

    /// The oldest and the newest snapshot behind the journal as it is, which the seat has then seen. It waits for
    /// nobody.
    pub fn horizon(&self, seat: &mut Seat<D>) -> (u32, u32)
        requires { IsReady (table_of self.now.turn) seat.old }
        ensures ready { IsReady (table_of self.now.turn) seat.new }
        ensures same { StaysIn seat.old seat.new }
        ensures whole { IsWhole seat.old → IsWhole seat.new }
        ensures work { (mine seat.new).work ≡ (mine seat.old).work }
        ensures waits { Waits seat.old seat.new }
        ensures horizon { IfSome (opening seat.old) (λ start. result ≡ horizon_of (opened_base start) (seen seat.new)) }
    {
        self.turn.horizon(seat)
    }

    /// A helper of the seat, which reads the past; the seat records nothing while it is out. A seat has at most
    /// fifteen.
    pub fn lend(&self, seat: &mut Seat<D>) -> Seat<D>
        requires ready { IsReady (table_of self.now.turn) seat.old }
        requires room { 1 < (mine seat.old).parts }
        ensures ready { IsReady (table_of self.now.turn) seat.new × IsReady (table_of self.now.turn) result }
        ensures same { IsSame seat.old seat.new }
        ensures seat { (mine seat.new ≡ lending (mine seat.old)) × (seen seat.new ≡ seen seat.old)
            × (held seat.new ≡ held seat.old) }
        ensures helper { (mine result ≡ lent (mine seat.old)) × (seen result ≡ seen seat.old)
            × (opening result ≡ opening seat.old) × (held result ≡ held seat.old) }
    {
        self.turn.lend(seat)
    }

    /// Ends a helper of the seat, which has then seen what the helper saw, and was told its faults.
    pub fn take_back(&self, seat: &mut Seat<D>, helper: Seat<D>)
        requires ready { IsReady (table_of self.now.turn) seat.old × IsReady (table_of self.now.turn) helper }
        requires helper { (helper.number ≡ seat.old.number) × ((mine helper).parts ≡ 1) }
        ensures ready { IsReady (table_of self.now.turn) seat.new }
        ensures same { IsSame seat.old seat.new }
        ensures seat { mine seat.new ≡ returned (mine helper) (mine seat.old) }
        ensures seen { seen seat.new ≡ longer (seen seat.old) (seen helper) }
        ensures waits { Waits seat.old seat.new }
        ensures rises { (held seat.old ≤ held seat.new) × (held helper ≤ held seat.new) }
    {
        self.turn.take_back(seat, helper);
    }

    /// Both have then seen the longer of the journals that they had seen, and the most that either saw the vault
    /// hold. It waits for nobody.
    pub fn meet(&self, one: &mut Seat<D>, other: &mut Seat<D>)
        requires ready { IsReady (table_of self.now.turn) one.old × IsReady (table_of self.now.turn) other.old }
        ensures ready { IsReady (table_of self.now.turn) one.new × IsReady (table_of self.now.turn) other.new }
        ensures same { StaysIn one.old one.new × StaysIn other.old other.new }
        ensures whole { (IsWhole one.old → IsWhole one.new) × (IsWhole other.old → IsWhole other.new) }
        ensures waits { Waits one.old one.new × Waits other.old other.new }
        ensures seen { (seen one.new ≡ longer (seen one.old) (seen other.old)) × (seen other.new ≡ seen one.new) }
        ensures held { held other.new ≡ held one.new }
    {
        self.turn.meet(one, other);
    }
}
