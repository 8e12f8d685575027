//! What seats see of the journal, and tell one another, outside the locks.

ghost use Rattle.std.specs.Prelude.{◌≡◌, ◌<◌, max, IfSome};
ghost use mathlib.Core.List.{IsPrefix};
ghost use Rattle.history.specs.Lines.{horizon_of, lines_of};
ghost use Rattle.turn.specs.Seats.{Agrees, IsSame, Rests, held, mine, opening, seen};
ghost use Rattle.turn.specs.Views.{lending, lent, longer, returned};
ghost use Rattle.turn.specs.Tables.{table_of};

use crate::locked::{DeskValue, VaultValue};
use crate::plays::{Gather, Help, Note, SeesHorizon, Settles};
use crate::seat::{Seat, SeatOver};
use crate::turn::Turn;
use crate::words::horizon_in;

impl<A: DeskValue, B: VaultValue<A::Opening>> Turn<A, B> {
    /// The oldest and the newest snapshot behind the journal as it is, which the seat has then seen. It waits for
    /// nobody.
    pub fn horizon(&self, seat: &mut Seat<A, B>) -> (u32, u32)
        requires { Rests (table_of self.now) seat.old }
        ensures rests { Rests (table_of self.now) seat.new }
        ensures same { IsSame seat.old seat.new × (mine seat.new ≡ mine seat.old)
            × (held seat.new ≡ held seat.old) }
        ensures front { IsPrefix (seen seat.old) (seen seat.new) }
        ensures horizon { IfSome (opening seat.old) (λ x.
            result ≡ horizon_of (A.Opening.meaning.base x) (seen seat.new)) }
        ensures own { (mine seat.old).lines ≡ lines_of seat.old.number (seen seat.new) }
        ensures lawful { IfSome (opening seat.old) (λ x. A.Opening.meaning.Lawful x (seen seat.new)) }
    {
        horizon_in(self.table.shared.load::<SeesHorizon<A>>(&mut seat.seat, 2))
    }

    /// A helper of the seat, which records nothing, as the seat then doesn't either. A seat has at most fifteen.
    pub fn lend(&self, seat: &mut Seat<A, B>) -> Seat<A, B>
        requires rests { Rests (table_of self.now) seat.old }
        requires room { 1 < (mine seat.old).parts }
        ensures rests { Rests (table_of self.now) seat.new × Rests (table_of self.now) result }
        ensures same { IsSame seat.old seat.new × (seen seat.new ≡ seen seat.old) × (held seat.new ≡ held seat.old) }
        ensures seat { mine seat.new ≡ lending (mine seat.old) }
        ensures helper { (mine result ≡ lent (mine seat.old)) × (seen result ≡ seen seat.old)
            × (held result ≡ held seat.old) × (opening result ≡ opening seat.old) }
    {
        let helper = self.table.shared.split_seat::<Help>(&mut seat.seat);
        SeatOver {
            number: seat.number,
            seat: helper,
        }
    }

    /// Ends a helper of the seat.
    pub fn take_back(&self, seat: &mut Seat<A, B>, helper: Seat<A, B>)
        requires rests { Rests (table_of self.now) seat.old × Rests (table_of self.now) helper }
        requires helper { (helper.number ≡ seat.old.number) × ((mine helper).parts ≡ 1) }
        ensures rests { Rests (table_of self.now) seat.new }
        ensures same { IsSame seat.old seat.new }
        ensures seat { mine seat.new ≡ returned (mine helper) (mine seat.old) }
        ensures seen { seen seat.new ≡ longer (seen seat.old) (seen helper) }
        ensures held { held seat.new ≡ max (held seat.old) (held helper) }
        ensures fronts { IsPrefix (seen seat.old) (seen seat.new) × IsPrefix (seen helper) (seen seat.new) }
        ensures agrees { Agrees A.Opening.meaning seat.new }
    {
        let SeatOver {
            number: _,
            seat: helper,
        } = helper;
        self.table.shared.join_seat::<Help>(&mut seat.seat, helper);
        self.table.shared.load::<Settles<A>>(&mut seat.seat, 2);
    }

    /// Both have then seen the longer of the journals that they had seen, and the most that either saw the vault
    /// hold. It waits for nobody.
    pub fn meet(&self, one: &mut Seat<A, B>, other: &mut Seat<A, B>)
        requires { Rests (table_of self.now) one.old × Rests (table_of self.now) other.old }
        ensures rests { Rests (table_of self.now) one.new × Rests (table_of self.now) other.new }
        ensures same { IsSame one.old one.new × IsSame other.old other.new }
        ensures mine { (mine one.new ≡ mine one.old) × (mine other.new ≡ mine other.old) }
        ensures seen { (seen one.new ≡ longer (seen one.old) (seen other.old)) × (seen other.new ≡ seen one.new) }
        ensures held { (held one.new ≡ max (held one.old) (held other.old)) × (held other.new ≡ held one.new) }
        ensures fronts { IsPrefix (seen one.old) (seen one.new) × IsPrefix (seen other.old) (seen other.new) }
        ensures agrees { Agrees A.Opening.meaning one.new × Agrees A.Opening.meaning other.new }
    {
        self.inform(one, other);
        self.inform(other, one);
    }

    // The first has then seen the longer of the two journals.
    fn inform(&self, one: &mut Seat<A, B>, other: &mut Seat<A, B>)
        requires { Rests (table_of self.now) one.old × Rests (table_of self.now) other.old }
        ensures rests { Rests (table_of self.now) one.new × Rests (table_of self.now) other.new }
        ensures same { IsSame one.old one.new × (mine one.new ≡ mine one.old) }
        ensures other { IsSame other.old other.new × (other.new.seat.me ≡ other.old.seat.me) }
        ensures seen { seen one.new ≡ longer (seen one.old) (seen other.old) }
        ensures held { held one.new ≡ max (held one.old) (held other.old) }
        ensures fronts { IsPrefix (seen one.old) (seen one.new) × IsPrefix (seen other.old) (seen one.new) }
        ensures agrees { Agrees A.Opening.meaning one.new }
    {
        let note = self.table.shared.split_seat::<Note>(&mut other.seat);
        self.table.shared.join_seat::<Gather>(&mut one.seat, note);
        self.table.shared.load::<Settles<A>>(&mut one.seat, 2);
    }
}
