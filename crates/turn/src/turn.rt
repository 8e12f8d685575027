//! The table with the two locks: how it is made and closed.

ghost use Rattle.std.specs.Prelude.{◌≡◌, ◌≤◌, ◌*◌, ◌∷◌, ℕ, [], length, Some, IfOk, IfErr};
ghost use Rattle.retro_base.specs.declared.device.Device.{Device};
ghost use Rattle.turn.specs.Rule.{Knows, told_times};
ghost use Rattle.turn.specs.declared.view.Kept.TheVariants.{Desk, Vault};
ghost use Rattle.turn.specs.declared.view.Place.TheVariants.{Outside};
ghost use Rattle.turn.specs.Views.{PARTS, parts_of};
ghost use Rattle.turn.specs.Seats.{AreClosed, AreNew, AreRight, AreWhole, Covers, MayOpen, told_to};

use crate::locked::{DeskValue, VaultValue};
use crate::plays::{Comes, Deal, Gather};
use crate::seat::{Seat, SeatOver};
use crate::view::{Kept, View};
use crate::words::word_of;
use atomic_table as table;
use atomic_table::{Refused, Table, TableRule};
use std::alloc::Global;
use std::marker::PhantomData;
use std::snapshot::Snapshot;

/// What the table is told once: how many seats there are, and, for the proofs, the desk that it began with.
#[derive(Drop)]
pub(crate) struct Key<A> {
    pub(crate) seats: u32,
    pub(crate) first: Snapshot<A>,
}

/// The rule of the table.
pub(crate) struct Order<A, B> {
    of: PhantomData<(A, B)>,
}

impl<A: DeskValue, B: VaultValue<A::Opening>> TableRule<
    Option<Kept<A, B>>,
    View<A::Opening, A::Work, A, B>,
    Key<A>,
> for Order<A, B> {
    ghost use Rattle.turn.specs.Rule.{IsRuled};
    ghost use Rattle.turn.specs.Views.{first_view};

    ghost holds = { λ key. IsRuled A.Opening.meaning A.meaning B.meaning (A.meaning.opening key.first.value)
        key.seats };

    ghost first = { λ key. first_view (A.meaning.opening key.first.value) key.seats };
}

/// A desk and a vault, each in a lock that its seats enter in turn.
pub struct Turn<A: DeskValue, B: VaultValue<A::Opening>> {
    pub(crate) table: Table<
        Option<Kept<A, B>>,
        View<A::Opening, A::Work, A, B>,
        Key<A>,
        Order<A, B>,
        Global,
    >,
    ghost words: { table.shared.table_id.words ≡ 6 },
    ghost slots: { table.shared.table_id.slots ≡ 2 },
}

impl<A: DeskValue, B: VaultValue<A::Opening>> Turn<A, B> {
    /// Locks with so many seats, which are numbered from 0 in the order of the vector. Where memory runs out the
    /// values come back.
    pub fn new(
        alloc: Global,
        desk: A,
        vault: B,
        seats: u32,
    ) -> Result<(Turn<A, B>, Vec<Seat<A, B>>), (A, B)>
        requires seats { seats ≤ 65536 }
        requires open { MayOpen A.Opening.meaning A.meaning B.meaning desk vault }
        ensures seats { IfOk result (λ r. (r.0.table.shared.key.seats ≡ seats) × (length r.1.items ≡ seats)) }
        ensures opening { IfOk result (λ r.
            A.meaning.opening r.0.table.shared.key.first.value ≡ A.meaning.opening desk) }
        ensures new { IfOk result (λ r. AreNew r.0.table.shared.table_id (A.meaning.opening desk) r.1.items) }
        ensures back { IfErr result (λ r. (r.0 ≡ desk) × (r.1 ≡ vault)) }
    {
        let Ok(mut all) = Vec::with_capacity(alloc, seats as usize) else {
            return Err((desk, vault));
        };
        let first = Snapshot::of(&desk);
        let words = [0, 0, word_of(desk.horizon()), 0, 0, vault.held()];
        let slots = match in_slots(alloc, desk, vault) {
            Ok(slots) => slots,
            Err(back) => return Err(back),
        };
        let (table, mut first) = match Table::new(alloc, &words, slots, &Key { seats, first }) {
            Ok(made) => made,
            Err(refused) => {
                let Refused { slots } = refused;
                return Err(out_of_slots(slots));
            }
        };
        'deal: for number in 0..seats {
            let seat = table.shared.split_seat::<Deal>(&mut first);
            all.push_reserved(SeatOver {
                number: number as u16,
                seat,
            });
        }
        Ok((Turn { table }, all))
    }

    /// Ends the locks, with all their seats, in any order.
    pub fn close(self, seats: Vec<Seat<A, B>>) -> (A, B)
        requires all { length seats.items ≡ self.table.shared.key.seats }
        requires whole { AreWhole self.table.shared.table_id seats.items }
        ensures closed { AreClosed A.Opening.meaning A.meaning B.meaning self.table.shared.key.seats
            (λ d c. told_to d c seats.items) result.0 result.1 }
        ensures opening { A.meaning.opening result.0 ≡ A.meaning.opening self.table.shared.key.first.value }
        ensures right { AreRight A.meaning B.meaning result.0 result.1 seats.items }
    {
        let all = self.gather(seats);
        self.take_home(all)
    }

    // One seat with all that the seats have.
    fn gather(
        &self,
        mut seats: Vec<Seat<A, B>>,
    ) -> table::Seat<Option<Kept<A, B>>, View<A::Opening, A::Work, A, B>>
        requires { AreWhole self.now.table.shared.table_id seats.items }
        ensures table { result.table_id ≡ self.now.table.shared.table_id }
        ensures outside { (result.me.0.desk ≡ Outside) × (result.me.0.vault ≡ Outside) × (result.me.1 ≡ []) }
        ensures parts { parts_of result.me.0 ≡ PARTS * length seats.items }
        ensures told { (d : Device) (c : ℕ) → told_times d c result.me.0 ≡ told_to d c seats.items }
        ensures covers { Covers A.Opening.meaning A.meaning B.meaning result.me.0 seats.items }
    {
        let (_, mut all) = self.table.shared.load_new_seat::<Comes>(0);
        'gather: while let Some(last) = seats.pop() {
            let SeatOver { number: _, seat } = last;
            self.table.shared.join_seat::<Gather>(&mut all, seat);
        }
        seats.destroy_empty();
        all
    }

    // The values, where this seat has all parts.
    fn take_home(
        self,
        all: table::Seat<Option<Kept<A, B>>, View<A::Opening, A::Work, A, B>>,
    ) -> (A, B)
        requires table { all.table_id ≡ self.table.shared.table_id }
        requires outside { (all.me.0.desk ≡ Outside) × (all.me.0.vault ≡ Outside) }
        requires parts { parts_of all.me.0 ≡ PARTS * self.table.shared.key.seats }
        ensures closed { AreClosed A.Opening.meaning A.meaning B.meaning self.table.shared.key.seats
            (λ d c. told_times d c all.me.0) result.0 result.1 }
        ensures opening { A.meaning.opening result.0 ≡ A.meaning.opening self.table.shared.key.first.value }
        ensures known { Knows A.Opening.meaning A.meaning B.meaning result.0 result.1 all.me.0 }
    {
        let Turn { table } = self;
        let mut closed = table.close_with(all);
        let first = closed.take(0);
        let second = closed.take(1);
        closed.free();
        both_of(first, second)
    }
}

// The two values in the slots of the table.
fn in_slots<A, B>(alloc: Global, desk: A, vault: B) -> Result<Vec<Option<Kept<A, B>>>, (A, B)>
    ensures ok { IfOk result (λ v. v.items ≡ Some (Desk desk) ∷ Some (Vault vault) ∷ []) }
    ensures back { IfErr result (λ r. r ≡ (desk, vault)) }
{
    let Ok(mut slots) = Vec::with_capacity(alloc, 2) else {
        return Err((desk, vault));
    };
    slots.push_reserved(Some(Kept::Desk(desk)));
    slots.push_reserved(Some(Kept::Vault(vault)));
    Ok(slots)
}

fn out_of_slots<A, B>(mut slots: Vec<Option<Kept<A, B>>>) -> (A, B)
    requires { (x : A) × (y : B) × (slots.items ≡ Some (Desk x) ∷ Some (Vault y) ∷ []) }
    ensures { slots.items ≡ Some (Desk result.0) ∷ Some (Vault result.1) ∷ [] }
{
    let Some(second) = slots.pop() else {
        unreachable!()
    };
    let Some(first) = slots.pop() else {
        unreachable!()
    };
    slots.destroy_empty();
    both_of(first, second)
}

// The values of the two slots.
fn both_of<A, B>(first: Option<Kept<A, B>>, second: Option<Kept<A, B>>) -> (A, B)
    requires { (x : A) × (y : B) × (first ≡ Some (Desk x)) × (second ≡ Some (Vault y)) }
    ensures { (first ≡ Some (Desk result.0)) × (second ≡ Some (Vault result.1)) }
{
    let Some(Kept::Desk(desk)) = first else {
        unreachable!()
    };
    let Some(Kept::Vault(vault)) = second else {
        unreachable!()
    };
    (desk, vault)
}
