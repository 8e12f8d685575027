//! Slots for the seats of a store.

ghost use Rattle.std.specs.Prelude.{◌≡◌, ◌≢◌, ◌<◌, ℕ, Some, None, is_some, length, true, IfOk};
ghost use Rattle.retro.specs.Slots.{AreAnswers, IsSetAt, SitsAt, answered_at, seat_at};

use session::Kept;
use std::alloc::{AllocError, Global};
use std::mem;
use values::Seq;

/// A slot for the seat of a session, and what the session answered in the phase that runs: what is kept of its items.
pub struct Slot<S> {
    pub seat: Option<S>,
    pub answered: Result<Seq<Kept>, AllocError>,
}

impl<S> Slot<S> {
    /// A slot with a seat, of whose session nothing is kept.
    pub fn new(alloc: Global, seat: S) -> Slot<S>
        ensures { result.seat ≡ Some seat }
    {
        Slot {
            seat: Some(seat),
            answered: Ok(Seq::new(alloc)),
        }
    }

    /// The seat of a slot that has one.
    pub fn into_seat(self) -> S
        requires there { is_some self.seat ≡ true }
        ensures { self.seat ≡ Some result }
    {
        let Slot { seat, answered: _ } = self;
        match seat {
            Some(seat) => seat,
            None => unreachable!(),
        }
    }

    /// Takes the seat out.
    pub fn take(&mut self) -> S
        requires there { is_some self.old.seat ≡ true }
        ensures seat { self.old.seat ≡ Some result }
        ensures free { self.new.seat ≡ None }
    {
        match self.seat.take() {
            Some(seat) => seat,
            None => unreachable!(),
        }
    }

    /// Puts a seat into the free slot.
    pub fn put(&mut self, seat: S)
        requires free { self.old.seat ≡ None }
        ensures seat { self.new.seat ≡ Some seat }
        ensures answered { self.new.answered ≡ self.old.answered }
    {
        match self.seat.replace(seat) {
            None => {}
            Some(_) => unreachable!(),
        }
    }

    // What the session answered, which the slot has no more.
    fn answer(&mut self, alloc: Global) -> Result<Seq<Kept>, AllocError>
        ensures answered { result ≡ self.old.answered }
        ensures seat { self.new.seat ≡ self.old.seat }
    {
        mem::replace(&mut self.answered, Ok(Seq::new(alloc)))
    }
}

/// Takes the seat of a number out of its slot.
pub fn take<S>(slots: &mut [Slot<S>], number: usize) -> S
    requires bound { number < length slots.old }
    requires there { is_some (seat_at slots.old number) ≡ true }
    ensures seat { SitsAt slots.old number result }
    ensures count { length slots.new ≡ length slots.old }
    ensures others { (other : ℕ) → other ≢ number → seat_at slots.new other ≡ seat_at slots.old other }
    ensures free { seat_at slots.new number ≡ None }
{
    slots[number].take()
}

/// Puts a seat into a free slot.
pub fn put<S>(slots: &mut [Slot<S>], number: usize, seat: S)
    requires bound { number < length slots.old }
    requires free { seat_at slots.old number ≡ None }
    ensures { IsSetAt slots.old slots.new number seat }
{
    slots[number].put(seat);
}

// What the session of a number answered.
fn answer<S>(alloc: Global, slots: &mut [Slot<S>], number: usize) -> Result<Seq<Kept>, AllocError>
    requires bound { number < length slots.old }
    ensures answered { result ≡ answered_at slots.old number }
    ensures count { length slots.new ≡ length slots.old }
    ensures seats { (other : ℕ) → seat_at slots.new other ≡ seat_at slots.old other }
    ensures others { (other : ℕ) → other ≢ number → answered_at slots.new other ≡ answered_at slots.old other }
{
    slots[number].answer(alloc)
}

/// What the sessions answered, in order. AllocError where memory was wanting for one of them, or is for the list.
pub fn answers<S>(alloc: Global, slots: &mut [Slot<S>]) -> Result<Seq<Seq<Kept>>, AllocError>
    ensures answered { IfOk result (AreAnswers slots.old) }
    ensures count { length slots.new ≡ length slots.old }
    ensures seats { (number : ℕ) → seat_at slots.new number ≡ seat_at slots.old number }
{
    let mut kept = Seq::new(alloc);
    for number in 0..slots.len() {
        let one = answer(alloc, slots, number)?;
        kept.push(one)?;
    }
    Ok(kept)
}
