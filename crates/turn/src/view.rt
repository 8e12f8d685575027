//! What a seat knows. No value of these is made, but of `Kept`.

use history::Line;
use retro_base::Device;
use std::collections::LinkedList;

/// A seat's parts of its number, and what it has under that number.
pub struct Holding<W> {
    pub number: u64,
    pub parts: u64,
    /// The lines of the journal that have the number, in order.
    pub lines: LinkedList<Line>,
    pub work: Option<W>,
    /// The faults, by device and count, that the seat was told and has not told since: a line
    /// that tells one stands for all of its device before.
    pub faults: LinkedList<(Device, u64)>,
}

/// Where a seat stands at a lock: with which ticket, and inside with the value that it took last or recorded.
pub enum Place<X> {
    Outside,
    Waits(u64),
    Inside(u64, X),
}

pub struct View<O, W, A, B> {
    /// What the store was opened with; none where the view is spent.
    pub opening: Option<O>,
    pub desk: Place<A>,
    pub vault: Place<B>,
    /// The front of the journal that was seen.
    pub seen: LinkedList<Line>,
    /// Fronts that other seats had seen, which were joined into this one.
    pub heard: LinkedList<LinkedList<Line>>,
    /// The most mappings that the seat has seen the vault hold.
    pub held: u64,
    pub holds: LinkedList<Holding<W>>,
}

/// What lies in the slots of the table: the desk's value in the first, the vault's in the second.
pub enum Kept<A, B> {
    Desk(A),
    Vault(B),
}
