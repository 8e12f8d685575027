//! The seats of the threads.

ghost use Rattle.std.specs.Prelude.{◌≡◌};

use crate::locked::DeskValue;
use crate::view::{Kept, View};

/// A seat at both locks, or a helper of one. A thread steps with it.
#[derive(Drop)]
pub struct SeatOver<O, W, A, B> {
    pub(crate) number: u16,
    pub(crate) seat: atomic_table::Seat<Option<Kept<A, B>>, View<O, W, A, B>>,
}

pub type Seat<A: DeskValue, B> = SeatOver<A::Opening, A::Work, A, B>;

impl<O, W, A, B> SeatOver<O, W, A, B> {
    /// The number of the seat, or of the seat that it helps.
    pub fn number(&self) -> u16
        ensures { result ≡ self.now.number }
    {
        self.number
    }
}
