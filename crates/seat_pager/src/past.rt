//! An open look of a seat as a pager.

ghost use Rattle.std.specs.Prelude.{◌≡◌, ◌<◌, true, None, IsSome, is_some, IsTrue};
ghost use Rattle.journal_law.specs.Seats.{Look, Looking, Pins, is_looking};
ghost use Rattle.seat_pager.specs.Past.{pins};

use crate::refused::Refused;
use journal_law::Seat;
use pager::Pager;
use retro_base::{Page, Refusal};

/// A seat with an open look, as a pager of the pages as of one snapshot. A call fails where the seat refuses it.
pub struct PastPager<S: Seat> {
    pub seat: S,
    pub snapshot: u32,
    pub refused: Refused,
    pub ghost looking_now: { is_looking (S.view seat).work ≡ true },
    pub ghost counted: { 0 < refused.count → is_some refused.last ≡ true },
    pub ghost pinned: { IsTrue (pins (S.view seat) snapshot) },
}

impl<S: Seat> PastPager<S> {
    /// A pager over a seat's open look, of the pages as of a snapshot that the look pins.
    pub fn new(seat: S, snapshot: u32) -> PastPager<S>
        requires looking_now { is_looking (S.view seat).work ≡ true }
        requires pinned { (l : Look) → (S.view seat).work ≡ Looking l → Pins (S.view seat) l snapshot }
        ensures seat { result.seat ≡ seat }
        ensures snapshot { result.snapshot ≡ snapshot }
        ensures refused { result.refused ≡ record { last = None; count = 0 } }
    {
        PastPager {
            seat,
            snapshot,
            refused: Refused::none(),
        }
    }

    /// The refusal of the last call that was refused.
    pub fn refused(&self) -> Option<Refusal>
        ensures last { result ≡ self.now.refused.last }
        ensures counted { 0 < self.now.refused.count → IsSome result }
    {
        self.refused.last
    }

    /// The seat.
    pub fn into_seat(self) -> S
        ensures { result ≡ self.seat }
    {
        let PastPager {
            seat,
            snapshot: _,
            refused: _,
        } = self;
        seat
    }
}

impl<S: Seat> Pager for PastPager<S> {
    ghost use Rattle.std.specs.Prelude.{◌≡◌};
    ghost use Rattle.std.proofs.Common.{◌∙◌, refl};
    ghost use Rattle.seat_pager.specs.Frames.{looks_on, looks_still};
    ghost use Rattle.seat_pager.specs.Past.{LooksOn, Shows};

    type Fault = Refusal;

    ghost tells = { λ p base shown. S.is_honest p.seat × Shows (S.view p.seat) p.snapshot shown };

    ghost goes = { λ p q. S.goes p.seat q.seat × (q.snapshot ≡ p.snapshot)
        × LooksOn (record { view = S.view p.seat; refused = p.refused.last })
        (record { view = S.view q.seat; refused = q.refused.last }) };

    ghost size = { λ p. (S.view p.seat).opened.base.page_count };

    ghost faults = { λ p. p.refused.count };

    fn read(&mut self, page: u32, out: &mut Page) -> Result<(), Refusal> {
        match self.seat.past(self.snapshot, page, out) {
            Ok(()) => Ok(()),
            Err(why) => {
                self.refused = self.refused.with(why);
                Err(why)
            }
        }
    }

    fn size(&self) -> u32 {
        self.seat.pages()
    }

    fn faults(&self) -> u64 {
        self.refused.count
    }

    ghost stays = { λ p. (
      S.stays p.seat,
      refl,
      looks_still (record { view = S.view p.seat; refused = p.refused.last }),
    ) };

    ghost goes_on = { λ p q r one two. (
      S.goes_on p.seat q.seat r.seat one.0 two.0,
      two.1 ∙ one.1,
      looks_on (record { view = S.view p.seat; refused = p.refused.last })
          (record { view = S.view q.seat; refused = q.refused.last })
          (record { view = S.view r.seat; refused = r.refused.last }) one.2 two.2,
    ) };
}
