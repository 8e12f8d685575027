//! The open attempt of a seat as a pager.

ghost use Rattle.std.specs.Prelude.{◌≡◌, true, None};
ghost use Rattle.journal_law.specs.Seats.{is_open, keeps};
ghost use Rattle.seat_pager.specs.Asked.{asked_behind};

use crate::refused::Refused;
use journal_law::Seat;
use pager::{EditPager, Pager};
use retro_base::{Page, Refusal};

/// A seat with an open attempt, as a pager. A call fails where the seat refuses it.
pub struct TransactionPager<S: Seat> {
    pub seat: S,
    pub refused: Refused,
    /// The page for which an edit was refused as one more than a transaction edits.
    pub asked: Option<u32>,
    /// The refusal that the attempt keeps.
    pub kept: Option<Refusal>,
    pub ghost open_now: { is_open (S.view seat).work ≡ true },
}

impl<S: Seat> TransactionPager<S> {
    /// A pager over a seat's open attempt.
    pub fn new(seat: S) -> TransactionPager<S>
        requires { is_open (S.view seat).work ≡ true }
        ensures seat { result.seat ≡ seat }
        ensures refused { result.refused ≡ record { last = None; count = 0 } }
        ensures asked { result.asked ≡ None }
        ensures kept { result.kept ≡ None }
    {
        TransactionPager {
            seat,
            refused: Refused::none(),
            asked: None,
            kept: None,
        }
    }

    /// The refusal that the attempt keeps: its last one, but for want of memory.
    pub fn kept(&self) -> Option<Refusal>
        ensures { result ≡ self.now.kept }
    {
        self.kept
    }

    /// The seat.
    pub fn into_seat(self) -> S
        ensures { result ≡ self.seat }
    {
        let TransactionPager {
            seat,
            refused: _,
            asked: _,
            kept: _,
        } = self;
        seat
    }
}

// The page for which an edit was refused as one too many, behind a refused edit of this one: the first.
fn asked_behind(asked: Option<u32>, page: u32, why: Refusal) -> Option<u32>
    ensures { result ≡ asked_behind asked page why }
{
    match (asked, why) {
        (None, Refusal::TooManyPages { .. }) => Some(page),
        _ => asked,
    }
}

// What an attempt keeps of a refusal, behind what it kept.
fn keeps(why: Refusal, kept: Option<Refusal>) -> Option<Refusal>
    ensures { result ≡ keeps why kept }
{
    match why {
        Refusal::Overlap { .. } | Refusal::DiskFault { .. } | Refusal::TooManyPages { .. } => Some(
            why,
        ),
        _ => kept,
    }
}

impl<S: Seat> Pager for TransactionPager<S> {
    ghost use Rattle.seat_pager.specs.Frames.{goes_on, stays};
    ghost use Rattle.seat_pager.specs.Transaction.{GoesOn, Tells};

    type Fault = Refusal;

    ghost tells = { λ p base shown. S.is_honest p.seat × Tells (S.view p.seat) p.asked base shown };

    ghost goes = { λ p q. S.goes p.seat q.seat
        × GoesOn (record { view = S.view p.seat; kept = p.kept; asked = p.asked })
        (record { view = S.view q.seat; kept = q.kept; asked = q.asked }) };

    ghost size = { λ p. (S.view p.seat).opened.base.page_count };

    ghost faults = { λ p. p.refused.count };

    fn read(&mut self, page: u32, out: &mut Page) -> Result<(), Refusal> {
        match self.seat.read(page, out) {
            Ok(()) => Ok(()),
            Err(why) => {
                self.refused = self.refused.with(why);
                self.kept = keeps(why, self.kept);
                Err(why)
            }
        }
    }

    fn size(&self) -> u32 {
        self.seat.pages()
    }

    fn faults(&self) -> u64 {
        self.refused.count
    }

    ghost stays = { λ p. (
      S.stays p.seat,
      stays (record { view = S.view p.seat; kept = p.kept; asked = p.asked }),
    ) };

    ghost goes_on = { λ p q r one two. (
      S.goes_on p.seat q.seat r.seat one.0 two.0,
      goes_on (record { view = S.view p.seat; kept = p.kept; asked = p.asked })
          (record { view = S.view q.seat; kept = q.kept; asked = q.asked })
          (record { view = S.view r.seat; kept = r.kept; asked = r.asked }) one.1 two.1,
    ) };
}

impl<S: Seat> EditPager for TransactionPager<S> {
    fn edit(&mut self, page: u32, bytes: &Page) -> Result<(), Refusal> {
        match self.seat.edit(page, bytes) {
            Ok(()) => Ok(()),
            Err(why) => {
                self.refused = self.refused.with(why);
                self.kept = keeps(why, self.kept);
                self.asked = asked_behind(self.asked, page, why);
                Err(why)
            }
        }
    }
}
