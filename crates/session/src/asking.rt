//! A seat's open look at all snapshots, as what answers queries as of them.

ghost use Rattle.std.specs.Prelude.{◌≡◌};
ghost use Rattle.rql.specs.AsOf.{IsOfQuery};
ghost use Rattle.session.specs.Asking.{of_query_alone};

use journal_law::Seat;
use pager::Stop;
use retro_base::Refusal;
use rql::AsOf;
use seat_pager::PastPager;
use sql_exec::ask;
use sql_select::Answer;
use sql_tree::Select;
use std::alloc::Global;

// A refusal that a query may have; want of memory in place of any other.
fn of_query_alone(why: Refusal) -> Refusal
    ensures exact { result ≡ of_query_alone why }
    ensures named { IsOfQuery result }
{
    match why {
        Refusal::NotAStore { device, place } => Refusal::NotAStore { device, place },
        Refusal::UnknownName => Refusal::UnknownName,
        Refusal::NameTaken => Refusal::NameTaken,
        Refusal::WrongType => Refusal::WrongType,
        Refusal::Overflow => Refusal::Overflow,
        _ => Refusal::OutOfMemory,
    }
}

/// A seat with an open look at all snapshots, as what answers queries as of them.
pub struct LookAsOf<S: Seat> {
    pub alloc: Global,
    pub pager: PastPager<S>,
}

impl<S: Seat> AsOf for LookAsOf<S> {
    ghost use Rattle.std.specs.Prelude.{◌≡◌};
    ghost use Rattle.seat_pager.specs.Frames.{looks_on, looks_still};
    ghost use Rattle.seat_pager.specs.Past.{LooksOn, pins};
    ghost use Rattle.session.specs.Asking.{TellsPast};

    type Fault = Refusal;

    ghost may_ask = { λ a snapshot. pins (S.view a.pager.seat) snapshot };

    ghost told = { λ a answers. S.is_honest a.pager.seat × TellsPast (S.view a.pager.seat) answers };

    ghost goes = { λ a b. S.goes a.pager.seat b.pager.seat
        × LooksOn (record { view = S.view a.pager.seat; refused = a.pager.refused.last })
        (record { view = S.view b.pager.seat; refused = b.pager.refused.last }) };

    ghost faults = { λ a. a.pager.refused.count };

    fn answer(&mut self, snapshot: u32, query: &Select) -> Result<Answer, Stop<Refusal>> {
        self.pager.snapshot = snapshot;
        match ask(self.alloc, query, &mut self.pager, Some(snapshot)) {
            Ok(answer) => Ok(answer),
            Err(Stop::Refused(why)) => Err(Stop::Refused(of_query_alone(why))),
            Err(Stop::Pager(fault)) => Err(Stop::Pager(fault)),
        }
    }

    fn faults(&self) -> u64 {
        self.pager.refused.count
    }

    ghost stays = { λ a. (
      S.stays a.pager.seat,
      looks_still (record { view = S.view a.pager.seat; refused = a.pager.refused.last }),
    ) };

    ghost goes_on = { λ a b c one two. (
      S.goes_on a.pager.seat b.pager.seat c.pager.seat one.0 two.0,
      looks_on (record { view = S.view a.pager.seat; refused = a.pager.refused.last })
          (record { view = S.view b.pager.seat; refused = b.pager.refused.last })
          (record { view = S.view c.pager.seat; refused = c.pager.refused.last }) one.1 two.1,
    ) };
}
