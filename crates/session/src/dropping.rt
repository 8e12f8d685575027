//! Drops of snapshots.

ghost use Rattle.std.specs.Prelude.{◌≡◌, IfOk, Some, []};
ghost use Rattle.journal_law.specs.Seats.{Idle};
ghost use Rattle.session.specs.Singles.{Settles, item_drop_below};
ghost use Rattle.session.specs.Wording.{words_of};

use crate::ending::{Told, refused_alone};
use crate::wording::write_dropped;
use journal_law::Seat;
use retro_base::Who;
use script::SessionName;
use std::alloc::Global;
use values::Seq;

// The reply of a drop that is done.
fn dropped(alloc: Global, below: u64) -> Told
    ensures { IfOk result (λ told. told ≡ Some ((words_of []).dropped below)) }
{
    let mut text = Vec::new(alloc);
    write_dropped(alloc, below, &mut text)?;
    Ok(Some(Seq::from(text)))
}

/// Drops the snapshots below a number, and gives the reply.
pub fn drop_below<S: Seat>(
    alloc: Global,
    seat: S,
    who: Who,
    names: &[SessionName],
    below: u64,
) -> (S, Told)
    requires idle { (S.view seat).work ≡ Idle }
    requires own { who.session ≡ (S.view seat).session }
    ensures settles { Settles who (item_drop_below names.now below) (S.view seat) (S.view result.0) result.1 }
    ensures idle { (S.view result.0).work ≡ Idle }
    ensures session { (S.view result.0).session ≡ (S.view seat).session }
    ensures goes { S.goes seat result.0 }
{
    let mut seat = seat;
    match seat.drop_below(who, below) {
        Ok(()) => (seat, dropped(alloc, below)),
        Err(why) => (seat, refused_alone(alloc, names, why)),
    }
}
