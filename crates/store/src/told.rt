//! The faults that a seat is told.

ghost use Rattle.std.specs.Prelude.{◌≡◌, ◌<◌, vec_capacity, vec_len};
ghost use Rattle.store.specs.Seen.{told_more};

use journal_law::ToldFault;
use retro_base::Refusal;

/// Tells the seat of the fault for which a call was refused, if it was for one.
pub(crate) fn tell(told: &mut Vec<ToldFault>, why: Refusal)
    requires { vec_len told.old < vec_capacity told.old }
    ensures { told.new.items ≡ told_more told.old.items why }
{
    if let Refusal::DiskFault { device, count } = why {
        told.push_reserved(ToldFault { device, count });
    }
}
