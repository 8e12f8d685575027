//! How a transaction or a look ends.

ghost use Rattle.std.specs.Prelude.{◌≡◌};
ghost use Rattle.txn_set.specs.Ledger.{closing, ended, is_kept};

use history::{FailedCall, What};
use retro_base::{Device, Refusal};

/// Why a transaction or a look ends.
#[derive(Clone, Copy, Debug, PartialEq, Eq)]
pub enum Ending {
    /// It was asked to.
    Asked,
    /// It was refused.
    Refused(Refusal),
    /// A device failed, in no write or sync.
    Failed { device: Device, count: u64 },
}

/// What the line says that ends a look.
pub(crate) fn ended(why: Ending) -> What
    ensures { result ≡ ended why }
{
    match why {
        Ending::Asked => What::Unlooked,
        Ending::Refused(why) => What::Refused { why },
        Ending::Failed { device, count } => What::Fault {
            device,
            count,
            call: FailedCall::Read,
        },
    }
}

// What the line says that closes a transaction which keeps this refusal.
fn closing_kept(kept: Refusal) -> What
    ensures { (why : Ending) → result ≡ closing (Some kept) why }
{
    match kept {
        Refusal::Overlap { session, item } => What::Overlapped { session, item },
        Refusal::DiskFault { device, count } => What::Fault {
            device,
            count,
            call: FailedCall::Read,
        },
        why => What::Refused { why },
    }
}

/// What the line says that closes a transaction: the refusal that it keeps goes before the reason that is given.
pub(crate) fn closing(kept: Option<Refusal>, why: Ending) -> What
    ensures { result ≡ closing kept why }
{
    match kept {
        Some(kept) => closing_kept(kept),
        None => match why {
            Ending::Asked => What::RolledBack,
            other => ended(other),
        },
    }
}

/// Whether a transaction keeps such a refusal.
pub(crate) fn is_kept(why: Refusal) -> bool
    ensures { result ≡ is_kept why }
{
    match why {
        Refusal::DiskFault { .. } | Refusal::Overlap { .. } | Refusal::TooManyPages { .. } => true,
        _ => false,
    }
}
