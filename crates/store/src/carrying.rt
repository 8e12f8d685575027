//! A batch is carried into the vault.

ghost use Rattle.std.specs.Prelude.{◌≡◌};
ghost use Rattle.store.specs.Carrying.{Carries, MayCarry};
ghost use Rattle.store.specs.Seats.{FaultFits};

use crate::desk_calls::fault_fits;
use archive::Archive;
use disk_model::Disk;
use race_model::{Batch, Fault};

/// What one visit to the vault did to a batch.
pub(crate) enum Carried {
    /// Nothing: it is entered.
    There,
    /// It lies in its slots.
    Laid,
    /// It is entered, and so many captures are held.
    Entered(u64),
}

// Does nothing where the archive holds more than the batch's first number; else lays the batch, where that is still to
// be done; else enters it.
pub(crate) fn carry<D: Disk>(archive: &mut Archive<D>, batch: &Batch) -> Result<Carried, Fault>
    requires may { MayCarry D.is_honest D.state archive.old batch.now }
    ensures carries { Carries D.is_honest D.state D.faults D.remembers D.clock batch.now result
        archive.old archive.new }
{
    if archive.held() > batch.first() {
        return Ok(Carried::There);
    }
    let end = batch.first() + batch.len() as u64;
    if archive.laid() < end {
        return match archive.lay_batch(batch) {
            Ok(()) => Ok(Carried::Laid),
            Err(fault) => Err(fault),
        };
    }
    match archive.enter_batch(batch) {
        Ok(receipt) => Ok(Carried::Entered(receipt.held())),
        Err(fault) => Err(fault),
    }
}
