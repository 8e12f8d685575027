//! The crash clauses at devices that remember.

ghost use Rattle.std.specs.Prelude.{◌≤◌, OnOk};
ghost use Rattle.device_tests.specs.Left.{EachLeft};
ghost use Rattle.race_model.specs.Machine.{enter_failed, trim_failed};
ghost use Rattle.race_model.specs.Vault.{batch_end, enter_into, trim_to, Vault};
ghost use Rattle.archive.specs.Side.{IsNextBatch, ListsMaplogOf};
ghost use Rattle.archive_tests.specs.OnMemDisks.{EachImage, GoesOnAs, HasCaptures, HasOtherSlots, Lists};

use archive::Archive;
use disk_mem::MemDisk;
use race_model::{Batch, Fault, Receipt};

/// Lays a batch. Each crash within it leaves every slot that is not the batch's and was not loose; behind it each image
/// has the batch's captures in their slots.
pub fn lay_on(archive: &mut Archive<MemDisk>, batch: &Batch) -> Result<(), Fault>
    requires { IsNextBatch archive.old.side batch.now }
    ensures left { (vault : Vault) → GoesOnAs archive.old vault
        → EachLeft archive.old.pagelog.disk archive.new.pagelog.disk
        (HasOtherSlots archive.old.pagelog.blocks vault batch.now) }
    ensures laid { (vault : Vault) → GoesOnAs archive.old vault
        → OnOk result (EachImage archive.new.pagelog.disk (HasCaptures archive.old.pagelog.blocks batch.now)) }
{
    archive.lay_batch(batch)
}

/// Enters a batch. Each crash within it leaves the mappings as they were, those with what the batch forgets forgotten,
/// or those with the batch's behind them; behind it each image lists the last.
pub fn enter_on(archive: &mut Archive<MemDisk>, batch: &Batch) -> Result<Receipt, Fault>
    requires batch { IsNextBatch archive.old.side batch.now }
    requires laid { batch_end batch.now ≤ archive.old.laid }
    ensures left { (vault : Vault) → GoesOnAs archive.old vault
        → EachLeft archive.old.side.disk archive.new.side.disk
        (ListsMaplogOf archive.old.side.log (enter_failed vault batch.now)) }
    ensures listed { (vault : Vault) → GoesOnAs archive.old vault
        → OnOk result (EachImage archive.new.side.disk
        (Lists archive.new.side.log (enter_into vault.mappings batch.now))) }
{
    archive.enter_batch(batch)
}

/// Forgets the mappings below `low`. Each crash within it leaves the mappings with them or without; behind it each
/// image lists those without.
pub fn trim_on(archive: &mut Archive<MemDisk>, low: u64) -> Result<(), Fault>
    requires { low ≤ archive.old.side.held }
    ensures left { (vault : Vault) → GoesOnAs archive.old vault
        → EachLeft archive.old.side.disk archive.new.side.disk
        (ListsMaplogOf archive.old.side.log (trim_failed vault low)) }
    ensures listed { (vault : Vault) → GoesOnAs archive.old vault
        → OnOk result (EachImage archive.new.side.disk
        (Lists archive.new.side.log (trim_to vault.mappings low))) }
{
    archive.trim(low)
}
