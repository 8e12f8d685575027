//! The laying of a batch into its slots.

ghost use Rattle.std.specs.Prelude.{◌≡◌, ◌+◌, ◌%◌, ◌<◌, ◌≤◌, ℕ, length, get_or, OnOk};
ghost use Rattle.disk_model.specs.Disk.{IsDurable};
ghost use Rattle.retro_base.specs.Cause.{FaultsAlone};
ghost use Rattle.retro_base.specs.declared.device.Device.TheVariants.{Pagelog as OfPagelog};
ghost use Rattle.retro_base.specs.declared.limits.TheConstants.{MAX_CAPTURES};
ghost use Rattle.block_file.specs.Blocks.{block_at, SameFile, WritesOnly};
ghost use Rattle.replay.specs.Opened.{forgotten};
ghost use Rattle.race_model.specs.Vault.{batch_end, IsSlotOf};

use block_file::Pagelog;
use disk_model::Disk;
use race_model::Batch;
use retro_base::Refusal;

/// Lays a batch's images into their slots, and makes them durable. It is refused exactly where a call of the device
/// failed.
pub fn lay_all<D: Disk>(pagelog: &mut Pagelog<D>, batch: &Batch) -> Result<(), Refusal>
    requires few { length batch.now.images ≤ pagelog.old.blocks }
    requires end { batch_end batch.now ≤ MAX_CAPTURES }
    ensures same { SameFile D.is_honest pagelog.old pagelog.new }
    ensures cause { FaultsAlone OfPagelog (D.faults pagelog.old.disk) (D.faults pagelog.new.disk) result }
    ensures laid { D.is_honest pagelog.old.disk → OnOk result ((place : ℕ) → place < length batch.now.images
        → block_at (D.state pagelog.new.disk).seen ((batch.now.first + place) % pagelog.old.blocks)
        ≡ (get_or batch.now.images place forgotten).bytes) }
    ensures durable { D.is_honest pagelog.old.disk → OnOk result (IsDurable (D.state pagelog.new.disk)) }
    ensures alone { D.is_honest pagelog.old.disk → WritesOnly (IsSlotOf pagelog.old.blocks batch.now)
        D.remembers D.state D.clock pagelog.old.disk pagelog.new.disk }
{
    for place in 0..batch.len() {
        pagelog.lay(batch.first() + place as u64, batch.bytes(place))?;
    }
    pagelog.settle()
}
