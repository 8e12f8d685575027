//! The crash clauses at a device that remembers.

ghost use Rattle.std.specs.Prelude.{◌≡◌, ◌*◌, ◌<◌, ◌++◌, [], ◌∷◌, ℕ, List, length, IfErr, OnOk};
ghost use Rattle.area_log.specs.Area.{Holds, ListsEither};
ghost use Rattle.area_log.specs.Cause.{IsWriteRefusal};
ghost use Rattle.block_file.specs.Blocks.{block_at, KeepsSettled};
ghost use Rattle.device_tests.specs.Left.{EachLeft};
ghost use Rattle.disk_mem.specs.History.{state_of};
ghost use Rattle.gate_log.specs.Cause.{IsAppendRefusal, IsFillRefusal};
ghost use Rattle.retro_base.specs.Cause.{FaultsAlone};
ghost use Rattle.retro_base.specs.declared.device.Device.TheVariants.{Pages};

use area_log::AreaLog;
use block_file::PageFile;
use disk_mem::MemDisk;
use disk_model::Disk;
use gate_log::Framed;
use retro_base::{Page, Refusal};
use std::alloc::Global;

/// Adds a body. Each crash within it leaves the list with the body or without.
pub fn append_on(log: &mut AreaLog, disk: &mut MemDisk, framed: &Framed) -> Result<(), Refusal>
    requires { length (state_of disk.old.past).seen ≡ 2 * log.old.log.size }
    ensures cause { IfErr result (IsWriteRefusal log.old (IsAppendRefusal log.old.log (length framed.now)
        (⟦<MemDisk as Disk>⟧.faults disk.old) (⟦<MemDisk as Disk>⟧.faults disk.new))
        (⟦<MemDisk as Disk>⟧.faults disk.old) (⟦<MemDisk as Disk>⟧.faults disk.new)) }
    ensures holds { (bodies : List (List ℕ)) → Holds log.old bodies (state_of disk.old.past)
        → OnOk result (Holds log.new (bodies ++ framed.now ∷ []) (state_of disk.new.past)) }
    ensures left { (bodies : List (List ℕ)) → Holds log.old bodies (state_of disk.old.past)
        → EachLeft disk.old disk.new (ListsEither log.old.log.size bodies (bodies ++ framed.now ∷ [])) }
{
    log.append(disk, framed)
}

/// Puts these bodies in the place of all that are there. Each crash within it leaves the old list or the new one.
pub fn replace_on(
    alloc: Global,
    log: &mut AreaLog,
    disk: &mut MemDisk,
    bodies: &[Framed],
) -> Result<(), Refusal>
    requires { length (state_of disk.old.past).seen ≡ 2 * log.old.log.size }
    ensures cause { IfErr result (IsWriteRefusal log.old (IsFillRefusal log.old.log.size bodies.now log.old.log.device
        (⟦<MemDisk as Disk>⟧.faults disk.old) (⟦<MemDisk as Disk>⟧.faults disk.new))
        (⟦<MemDisk as Disk>⟧.faults disk.old) (⟦<MemDisk as Disk>⟧.faults disk.new)) }
    ensures holds { (old : List (List ℕ)) → Holds log.old old (state_of disk.old.past)
        → OnOk result (Holds log.new bodies.now (state_of disk.new.past)) }
    ensures left { (old : List (List ℕ)) → Holds log.old old (state_of disk.old.past)
        → EachLeft disk.old disk.new (ListsEither log.old.log.size old bodies.now) }
{
    log.replace(alloc, disk, bodies)
}

/// Writes a page. Each crash within it leaves every other settled page as it was.
pub fn write_on(file: &mut PageFile<MemDisk>, page: u32, bytes: &Page) -> Result<(), Refusal>
    requires { page < file.old.blocks }
    ensures cause { FaultsAlone Pages (⟦<MemDisk as Disk>⟧.faults file.old.disk)
        (⟦<MemDisk as Disk>⟧.faults file.new.disk) result }
    ensures written { OnOk result (block_at (state_of file.new.disk.past).seen page ≡ bytes.now) }
    ensures left { EachLeft file.old.disk file.new.disk
        (KeepsSettled (λ other. other ≡ page) (state_of file.old.disk.past)) }
{
    file.write(page, bytes)
}
