//! Runs a plan over an empty store that is made for it, in memory.

ghost use Rattle.std.specs.Prelude.{◌≡◌, ◌<◌, IfErr, IfOk};
ghost use Rattle.disk_model.specs.Cabinet.{AreSized, Each, IsBlank};
ghost use Rattle.opening.specs.Devices.{IsUnopened, of_each};
ghost use Rattle.session.specs.Plan.{PlanFits};
ghost use Rattle.store_format.specs.Empty.{AreInRange};
ghost use Rattle.retro.specs.Memory.{LeftFrom, RunsFrom, empty_opening, memory_opening};

use crate::crew::Crew;
use crate::storing::{Ended, run_on};
use disk_mem::RamDisk;
use disk_model::{Disk, Four, Sizes};
use history::Version;
use opening::devices_are_read_one_way;
use relation_laws::store_law;
use retro_base::{MEMORY_CAPACITY, MEMORY_PAGES, Refusal};
use session::{Plan, RunItems};
use std::alloc::Global;
use std::sync::Wait;
use std::thread::Threads;
use store_format::format;

// Makes an empty store on four devices of zeros, and runs a plan over it. They come back. It is refused exactly where a
// call of a device failed, and for want of memory.
fn run_from_empty<R: Threads + Wait + Sync, D: Disk + Drop + Send, I: RunItems + Sync>(
    alloc: Global,
    crew: &Crew<'_, R, I>,
    disks: Four<D>,
    sizes: Sizes,
    plan: &Plan,
) -> (Four<D>, Result<Ended, Refusal>)
    requires threads { 0 < crew.now.threads }
    requires fits { PlanFits plan.now }
    requires range { AreInRange sizes }
    requires sized { AreSized D.extent sizes disks }
    requires blank { Each (IsBlank D.extent D.is_honest D.state) disks }
    ensures cause { IfErr result.1 (IsUnopened (λ _ _. ⊥) (of_each D.faults disks) (of_each D.faults result.0)) }
    ensures left { IfOk result.1 (LeftFrom sizes.pages plan.now (empty_opening sizes (of_each D.faults disks))
        (of_each D.faults result.0)) }
{
    // Laws for the proof: pages of zeros hold no tables, and bytes that hold a store are not refused as those of none.
    store_law();
    devices_are_read_one_way();
    match format(alloc, Version::One, disks, sizes) {
        Ok(disks) => run_on(alloc, crew, disks, plan),
        Err((disks, why)) => (disks, Err(why)),
    }
}

// A device of that many zeros in memory.
fn zero_disk(alloc: Global, size: u64) -> Result<RamDisk, Refusal>
    ensures size { IfOk result (λ disk. ⟦<RamDisk as Disk>⟧.extent disk ≡ size) }
    ensures blank { IfOk result (IsBlank ⟦<RamDisk as Disk>⟧.extent ⟦<RamDisk as Disk>⟧.is_honest
        ⟦<RamDisk as Disk>⟧.state) }
    ensures wanting { IfErr result (λ why. why ≡ Refusal.OutOfMemory) }
{
    RamDisk::new(alloc, size)
}

// Four of them, for a store of these sizes.
fn zero_disks(alloc: Global, sizes: Sizes) -> Result<Four<RamDisk>, Refusal>
    ensures sized { IfOk result (AreSized ⟦<RamDisk as Disk>⟧.extent sizes) }
    ensures blank { IfOk result (Each (IsBlank ⟦<RamDisk as Disk>⟧.extent ⟦<RamDisk as Disk>⟧.is_honest
        ⟦<RamDisk as Disk>⟧.state)) }
    ensures wanting { IfErr result (λ why. why ≡ Refusal.OutOfMemory) }
{
    Ok(Four {
        log: zero_disk(alloc, sizes.log_bytes())?,
        pages: zero_disk(alloc, sizes.pages_bytes())?,
        pagelog: zero_disk(alloc, sizes.pagelog_bytes())?,
        maplog: zero_disk(alloc, sizes.maplog_bytes())?,
    })
}

/// Runs a plan over an empty store in memory, which is gone behind the run. It is refused for want of memory alone.
pub fn run_in_memory<R: Threads + Wait + Sync, I: RunItems + Sync>(
    alloc: Global,
    crew: &Crew<'_, R, I>,
    plan: &Plan,
) -> Result<Ended, Refusal>
    requires threads { 0 < crew.now.threads }
    requires fits { PlanFits plan.now }
    ensures { RunsFrom MEMORY_PAGES memory_opening plan.now result }
{
    let sizes = Sizes {
        pages: MEMORY_PAGES,
        capacity: MEMORY_CAPACITY,
    };
    let disks = zero_disks(alloc, sizes)?;
    let (_, ended) = run_from_empty(alloc, crew, disks, sizes, plan);
    ended
}
