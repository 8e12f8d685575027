//! The making of a store on devices of zeros.

ghost use Rattle.std.specs.Prelude.{◌≡◌, List, ℕ, IfErr, IfOk, MatchResult, OnOk};
ghost use Rattle.disk_model.specs.Cabinet.{AreSized, Each, IsBlank};
ghost use Rattle.disk_model.specs.declared.four.Four.{Four as FourOf};
ghost use Rattle.history.specs.Right.{IsBase};
ghost use Rattle.opening.specs.Devices.{AreImages, IsUnopened, of_each, SameCounts};
ghost use Rattle.records.specs.Entries.{BaseFits};
ghost use Rattle.store_format.specs.Empty.{AreFilled, AreInRange, AreSame, empty_base, IsEmptyStore};

use disk_model::{Disk, Four, Sizes};
use gate_log::settle;
use history::{Base, Version};
use map_log::MapLog;
use redo_log::RedoLog;
use retro_base::{Device, Refusal};
use std::alloc::Global;
use values::Seq;

// What the log of a new store says.
fn first_base(alloc: Global, sizes: Sizes) -> Base
    requires { AreInRange sizes }
    ensures base { result ≡ empty_base sizes }
    ensures right { IsBase result }
    ensures fits { (version : Version) → BaseFits version result }
{
    Base {
        page_count: sizes.pages,
        capacity: sizes.capacity,
        changes: 0,
        captures: 0,
        marks: Seq::new(alloc),
        captured: Seq::new(alloc),
    }
}

// Settles pages and page images, and makes the Maplog and then the log.
fn fill<D: Disk>(
    alloc: Global,
    version: Version,
    disks: &mut Four<D>,
    sizes: Sizes,
) -> Result<(), Refusal>
    requires range { AreInRange sizes }
    requires sized { AreSized D.extent sizes disks.old }
    ensures same { AreSame D.extent D.is_honest disks.old disks.new }
    ensures cause { MatchResult result
        (λ _. SameCounts (of_each D.faults disks.old) (of_each D.faults disks.new))
        (IsUnopened (λ _ _. ⊥) (of_each D.faults disks.old) (of_each D.faults disks.new)) }
    ensures filled { Each (IsBlank D.extent D.is_honest D.state) disks.old
        → OnOk result (AreFilled D.extent D.state version sizes disks.new) }
{
    settle(&mut disks.pages, Device::Pages)?;
    settle(&mut disks.pagelog, Device::Pagelog)?;
    MapLog::make(alloc, &mut disks.maplog, version, sizes.capacity)?;
    RedoLog::make(alloc, version, &mut disks.log, &first_base(alloc, sizes))
}

/// Makes a store of these sizes, its logs in records of that version, on four devices that are all zero: no snapshot
/// was declared, no page is captured, and each page is zero. Then every crash leaves devices that open to that store,
/// where they were zero and tell their bytes; of others this is not known, and nothing is asked of them. The log is
/// made last: until then no store is there. It is refused exactly where a call of a device failed, and for want of
/// memory. The devices come back.
pub fn format<D: Disk + Drop>(
    alloc: Global,
    version: Version,
    disks: Four<D>,
    sizes: Sizes,
) -> Result<Four<D>, (Four<D>, Refusal)>
    requires range { AreInRange sizes }
    requires sized { AreSized D.extent sizes disks }
    ensures same { MatchResult result (AreSame D.extent D.is_honest disks)
        (λ e. AreSame D.extent D.is_honest disks e.0) }
    ensures cause { MatchResult result
        (λ made. SameCounts (of_each D.faults disks) (of_each D.faults made))
        (λ e. IsUnopened (λ _ _. ⊥) (of_each D.faults disks) (of_each D.faults e.0) e.1) }
    ensures empty { Each (IsBlank D.extent D.is_honest D.state) disks → IfOk result (λ made.
        (devices : FourOf (List ℕ)) → AreImages D.state made devices → IsEmptyStore version sizes devices) }
{
    let mut disks = disks;
    match fill(alloc, version, &mut disks, sizes) {
        Ok(()) => Ok(disks),
        Err(why) => Err((disks, why)),
    }
}
