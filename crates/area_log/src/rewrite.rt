//! The rewrite of a region.

ghost use Rattle.std.specs.Prelude.{◌≡◌, ◌≤◌, ◌<◌, ◌+◌, ◌^◌, ◌↔◌, ℕ, List, IsTrue, length, OnOk, IfOk};
ghost use Rattle.disk_model.specs.Disk.{IsDurable};
ghost use Rattle.disk_model.specs.Moments.{LeavesOnly};
ghost use Rattle.disk_model.specs.Runs.{SameDevice};
ghost use Rattle.retro_base.specs.Cause.{FaultsAlone};
ghost use Rattle.gate_log.specs.Log.{IsPrepared};
ghost use Rattle.gate_log.specs.Region.{IsOpen};
ghost use Rattle.area_log.specs.Rewrite.{Rewriting, Rewritten, shut_at, Shutting};

use disk_model::Disk;
use gate_log::{GateLog, Prepared, put_durably};
use retro_base::{Device, OPEN_GATE, Refusal};

/// Closes the gate of a region's header if it is open, fills the region, and opens the gate: six calls of the
/// device, or the last four of them. A closed gate is not closed again, since a crash within that write might
/// leave it open before whatever stands behind it.
pub fn rewrite<D: Disk>(
    disk: &mut D,
    device: Device,
    place: u64,
    size: u64,
    is_open: bool,
    prepared: &Prepared,
) -> Result<GateLog, Refusal>
    requires inside { place + size ≤ D.extent disk.old }
    requires room { length prepared.now + 1 ≤ size }
    requires fits { place + size < 2 ^ 64 }
    ensures same { SameDevice D.extent D.is_honest disk.old disk.new }
    ensures cause { FaultsAlone device (D.faults disk.old) (D.faults disk.new) result }
    ensures log { IfOk result (λ log.
        log ≡ record { device = device; place = place; size = size; gate = length prepared.now }) }
    ensures rewritten { (generation : ℕ) (bodies : List (List ℕ))
        → IsPrepared prepared.now generation bodies → D.is_honest disk.old
        → OnOk result (Rewritten place size generation bodies (D.state disk.old) (D.state disk.new)) }
    ensures any_moment { (generation : ℕ) (bodies : List (List ℕ))
        → IsPrepared prepared.now generation bodies → D.is_honest disk.old
        → IsDurable (D.state disk.old) → (IsTrue is_open ↔ IsOpen place (D.state disk.old).seen)
        → LeavesOnly D.remembers (D.clock disk.old) (D.clock disk.new)
        (Rewriting place size generation bodies (D.state disk.old).seen) }
{
    shut(disk, device, place, is_open)?;
    let log = prepared.fill(disk, device, place, size)?;
    put_durably(disk, device, place, &[OPEN_GATE])?;
    Ok(log)
}

// Closes the gate of a region's header, unless it is closed.
fn shut<D: Disk>(disk: &mut D, device: Device, place: u64, is_open: bool) -> Result<(), Refusal>
    requires { place + 1 ≤ D.extent disk.old }
    ensures same { SameDevice D.extent D.is_honest disk.old disk.new }
    ensures cause { FaultsAlone device (D.faults disk.old) (D.faults disk.new) result }
    ensures shut { D.is_honest disk.old
        → OnOk result ((D.state disk.new).seen ≡ shut_at is_open place (D.state disk.old).seen) }
    ensures durable { D.is_honest disk.old → IsDurable (D.state disk.old)
        → OnOk result (IsDurable (D.state disk.new)) }
    ensures any_moment { D.is_honest disk.old → IsDurable (D.state disk.old)
        → (IsTrue is_open ↔ IsOpen place (D.state disk.old).seen)
        → LeavesOnly D.remembers (D.clock disk.old) (D.clock disk.new) (Shutting place (D.state disk.old).seen) }
{
    if !is_open {
        return Ok(());
    }
    put_durably(disk, device, place, &[0])
}
