//! Pairs of device calls, and the refusal that tells a fault.

ghost use Rattle.std.specs.Prelude.{◌≡◌, ◌≤◌, ◌+◌, length, OnOk};
ghost use Rattle.disk_model.specs.Cause.{HasCause};
ghost use Rattle.disk_model.specs.Disk.{IsDurable, SameOutside};
ghost use Rattle.disk_model.specs.Moments.{LeavesOnly};
ghost use Rattle.disk_model.specs.Runs.{SameDevice, WritesNothing};
ghost use Rattle.gate_log.specs.Appending.{LooseOrIn};
ghost use Rattle.gate_log.specs.Calls.{IsPut};
ghost use Rattle.retro_base.specs.Cause.{FaultsAlone};
ghost use Rattle.retro_base.specs.declared.refusal.Refusal.TheVariants.{DiskFault};

use disk_model::{Disk, Failed};
use retro_base::{Device, Refusal};

/// Writes the bytes from that place on, and syncs: two calls of the device. A crash at any moment of them
/// leaves each byte outside the range that was not loose before.
pub fn put_durably<D: Disk>(
    disk: &mut D,
    device: Device,
    place: u64,
    bytes: &[u8],
) -> Result<(), Refusal>
    requires { place + length bytes.now ≤ D.extent disk.old }
    ensures same { SameDevice D.extent D.is_honest disk.old disk.new }
    ensures cause { FaultsAlone device (D.faults disk.old) (D.faults disk.new) result }
    ensures put { D.is_honest disk.old → OnOk result (IsPut place bytes.now (D.state disk.old) (D.state disk.new)) }
    ensures any_moment { D.is_honest disk.old → LeavesOnly D.remembers (D.clock disk.old) (D.clock disk.new)
        (SameOutside (LooseOrIn (D.state disk.old) place (length bytes.now)) (D.state disk.old).seen) }
{
    match write_and_sync(disk, place, bytes) {
        Ok(()) => Ok(()),
        Err(Failed) => Err(fault_of(disk, device)),
    }
}

fn write_and_sync<D: Disk>(disk: &mut D, place: u64, bytes: &[u8]) -> Result<(), Failed>
    requires { place + length bytes.now ≤ D.extent disk.old }
    ensures same { SameDevice D.extent D.is_honest disk.old disk.new }
    ensures cause { HasCause (D.faults disk.old) (D.faults disk.new) result }
    ensures put { D.is_honest disk.old → OnOk result (IsPut place bytes.now (D.state disk.old) (D.state disk.new)) }
    ensures any_moment { D.is_honest disk.old → LeavesOnly D.remembers (D.clock disk.old) (D.clock disk.new)
        (SameOutside (LooseOrIn (D.state disk.old) place (length bytes.now)) (D.state disk.old).seen) }
{
    disk.write_at(place, bytes)?;
    disk.sync()
}

/// Makes all that was written durable. A fault leaves what was loose as loose as before.
pub fn settle<D: Disk>(disk: &mut D, device: Device) -> Result<(), Refusal>
    ensures same { SameDevice D.extent D.is_honest disk.old disk.new }
    ensures cause { FaultsAlone device (D.faults disk.old) (D.faults disk.new) result }
    ensures settled { D.is_honest disk.old → OnOk result (IsDurable (D.state disk.new)) }
    ensures quiet { D.is_honest disk.old → WritesNothing D.remembers D.state D.clock disk.old disk.new }
{
    match disk.sync() {
        Ok(()) => Ok(()),
        Err(Failed) => Err(fault_of(disk, device)),
    }
}

/// The refusal that tells the device's last fault.
pub fn fault_of<D: Disk>(disk: &D, device: Device) -> Refusal
    ensures { result ≡ DiskFault device (D.faults disk.now) }
{
    Refusal::DiskFault {
        device,
        count: disk.faults(),
    }
}
