//! Blocks of a device, read and written.

ghost use Rattle.std.specs.Prelude.{◌≡◌, ◌*◌, OnOk, OnErr};
ghost use Rattle.block_file.specs.Blocks.{block_at, HasBlock, WritesOnly};
ghost use Rattle.disk_model.specs.Runs.{OnlyReads, SameDevice};
ghost use Rattle.retro_base.specs.Cause.{FaultsAlone};

use disk_model::{Disk, Failed};
use gate_log::fault_of;
use retro_base::{Device, PAGE_BYTES, Page, Refusal};

// Reads the block of that number. After a fault `out` is as before.
pub fn read_block<D: Disk>(
    disk: &mut D,
    device: Device,
    number: u32,
    out: &mut Page,
) -> Result<(), Refusal>
    requires { HasBlock (D.extent disk.old) number }
    ensures same { SameDevice D.extent D.is_honest disk.old disk.new }
    ensures cause { FaultsAlone device (D.faults disk.old) (D.faults disk.new) result }
    ensures read { D.is_honest disk.old → OnOk result (out.new ≡ block_at (D.state disk.old).seen number) }
    ensures err { OnErr result (out.new ≡ out.old) }
    ensures quiet { D.is_honest disk.old → OnlyReads D.remembers D.state D.clock disk.old disk.new }
{
    let mut bytes = [0; PAGE_BYTES];
    match disk.read_at(place_of(number), &mut bytes) {
        Ok(()) => {
            *out = Page::of(bytes);
            Ok(())
        }
        Err(Failed) => Err(fault_of(disk, device)),
    }
}

// Writes the block of that number. Until the next settle a crash may leave any bytes in it, and after a fault
// so may a read.
pub fn write_block<D: Disk>(
    disk: &mut D,
    device: Device,
    number: u32,
    bytes: &Page,
) -> Result<(), Refusal>
    requires { HasBlock (D.extent disk.old) number }
    ensures same { SameDevice D.extent D.is_honest disk.old disk.new }
    ensures cause { FaultsAlone device (D.faults disk.old) (D.faults disk.new) result }
    ensures written { D.is_honest disk.old → OnOk result (block_at (D.state disk.new).seen number ≡ bytes.now) }
    ensures alone { D.is_honest disk.old
        → WritesOnly (λ other. other ≡ number) D.remembers D.state D.clock disk.old disk.new }
{
    match disk.write_at(place_of(number), bytes.bytes()) {
        Ok(()) => Ok(()),
        Err(Failed) => Err(fault_of(disk, device)),
    }
}

// Where the block of that number stands.
fn place_of(number: u32) -> u64
    ensures { result ≡ PAGE_BYTES * number }
{
    PAGE_BYTES as u64 * u64::from(number)
}
