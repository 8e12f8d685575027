//! The lists of the log and of the Maplog, and the pages, from their devices.

ghost use Rattle.std.specs.Prelude.{◌≡◌, ◌≤◌, ◌+◌, ◌*◌, ℕ, length, IfOk, OnOk, MatchResult};
ghost use Rattle.disk_model.specs.Runs.{OnlyReads, SameDevice, WritesNothing};
ghost use Rattle.disk_model.specs.Sizes.{log_bytes, maplog_bytes, maplog_half};
ghost use Rattle.retro_base.specs.Cause.{FaultsAlone};
ghost use Rattle.retro_base.specs.declared.device.Device.TheVariants as kinds;
ghost use Rattle.retro_base.specs.declared.limits.TheConstants.{LOG_REGION_BYTES, MAX_CAPACITY, PAGE_BYTES};
ghost use Rattle.gate_log.specs.Cause.{IsReadRefusal};
ghost use Rattle.area_log.specs.Listed.{DeviceStandsFor, IsRefused};
ghost use Rattle.history.specs.Replayed.{page_in};
ghost use Rattle.history.specs.Right.{AreRight, IsBase};
ghost use Rattle.records.specs.Log.{IsLog};
ghost use Rattle.records.specs.Maplog.{IsMaplog};
ghost use Rattle.opening.specs.Devices.{StandsWithGate};
ghost use Rattle.opening.specs.Opening.{page_at};

use area_log::listed;
use disk_model::{Disk, Failed, Sizes};
use gate_log::fault_of;
use history::{Log, Version};
use records::{read_log, read_maplog};
use retro_base::{Device, LOG_REGION_BYTES, PAGE_BYTES, Page, Refusal};
use skippy::Mappings;
use std::alloc::Global;

/// What the log lists, in records of that version. Its device is read, and synced before that.
pub fn log_of<D: Disk>(alloc: Global, version: Version, disk: &mut D) -> Result<Log, Refusal>
    ensures same { SameDevice D.extent D.is_honest disk.old disk.new }
    ensures cause { MatchResult result
        (λ _. D.faults disk.new ≡ D.faults disk.old)
        (IsReadRefusal (IsRefused LOG_REGION_BYTES (IsLog version) (D.is_honest disk.old) (D.extent disk.old)
        (D.state disk.old).seen) kinds.Log (D.faults disk.old) (D.faults disk.new)) }
    ensures size { OnOk result (D.extent disk.old ≡ log_bytes) }
    ensures right { IfOk result (λ log. IsBase log.base × AreRight log.base log.changes) }
    ensures stands { D.is_honest disk.old
        → IfOk result (DeviceStandsFor LOG_REGION_BYTES (IsLog version) (D.state disk.old).seen) }
    ensures quiet { D.is_honest disk.old → WritesNothing D.remembers D.state D.clock disk.old disk.new }
{
    let (area, bodies) = listed(alloc, disk, Device::Log, LOG_REGION_BYTES)?;
    match read_log(alloc, version, &bodies) {
        Ok(log) => Ok(log),
        Err(error) => Err(area.refusal_of(&bodies, error)),
    }
}

/// The mappings, in records of that version, and where the closed gate behind their list stands. Their device is read,
/// and synced before that.
pub fn mappings_of<D: Disk>(
    alloc: Global,
    version: Version,
    disk: &mut D,
    sizes: Sizes,
) -> Result<(Mappings, u64), Refusal>
    requires { sizes.capacity ≤ MAX_CAPACITY }
    ensures same { SameDevice D.extent D.is_honest disk.old disk.new }
    ensures cause { MatchResult result
        (λ _. D.faults disk.new ≡ D.faults disk.old)
        (IsReadRefusal (IsRefused (maplog_half sizes.capacity) (IsMaplog version sizes.pages sizes.capacity)
        (D.is_honest disk.old) (D.extent disk.old) (D.state disk.old).seen)
        kinds.Maplog (D.faults disk.old) (D.faults disk.new)) }
    ensures size { OnOk result (D.extent disk.old ≡ maplog_bytes sizes.capacity) }
    ensures stands { D.is_honest disk.old → IfOk result (λ p. StandsWithGate (maplog_half sizes.capacity)
        (IsMaplog version sizes.pages sizes.capacity) (D.state disk.old).seen p.0 p.1) }
    ensures quiet { D.is_honest disk.old → WritesNothing D.remembers D.state D.clock disk.old disk.new }
{
    let (area, bodies) = listed(alloc, disk, Device::Maplog, sizes.maplog_half())?;
    match read_maplog(alloc, version, sizes.pages, sizes.capacity, &bodies) {
        Ok(mappings) => Ok((mappings, area.end())),
        Err(error) => Err(area.refusal_of(&bodies, error)),
    }
}

// The page of that number of a device of pages.
fn read_page<D: Disk>(disk: &mut D, device: Device, number: u32) -> Result<Page, Refusal>
    requires { PAGE_BYTES * number + PAGE_BYTES ≤ D.extent disk.old }
    ensures same { SameDevice D.extent D.is_honest disk.old disk.new }
    ensures cause { FaultsAlone device (D.faults disk.old) (D.faults disk.new) result }
    ensures read { D.is_honest disk.old → IfOk result (λ page. page ≡ page_at (D.state disk.old).seen number) }
    ensures quiet { D.is_honest disk.old → OnlyReads D.remembers D.state D.clock disk.old disk.new }
{
    let mut bytes = [0; PAGE_BYTES];
    match disk.read_at(PAGE_BYTES as u64 * u64::from(number), &mut bytes) {
        Ok(()) => Ok(Page::of(bytes)),
        Err(Failed) => Err(fault_of(disk, device)),
    }
}

/// So many pages of a device of pages, which is read.
pub fn pages_of<D: Disk>(
    alloc: Global,
    disk: &mut D,
    device: Device,
    count: u32,
) -> Result<Vec<Page>, Refusal>
    requires { D.extent disk.old ≡ PAGE_BYTES * count }
    ensures same { SameDevice D.extent D.is_honest disk.old disk.new }
    ensures cause { MatchResult result
        (λ _. D.faults disk.new ≡ D.faults disk.old)
        (IsReadRefusal (λ _. ⊥) device (D.faults disk.old) (D.faults disk.new)) }
    ensures count { IfOk result (λ pages. length pages.items ≡ count) }
    ensures read { D.is_honest disk.old → IfOk result (λ pages. (number : ℕ)
        → page_in pages.items number ≡ page_at (D.state disk.old).seen number) }
    ensures quiet { D.is_honest disk.old → OnlyReads D.remembers D.state D.clock disk.old disk.new }
{
    let mut pages = Vec::with_capacity(alloc, count as usize)?;
    'pages: for number in 0..count {
        match read_page(disk, device, number) {
            Ok(page) => pages.push_reserved(page),
            Err(refusal) => return Err(refusal),
        }
    }
    Ok(pages)
}
