//! The mappings of an archive from its devices.

ghost use Rattle.std.specs.Prelude.{◌≡◌, ◌*◌, ◌≤◌, ◌^◌, length, OnOk, IfOk, MatchResult};
ghost use Rattle.disk_model.specs.Disk.{IsDurable};
ghost use Rattle.disk_model.specs.Sizes.{maplog_half, pagelog_bytes};
ghost use Rattle.retro_base.specs.declared.device.Device.TheVariants.{Maplog as OfMaplog};
ghost use Rattle.retro_base.specs.declared.limits.TheConstants.{MAX_CAPACITY};
ghost use Rattle.gate_log.specs.Cause.{IsReadRefusal};
ghost use Rattle.records.specs.Entries.{page_width};
ghost use Rattle.map_log.specs.Log.{AreSound, FetchedMappings, IsFetched};
ghost use Rattle.archive.specs.Fetching.{ComesBack, IsRefusedFetch, NotAnArchive};

use disk_model::{Disk, Sizes};
use gate_log::settle;
use history::Version;
use map_log::MapLog;
use retro_base::{Device, Refusal};
use skippy::Levels;
use std::alloc::Global;

// Settles the Maplog's device, and reads its mappings with their levels.
fn read_mappings<D: Disk>(
    alloc: Global,
    maplog: &mut D,
    version: Version,
    sizes: Sizes,
) -> Result<(MapLog, Levels), Refusal>
    requires fits { sizes.pages ≤ 256 ^ page_width version }
    requires most { sizes.capacity ≤ MAX_CAPACITY }
    ensures back { ComesBack D.extent D.is_honest D.remembers D.state D.clock maplog.old maplog.new }
    ensures cause { MatchResult result
        (λ _. D.faults maplog.new ≡ D.faults maplog.old)
        (IsReadRefusal (NotAnArchive version sizes.pages sizes.capacity (D.extent maplog.old)
        (D.is_honest maplog.old) (D.state maplog.old).seen)
        OfMaplog (D.faults maplog.old) (D.faults maplog.new)) }
    ensures size { OnOk result (D.extent maplog.old ≡ 2 * maplog_half sizes.capacity) }
    ensures log { IfOk result (λ p. IsFetched version sizes.pages sizes.capacity p.0) }
    ensures sound { IfOk result (λ p. AreSound sizes.pages p.1) }
    ensures few { IfOk result (λ p. length p.1.pages ≤ sizes.capacity) }
    ensures fetched { D.is_honest maplog.old
        → IfOk result (λ p. FetchedMappings p.0 p.1 (D.state maplog.old) (D.state maplog.new)) }
{
    let (log, mappings) = MapLog::fetch(alloc, maplog, version, sizes)?;
    let pages = mappings.pages();
    if pages.len() as u64 > u64::from(sizes.capacity) {
        return Err(Refusal::NotAStore {
            device: Device::Maplog,
            place: log.end(),
        });
    }
    let mut levels = Levels::new(alloc, mappings.low());
    levels.push(pages)?;
    Ok((log, levels))
}

/// Settles both devices, and reads the mappings with their levels.
pub fn read_devices<D: Disk>(
    alloc: Global,
    pagelog: &mut D,
    maplog: &mut D,
    version: Version,
    sizes: Sizes,
) -> Result<(MapLog, Levels), Refusal>
    requires fits { sizes.pages ≤ 256 ^ page_width version }
    requires most { sizes.capacity ≤ MAX_CAPACITY }
    ensures pagelog { ComesBack D.extent D.is_honest D.remembers D.state D.clock pagelog.old pagelog.new }
    ensures maplog { ComesBack D.extent D.is_honest D.remembers D.state D.clock maplog.old maplog.new }
    ensures cause { MatchResult result
        (λ _. (D.faults pagelog.new ≡ D.faults pagelog.old) × (D.faults maplog.new ≡ D.faults maplog.old))
        (IsRefusedFetch D.extent D.is_honest D.state D.faults version sizes.pages sizes.capacity
        pagelog.old maplog.old pagelog.new maplog.new) }
    ensures slots { OnOk result (D.extent pagelog.old ≡ pagelog_bytes sizes.capacity) }
    ensures settled { D.is_honest pagelog.old → OnOk result (IsDurable (D.state pagelog.new)) }
    ensures size { OnOk result (D.extent maplog.old ≡ 2 * maplog_half sizes.capacity) }
    ensures log { IfOk result (λ p. IsFetched version sizes.pages sizes.capacity p.0) }
    ensures sound { IfOk result (λ p. AreSound sizes.pages p.1) }
    ensures few { IfOk result (λ p. length p.1.pages ≤ sizes.capacity) }
    ensures fetched { D.is_honest maplog.old
        → IfOk result (λ p. FetchedMappings p.0 p.1 (D.state maplog.old) (D.state maplog.new)) }
{
    let place = pagelog.size();
    if place != sizes.pagelog_bytes() {
        return Err(Refusal::NotAStore {
            device: Device::Pagelog,
            place,
        });
    }
    settle(pagelog, Device::Pagelog)?;
    read_mappings(alloc, maplog, version, sizes)
}
