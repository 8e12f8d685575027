//! The list of mappings and low marks on the device of the Maplog.

ghost use Rattle.std.specs.Prelude.{◌≡◌, ◌≤◌, ◌<◌, ◌+◌, ◌*◌, ◌^◌, ◌↔◌, ℕ, None, IsTrue};
ghost use Rattle.std.specs.Prelude.{length, Ok, OnOk, IfOk, IfErr, MatchResult};
ghost use Rattle.std.specs.List.{AllByRecursion};
ghost use Rattle.disk_model.specs.Runs.{SameDevice, WritesNothing};
ghost use Rattle.disk_model.specs.Sizes.{maplog_half};
ghost use Rattle.retro_base.specs.declared.device.Device.TheVariants.{Maplog};
ghost use Rattle.retro_base.specs.declared.limits.TheConstants.{BATCH, MAX_CAPACITY, MAX_CAPTURES};
ghost use Rattle.retro_base.specs.declared.refusal.Refusal.TheVariants.{OutOfMemory};
ghost use Rattle.gate_log.specs.Cause.{HasRoom, IsAppendRefusal, IsDiskFault, IsReadRefusal};
ghost use Rattle.area_log.specs.Area.{appended, replaced};
ghost use Rattle.area_log.specs.Cause.{IsWriteRefusal};
ghost use Rattle.records.specs.Entries.{page_width};
ghost use Rattle.records.specs.Maplog.{IsMappingBody, map_entry_bytes, mappings_after};
ghost use Rattle.records.specs.declared.map_entry.MapEntry.{MapEntry};
ghost use Rattle.records.specs.declared.map_entry.MapEntry.TheVariants.{Run, Low};
ghost use Rattle.records.specs.declared.map_entry.TheConstants.{RUN_PAGES};
ghost use Rattle.skippy.specs.Mappings as ghosts;
ghost use Rattle.map_log.specs.Bodies.{low_length, maplog_bodies, run_length};
ghost use Rattle.map_log.specs.Cause.{IsCallRefusal, IsRewriteRefusal, NotMaplog};
ghost use Rattle.map_log.specs.Log.{AfterCall, AreSound, FetchedMappings, HasRoomFor, IsBlank, IsFetched, Keeps};
ghost use Rattle.map_log.specs.Log.{MakesNone, Puts};

use crate::encoding::maplog_bodies;
use area_log::{AreaLog, listed};
use disk_model::{Disk, Sizes};
use gate_log::Framed;
use history::Version;
use records::{low_body, read_maplog, run_body, start_body};
use retro_base::{Device, Refusal};
use skippy::Mappings;
use std::alloc::Global;
use std::marker::Model;

// The bytes of a low mark's body, and of a run's before its pages.
const LOW_BYTES: usize = 9;

const RUN_HEAD_BYTES: usize = 13;

/// A log of mappings and low marks on the Maplog's device. Contracts see what it knows of the device's halves, the
/// version of its records, and the sizes of its store.
#[derive(Drop)]
pub struct MapLog {
    log: AreaLog,
    version: Version,
    page_count: u32,
    capacity: u32,
}

impl Model for MapLog {
    ghost use Rattle.map_log.specs.Log.{IsMapArea, MapArea};

    ghost Value = { MapArea };

    ghost view = { λ l. record {
      area = l.log;
      version = l.version;
      page_count = l.page_count;
      capacity = l.capacity;
    } };

    ghost invariant = { λ l. IsMapArea (record {
      area = l.log;
      version = l.version;
      page_count = l.page_count;
      capacity = l.capacity;
    }) };
}

impl MapLog {
    /// Makes the list of an all-zero device, in records of that version: no mapping is kept, and the first will have
    /// the number 0. It is refused for want of memory, and exactly where a call of the device failed.
    pub fn make<D: Disk>(
        alloc: Global,
        disk: &mut D,
        version: Version,
        capacity: u32,
    ) -> Result<(), Refusal>
        requires most { capacity ≤ MAX_CAPACITY }
        requires whole { D.extent disk.old ≡ 2 * maplog_half capacity }
        ensures same { SameDevice D.extent D.is_honest disk.old disk.new }
        ensures cause { MatchResult result
            (λ _. D.faults disk.new ≡ D.faults disk.old)
            (IsCallRefusal (D.faults disk.old) (D.faults disk.new)) }
        ensures untouched { IfErr result (λ refusal. (IsDiskFault refusal → ⊥) → disk.new ≡ disk.old) }
        ensures makes { D.is_honest disk.old → IsBlank (D.extent disk.old) (D.state disk.old) → (page_count : ℕ)
            → MakesNone version page_count capacity D.remembers D.state D.clock disk.old disk.new result }
    {
        let mut bodies = Vec::new(alloc);
        bodies.push(start_body(alloc, version, capacity, 0)?)?;
        AreaLog::make(alloc, disk, Device::Maplog, &bodies)
    }

    /// Syncs a device, and then reads the mappings of its list, beside a log of these sizes and in records of that
    /// version. It is refused for want of memory, exactly where a call of the device failed, and where the device is
    /// no Maplog: with its size, else with the place 0 where neither half counts, else with the place of the record
    /// that breaks: the first by its frame, else the first by its body.
    pub fn fetch<D: Disk>(
        alloc: Global,
        disk: &mut D,
        version: Version,
        sizes: Sizes,
    ) -> Result<(MapLog, Mappings), Refusal>
        requires fits { sizes.pages ≤ 256 ^ page_width version }
        requires most { sizes.capacity ≤ MAX_CAPACITY }
        ensures same { SameDevice D.extent D.is_honest disk.old disk.new }
        ensures cause { MatchResult result
            (λ _. D.faults disk.new ≡ D.faults disk.old)
            (IsReadRefusal (NotMaplog version sizes.pages sizes.capacity (D.extent disk.old)
            (D.is_honest disk.old) (D.state disk.old).seen)
            Maplog (D.faults disk.old) (D.faults disk.new)) }
        ensures size { OnOk result (D.extent disk.old ≡ 2 * maplog_half sizes.capacity) }
        ensures log { IfOk result (λ p. IsFetched version sizes.pages sizes.capacity p.0) }
        ensures sound { IfOk result (λ p. AreSound sizes.pages p.1) }
        ensures fetched { D.is_honest disk.old
            → IfOk result (λ p. FetchedMappings p.0 p.1 (D.state disk.old) (D.state disk.new)) }
        ensures quiet { D.is_honest disk.old → WritesNothing D.remembers D.state D.clock disk.old disk.new }
    {
        let (log, bodies) = listed(alloc, disk, Device::Maplog, sizes.maplog_half())?;
        match read_maplog(alloc, version, sizes.pages, sizes.capacity, &bodies) {
            Ok(mappings) => {
                let log = MapLog {
                    log,
                    version,
                    page_count: sizes.pages,
                    capacity: sizes.capacity,
                };
                Ok((log, mappings))
            }
            Err(error) => Err(log.refusal_of(&bodies, error)),
        }
    }

    /// Where on the device the closed gate behind the list stands.
    pub fn end(&self) -> u64
        ensures { result ≡ self.now.area.log.place + self.now.area.log.gate }
    {
        self.log.end()
    }

    /// Whether a low mark and a run of that many pages fit behind the list.
    pub fn has_room_for(&self, count: usize) -> bool
        requires { count ≤ BATCH }
        ensures { IsTrue result ↔ HasRoomFor self.now count }
    {
        let width = match self.version {
            Version::One => 2,
            Version::Two => 4,
        };
        let bodies = LOW_BYTES + RUN_HEAD_BYTES + width * count;
        // Before each body stand a gate and its length, and behind the last another gate.
        bodies as u64 + 5 + 5 + 1 <= self.log.free()
    }

    /// The body of a run of these pages' mappings, numbered from `first` on. The only refusal is want of memory.
    pub fn run_body(&self, alloc: Global, first: u64, pages: &[u32]) -> Result<Framed, Refusal>
        requires pages { AllByRecursion (λ page. page < self.now.page_count) pages.now }
        requires few { length pages.now ≤ RUN_PAGES }
        ensures body { IfOk result (λ framed. framed ≡ map_entry_bytes self.now.version (Run first pages.now)) }
        ensures count { IfOk result (λ framed. length framed ≡ run_length self.now.version (length pages.now)) }
        ensures memory { IfErr result (λ why. why ≡ OutOfMemory) }
    {
        run_body(alloc, self.version, first, pages)
    }

    /// The body of a low mark: the mappings below that number are forgotten. The only refusal is want of memory.
    pub fn low_body(&self, alloc: Global, low: u64) -> Result<Framed, Refusal>
        ensures body { IfOk result (λ framed. framed ≡ map_entry_bytes self.now.version (Low low)) }
        ensures count { IfOk result (λ framed. length framed ≡ low_length) }
        ensures memory { IfErr result (λ why. why ≡ OutOfMemory) }
    {
        low_body(alloc, low)
    }

    /// Adds a record: four calls of the device, and no memory. A crash at any moment of it leaves the mappings with
    /// what a record that is right there says, or without. It is refused, in this order, after a fault of an earlier
    /// write, with the first; where the record and the gate behind it do not fit; and exactly where a call of the
    /// device failed. The first two leave the device as it was.
    pub fn add<D: Disk>(&mut self, disk: &mut D, framed: &Framed) -> Result<(), Refusal>
        requires { D.extent disk.old ≡ 2 * self.old.area.log.size }
        ensures same { SameDevice D.extent D.is_honest disk.old disk.new }
        ensures log { AfterCall self.old (appended self.old.area framed.now) result self.new }
        ensures cause { MatchResult result
            (λ _. (self.old.area.fault ≡ None) × HasRoom self.old.area.log (length framed.now)
            × (D.faults disk.new ≡ D.faults disk.old))
            (IsWriteRefusal self.old.area
            (IsAppendRefusal self.old.area.log (length framed.now) (D.faults disk.old) (D.faults disk.new))
            (D.faults disk.old) (D.faults disk.new)) }
        ensures untouched { IfErr result (λ refusal. (IsDiskFault refusal → ⊥) → disk.new ≡ disk.old) }
        ensures puts { D.is_honest disk.old → (mappings : ghosts.Mappings) (entry : MapEntry)
            → Keeps self.old mappings (D.state disk.old)
            → IsMappingBody self.old.version self.old.page_count mappings framed.now entry
            → Puts self.old self.new mappings (mappings_after mappings entry)
            D.remembers D.state D.clock disk.old disk.new result }
    {
        self.log.append(disk, framed)
    }

    /// Writes a start and these pages' mappings from `low` on in the place of all that the log lists: four calls of
    /// the device, and two before them where the half that does not count is open. A crash at any moment of it leaves
    /// the old mappings or these. Behind it there is room for a low mark and a full batch. It is refused, in this
    /// order, after a fault of an earlier write, with the first; for want of memory; and exactly where a call of the
    /// device failed. The first two leave the device as it was.
    pub fn rewrite<D: Disk>(
        &mut self,
        alloc: Global,
        disk: &mut D,
        low: u64,
        pages: &[u32],
    ) -> Result<(), Refusal>
        requires whole { D.extent disk.old ≡ 2 * self.old.area.log.size }
        requires few { length pages.now ≤ self.old.capacity }
        requires end { low + length pages.now ≤ MAX_CAPTURES }
        requires pages { AllByRecursion (λ page. page < self.old.page_count) pages.now }
        ensures same { SameDevice D.extent D.is_honest disk.old disk.new }
        ensures log { AfterCall self.old (replaced self.old.area
            (maplog_bodies self.old.version self.old.capacity low pages.now)) result self.new }
        ensures cause { MatchResult result
            (λ _. (self.old.area.fault ≡ None) × (D.faults disk.new ≡ D.faults disk.old))
            (IsRewriteRefusal self.old.area (D.faults disk.old) (D.faults disk.new)) }
        ensures room { OnOk result (HasRoomFor self.new BATCH) }
        ensures untouched { IfErr result (λ refusal. (IsDiskFault refusal → ⊥) → disk.new ≡ disk.old) }
        ensures puts { D.is_honest disk.old → (mappings : ghosts.Mappings)
            → Keeps self.old mappings (D.state disk.old)
            → Puts self.old self.new mappings (record { low = low; pages = pages.now })
            D.remembers D.state D.clock disk.old disk.new result }
    {
        if let Some(count) = self.log.fault() {
            let device = Device::Maplog;
            return Err(Refusal::Stopped { device, count });
        }
        let bodies = maplog_bodies(alloc, self.version, self.capacity, low, pages)?;
        self.log.replace(alloc, disk, &bodies)
    }
}
