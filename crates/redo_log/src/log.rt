//! The list of a base and its changes on the device of the log.

ghost use Rattle.std.specs.Prelude.{◌≡◌, ◌+◌, ◌-◌, ◌*◌, ◌∷◌, [], None, length};
ghost use Rattle.std.specs.Prelude.{replicate, OnOk, IfOk, IfErr, MatchResult};
ghost use Rattle.disk_model.specs.Runs.{SameDevice, WritesNothing};
ghost use Rattle.retro_base.specs.declared.device.Device.TheVariants as kinds;
ghost use Rattle.retro_base.specs.declared.limits.TheConstants.{LOG_REGION_BYTES};
ghost use Rattle.retro_base.specs.declared.refusal.Refusal.TheVariants.{OutOfMemory};
ghost use Rattle.gate_log.specs.Cause.{Fit, HasRoom, IsAppendRefusal, IsDiskFault, IsFillRefusal, IsReadRefusal};
ghost use Rattle.area_log.specs.Area.{AfterWrite, appended, replaced};
ghost use Rattle.area_log.specs.Cause.{IsWriteRefusal};
ghost use Rattle.area_log.specs.Listed.{IsRefused};
ghost use Rattle.history.specs.declared.entry.Base.{Base};
ghost use Rattle.history.specs.declared.entry.Change.{Change};
ghost use Rattle.history.specs.declared.log.Log.{Log};
ghost use Rattle.history.specs.Right.{IsBase};
ghost use Rattle.records.specs.declared.entry.Entry.TheVariants as entries;
ghost use Rattle.records.specs.Entries.{BaseFits, entry_bytes, EntryFits};
ghost use Rattle.records.specs.Laws.{IsRightBase};
ghost use Rattle.records.specs.Log.{IsChangeBody, IsLog};
ghost use Rattle.redo_log.specs.Cause.{IsMemoryOrFault};
ghost use Rattle.redo_log.specs.Made.{MakesLog};
ghost use Rattle.redo_log.specs.Redo.{base_alone, base_at_end, FetchedLog, IsReadLog, Keeps, one_more, WritesLog};

use area_log::{AreaLog, listed};
use disk_model::Disk;
use gate_log::Framed;
use history::{Base, Log, Version};
use records::{Entry, encode, encode_base, read_log};
use retro_base::{Device, LOG_REGION_BYTES, Refusal};
use std::alloc::Global;
use std::marker::Model;

/// The log of a base and of the changes behind it, in records of a version. After a fault of a write it refuses
/// every further write, and tells that fault.
#[derive(Drop)]
pub struct RedoLog {
    log: AreaLog,
    version: Version,
}

impl Model for RedoLog {
    ghost use Rattle.redo_log.specs.Redo.{IsRedo, Redo};

    ghost Value = { Redo };

    ghost view = { λ redo. record { area = redo.log; version = redo.version } };

    ghost invariant = { λ redo. IsRedo (record { area = redo.log; version = redo.version }) };
}

impl RedoLog {
    /// Makes the log of a base alone on an all-zero device. It is refused for want of memory, and exactly where a
    /// call of the device failed.
    pub fn make<D: Disk>(
        alloc: Global,
        version: Version,
        disk: &mut D,
        base: &Base,
    ) -> Result<(), Refusal>
        requires whole { D.extent disk.old ≡ 2 * LOG_REGION_BYTES }
        requires right { IsBase base.now }
        requires fits { BaseFits version base.now }
        ensures same { SameDevice D.extent D.is_honest disk.old disk.new }
        ensures cause { MatchResult result
            (λ _. D.faults disk.new ≡ D.faults disk.old)
            (IsMemoryOrFault kinds.Log (D.faults disk.old) (D.faults disk.new)) }
        ensures untouched { IfErr result (λ refusal. (IsDiskFault refusal → ⊥) → disk.new ≡ disk.old) }
        ensures makes { D.is_honest disk.old → (D.state disk.old).seen ≡ replicate (D.extent disk.old) 0
            → MakesLog (base_alone version base.now) D.remembers D.state D.clock disk.old disk.new result }
    {
        let bodies = [base_body(alloc, version, base)?];
        AreaLog::make(alloc, disk, Device::Log, &bodies)
    }

    /// Syncs the log's device, and then reads its log and what it lists in records of that version. It is refused
    /// for want of memory, exactly where a call of the device failed, and where the device lists no log, with its
    /// size if that is another, else with the place of the first break.
    pub fn fetch<D: Disk>(
        alloc: Global,
        version: Version,
        disk: &mut D,
    ) -> Result<(RedoLog, Log), Refusal>
        ensures same { SameDevice D.extent D.is_honest disk.old disk.new }
        ensures cause { MatchResult result
            (λ _. D.faults disk.new ≡ D.faults disk.old)
            (IsReadRefusal (IsRefused LOG_REGION_BYTES (IsLog version) (D.is_honest disk.old)
            (D.extent disk.old) (D.state disk.old).seen) kinds.Log (D.faults disk.old) (D.faults disk.new)) }
        ensures size { OnOk result (D.extent disk.old ≡ 2 * LOG_REGION_BYTES) }
        ensures read { IfOk result (λ p. IsReadLog version p.0 p.1) }
        ensures fetched { D.is_honest disk.old
            → IfOk result (λ p. FetchedLog version p.0 p.1 (D.state disk.old) (D.state disk.new)) }
        ensures quiet { D.is_honest disk.old → WritesNothing D.remembers D.state D.clock disk.old disk.new }
    {
        let (area, bodies) = listed(alloc, disk, Device::Log, LOG_REGION_BYTES)?;
        match read_log(alloc, version, &bodies) {
            Ok(log) => Ok((RedoLog { log: area, version }, log)),
            Err(error) => Err(area.refusal_of(&bodies, error)),
        }
    }

    /// The entry as an append writes it. The only refusal is want of memory.
    pub fn body(&self, alloc: Global, entry: &Entry) -> Result<Framed, Refusal>
        requires fits { EntryFits self.now.version entry.now }
        requires right { IsRightBase entry.now }
        ensures bytes { IfOk result (λ framed. framed ≡ entry_bytes self.now.version entry.now) }
        ensures memory { IfErr result (λ refusal. refusal ≡ OutOfMemory) }
    {
        encode(alloc, self.version, entry)
    }

    /// The version of its records.
    pub fn version(&self) -> Version
        ensures { result ≡ self.now.version }
    {
        self.version
    }

    /// Where on the device the closed gate behind the list stands.
    pub fn end(&self) -> u64
        ensures { result ≡ self.now.area.log.place + self.now.area.log.gate }
    {
        self.log.end()
    }

    /// How many bytes of the half that counts are free, the closed gate's among them.
    pub fn free(&self) -> u64
        ensures { result ≡ LOG_REGION_BYTES - self.now.area.log.gate }
    {
        self.log.free()
    }

    /// The first fault of a write, after which every further write is refused.
    pub fn fault(&self) -> Option<u64>
        ensures { result ≡ self.now.area.fault }
    {
        self.log.fault()
    }

    /// Adds a change: four calls of the device, and no memory. A crash at any moment of it leaves the log with the
    /// change or without; after a success each crash leaves it with the change. It is refused, in this order, after a
    /// fault of an earlier write, with the first; where the record and the gate behind it do not fit; and exactly
    /// where a call of the device failed. The first two leave the device as it was.
    pub fn add<D: Disk>(&mut self, disk: &mut D, framed: &Framed) -> Result<(), Refusal>
        requires { D.extent disk.old ≡ 2 * LOG_REGION_BYTES }
        ensures same { SameDevice D.extent D.is_honest disk.old disk.new }
        ensures log { AfterWrite self.old.area (appended self.old.area framed.now) result self.new.area }
        ensures version { self.new.version ≡ self.old.version }
        ensures cause { MatchResult result
            (λ _. (self.old.area.fault ≡ None) × HasRoom self.old.area.log (length framed.now)
            × (D.faults disk.new ≡ D.faults disk.old))
            (IsWriteRefusal self.old.area
            (IsAppendRefusal self.old.area.log (length framed.now) (D.faults disk.old) (D.faults disk.new))
            (D.faults disk.old) (D.faults disk.new)) }
        ensures untouched { IfErr result (λ refusal. (IsDiskFault refusal → ⊥) → disk.new ≡ disk.old) }
        ensures writes { (log : Log) (change : Change) → D.is_honest disk.old → Keeps self.old log (D.state disk.old)
            → IsChangeBody self.old.version (base_at_end log) framed.now change
            → WritesLog self.new log (one_more log change) D.remembers D.state D.clock disk.old disk.new result }
    {
        self.log.append(disk, framed)
    }

    /// Puts a base, in records of that version, in the place of all that the log lists: four calls of the device, and
    /// two before them where the half that does not count is open. A crash at any moment of it leaves the old log or
    /// the base alone; after a success each crash leaves the base alone. It is refused, in this order, after a fault
    /// of an earlier write, with the first; for want of memory; and exactly where a call of the device failed. The
    /// first two leave the device as it was. There is always room.
    pub fn rewrite<D: Disk>(
        &mut self,
        alloc: Global,
        disk: &mut D,
        version: Version,
        base: &Base,
    ) -> Result<(), Refusal>
        requires whole { D.extent disk.old ≡ 2 * LOG_REGION_BYTES }
        requires right { IsBase base.now }
        requires fits { BaseFits version base.now }
        ensures same { SameDevice D.extent D.is_honest disk.old disk.new }
        ensures log { AfterWrite self.old.area
            (replaced self.old.area (entry_bytes version (entries.Base base.now) ∷ [])) result self.new.area }
        ensures version { MatchResult result
            (λ _. self.new.version ≡ version) (λ _. self.new.version ≡ self.old.version) }
        ensures cause { MatchResult result
            (λ _. (self.old.area.fault ≡ None) × (D.faults disk.new ≡ D.faults disk.old))
            (IsWriteRefusal self.old.area
            (IsMemoryOrFault kinds.Log (D.faults disk.old) (D.faults disk.new))
            (D.faults disk.old) (D.faults disk.new)) }
        ensures untouched { IfErr result (λ refusal. (IsDiskFault refusal → ⊥) → disk.new ≡ disk.old) }
        ensures writes { (log : Log) → D.is_honest disk.old → Keeps self.old log (D.state disk.old)
            → WritesLog self.new log (base_alone version base.now)
            D.remembers D.state D.clock disk.old disk.new result }
    {
        if let Some(count) = self.log.fault() {
            let device = Device::Log;
            return Err(Refusal::Stopped { device, count });
        }
        let body = base_body(alloc, version, base)?;
        self.replace(alloc, disk, version, &[body])
    }

    // Puts these bodies, in records of that version, in the place of all that are there.
    fn replace<D: Disk>(
        &mut self,
        alloc: Global,
        disk: &mut D,
        version: Version,
        bodies: &[Framed],
    ) -> Result<(), Refusal>
        requires { D.extent disk.old ≡ 2 * LOG_REGION_BYTES }
        ensures same { SameDevice D.extent D.is_honest disk.old disk.new }
        ensures log { AfterWrite self.old.area (replaced self.old.area bodies.now) result self.new.area }
        ensures version { MatchResult result
            (λ _. self.new.version ≡ version) (λ _. self.new.version ≡ self.old.version) }
        ensures cause { MatchResult result
            (λ _. (self.old.area.fault ≡ None) × Fit LOG_REGION_BYTES bodies.now
            × (D.faults disk.new ≡ D.faults disk.old))
            (IsWriteRefusal self.old.area
            (IsFillRefusal LOG_REGION_BYTES bodies.now kinds.Log (D.faults disk.old) (D.faults disk.new))
            (D.faults disk.old) (D.faults disk.new)) }
        ensures untouched { IfErr result (λ refusal. (IsDiskFault refusal → ⊥) → disk.new ≡ disk.old) }
        ensures writes { (log after : Log) → D.is_honest disk.old → Keeps self.old log (D.state disk.old)
            → IsLog version bodies.now after
            → WritesLog self.new log after D.remembers D.state D.clock disk.old disk.new result }
    {
        match self.log.replace(alloc, disk, bodies) {
            Ok(()) => {
                self.version = version;
                Ok(())
            }
            Err(refusal) => Err(refusal),
        }
    }
}

// The record of a base, framed.
fn base_body(alloc: Global, version: Version, base: &Base) -> Result<Framed, Refusal>
    requires right { IsBase base.now }
    requires fits { BaseFits version base.now }
    ensures bytes { IfOk result (λ framed. framed ≡ entry_bytes version (entries.Base base.now)) }
    ensures memory { IfErr result (λ refusal. refusal ≡ OutOfMemory) }
{
    encode_base(alloc, version, base)
}
