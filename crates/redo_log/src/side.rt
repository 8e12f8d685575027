//! The log's device with its log, in one value.

ghost use Rattle.std.specs.Prelude.{◌≡◌, ◌+◌, ◌-◌, ◌*◌, ◌∷◌, [], false, true, None, Some};
ghost use Rattle.std.specs.Prelude.{Option, length, OnOk, IfOk, IfErr, MatchResult};
ghost use Rattle.disk_model.specs.Moments.{LeavesOnly};
ghost use Rattle.disk_model.specs.Runs.{SameDevice, WritesNothing};
ghost use Rattle.retro_base.specs.declared.device.Device.TheVariants as kinds;
ghost use Rattle.retro_base.specs.declared.limits.TheConstants.{LOG_REGION_BYTES};
ghost use Rattle.retro_base.specs.declared.refusal.Refusal.TheVariants.{OutOfMemory};
ghost use Rattle.gate_log.specs.Cause.{HasRoom, IsAppendRefusal, IsDiskFault, IsReadRefusal};
ghost use Rattle.area_log.specs.Area.{AfterWrite, appended, replaced};
ghost use Rattle.area_log.specs.Cause.{IsWriteRefusal};
ghost use Rattle.area_log.specs.Listed.{DeviceStandsFor, IsRefused};
ghost use Rattle.history.specs.declared.entry.Base.{Base};
ghost use Rattle.history.specs.declared.entry.Change.{Change};
ghost use Rattle.history.specs.declared.log.Log.{Log};
ghost use Rattle.history.specs.Right.{IsBase};
ghost use Rattle.records.specs.declared.entry.Entry.TheVariants as entries;
ghost use Rattle.records.specs.Entries.{BaseFits, entry_bytes, EntryFits};
ghost use Rattle.records.specs.Laws.{IsRightBase};
ghost use Rattle.records.specs.Log.{IsChangeBody, IsLog};
ghost use Rattle.redo_log.specs.Cause.{IsMemoryOrFault};
ghost use Rattle.redo_log.specs.Redo.{base_alone, base_at_end, IsReadLog, ListsOneOf, one_more};
ghost use Rattle.redo_log.specs.Side.{IsLogSide};

use crate::log::RedoLog;
use disk_model::Disk;
use gate_log::Framed;
use history::{Base, Log, Version};
use records::Entry;
use retro_base::Refusal;
use std::alloc::Global;
use std::marker::Model;

/// The log's device, and the log on it.
#[derive(Drop)]
pub struct LogSide<D: Disk> {
    disk: D,
    log: RedoLog,
}

impl<D: Disk> Model for LogSide<D> {
    ghost use Rattle.std.specs.Prelude.{◌≡◌, ◌*◌};
    ghost use Rattle.retro_base.specs.declared.limits.TheConstants.{LOG_REGION_BYTES};
    ghost use Rattle.redo_log.specs.Redo.{IsRedo};
    ghost use Rattle.redo_log.specs.Side.{LogSide};

    ghost Value = { LogSide D };

    ghost view = { λ side. record { disk = side.disk; log = side.log } };

    ghost invariant = { λ side. (D.extent side.disk ≡ 2 * LOG_REGION_BYTES) × IsRedo side.log };
}

impl<D: Disk> LogSide<D> {
    /// A fault of its device is told as one of the log's.
    pub fn names_log(&self)
        ensures { self.now.log.area.log.device ≡ kinds.Log }
    {
        let _ = &self.disk;
    }

    /// Reads the log of a device, as `RedoLog::fetch` does. The device comes back where it is refused.
    pub fn fetch(
        alloc: Global,
        version: Version,
        disk: D,
    ) -> Result<(LogSide<D>, Log), (D, Refusal)>
        ensures same { MatchResult result
            (λ p. SameDevice D.extent D.is_honest disk p.0.disk)
            (λ e. SameDevice D.extent D.is_honest disk e.0) }
        ensures cause { MatchResult result
            (λ p. D.faults p.0.disk ≡ D.faults disk)
            (λ e. IsReadRefusal (IsRefused LOG_REGION_BYTES (IsLog version) (D.is_honest disk)
            (D.extent disk) (D.state disk).seen) kinds.Log (D.faults disk) (D.faults e.0) e.1) }
        ensures read { IfOk result (λ p. IsReadLog version p.0.log p.1) }
        ensures lists { D.is_honest disk → IfOk result (λ p.
            DeviceStandsFor LOG_REGION_BYTES (IsLog version) (D.state disk).seen p.1) }
        ensures side { IfOk result (λ p. (other : Option Log) → IsLogSide D.is_honest D.state p.0 p.1 other false) }
        ensures quiet { D.is_honest disk → MatchResult result
            (λ p. WritesNothing D.remembers D.state D.clock disk p.0.disk)
            (λ e. WritesNothing D.remembers D.state D.clock disk e.0) }
    {
        let mut disk = disk;
        match RedoLog::fetch(alloc, version, &mut disk) {
            Ok((log, list)) => Ok((LogSide { disk, log }, list)),
            Err(refusal) => Err((disk, refusal)),
        }
    }

    /// The device.
    pub fn into_disk(self) -> D
        ensures disk { result ≡ self.disk }
        ensures whole { D.extent result ≡ 2 * LOG_REGION_BYTES }
    {
        let LogSide { disk, log: _ } = self;
        disk
    }

    /// The version of the log's records.
    pub fn version(&self) -> Version
        ensures { result ≡ self.now.log.version }
    {
        self.log.version()
    }

    /// How many calls of the device have failed.
    pub fn faults(&self) -> u64
        ensures { result ≡ D.faults self.now.disk }
    {
        self.disk.faults()
    }

    /// The first fault of a write, after which every further write is refused.
    pub fn fault(&self) -> Option<u64>
        ensures { result ≡ self.now.log.area.fault }
    {
        self.log.fault()
    }

    /// How many bytes of the half that counts are free, the closed gate's among them.
    pub fn free(&self) -> u64
        ensures { result ≡ LOG_REGION_BYTES - self.now.log.area.log.gate }
    {
        self.log.free()
    }

    /// The entry as `change` writes it. The only refusal is want of memory.
    pub fn body(&self, alloc: Global, entry: &Entry) -> Result<Framed, Refusal>
        requires fits { EntryFits self.now.log.version entry.now }
        requires right { IsRightBase entry.now }
        ensures bytes { IfOk result (λ framed. framed ≡ entry_bytes self.now.log.version entry.now) }
        ensures memory { IfErr result (λ refusal. refusal ≡ OutOfMemory) }
    {
        self.log.body(alloc, entry)
    }

    /// Adds a change, as `RedoLog::add` does.
    pub fn change(&mut self, framed: &Framed) -> Result<(), Refusal>
        ensures same { SameDevice D.extent D.is_honest self.old.disk self.new.disk }
        ensures log { AfterWrite self.old.log.area (appended self.old.log.area framed.now) result self.new.log.area }
        ensures version { self.new.log.version ≡ self.old.log.version }
        ensures cause { MatchResult result
            (λ _. (self.old.log.area.fault ≡ None) × HasRoom self.old.log.area.log (length framed.now)
            × (D.faults self.new.disk ≡ D.faults self.old.disk))
            (IsWriteRefusal self.old.log.area
            (IsAppendRefusal self.old.log.area.log (length framed.now)
            (D.faults self.old.disk) (D.faults self.new.disk))
            (D.faults self.old.disk) (D.faults self.new.disk)) }
        ensures untouched { IfErr result (λ refusal. (IsDiskFault refusal → ⊥) → self.new ≡ self.old) }
        ensures done { (sure : Log) (before after : Option Log) (change : Change)
            → IsLogSide D.is_honest D.state self.old sure before false
            → IsChangeBody self.old.log.version (base_at_end sure) framed.now change
            → OnOk result (IsLogSide D.is_honest D.state self.new (one_more sure change) after false) }
        ensures failed { (sure : Log) (before : Option Log) (change : Change)
            → IsLogSide D.is_honest D.state self.old sure before false
            → IsChangeBody self.old.log.version (base_at_end sure) framed.now change
            → IfErr result (λ refusal. IsDiskFault refusal
            → IsLogSide D.is_honest D.state self.new sure (Some (one_more sure change)) true) }
        ensures any_moment { (sure : Log) (before : Option Log) (change : Change) → D.is_honest self.old.disk
            → IsLogSide D.is_honest D.state self.old sure before false
            → IsChangeBody self.old.log.version (base_at_end sure) framed.now change
            → LeavesOnly D.remembers (D.clock self.old.disk) (D.clock self.new.disk)
            (ListsOneOf sure (Some (one_more sure change))) }
    {
        self.log.add(&mut self.disk, framed)
    }

    /// Puts a base, in records of that version, in the place of all that the log lists, as `RedoLog::rewrite` does.
    pub fn cut(&mut self, alloc: Global, version: Version, base: &Base) -> Result<(), Refusal>
        requires right { IsBase base.now }
        requires fits { BaseFits version base.now }
        ensures same { SameDevice D.extent D.is_honest self.old.disk self.new.disk }
        ensures log { AfterWrite self.old.log.area
            (replaced self.old.log.area (entry_bytes version (entries.Base base.now) ∷ [])) result self.new.log.area }
        ensures version { MatchResult result (λ _. self.new.log.version ≡ version)
            (λ _. self.new.log.version ≡ self.old.log.version) }
        ensures cause { MatchResult result
            (λ _. (self.old.log.area.fault ≡ None) × (D.faults self.new.disk ≡ D.faults self.old.disk))
            (IsWriteRefusal self.old.log.area
            (IsMemoryOrFault kinds.Log (D.faults self.old.disk) (D.faults self.new.disk))
            (D.faults self.old.disk) (D.faults self.new.disk)) }
        ensures untouched { IfErr result (λ refusal. (IsDiskFault refusal → ⊥) → self.new ≡ self.old) }
        ensures done { (sure : Log) (before after : Option Log)
            → IsLogSide D.is_honest D.state self.old sure before false
            → OnOk result (IsLogSide D.is_honest D.state self.new (base_alone version base.now) after false) }
        ensures failed { (sure : Log) (before : Option Log)
            → IsLogSide D.is_honest D.state self.old sure before false
            → IfErr result (λ refusal. IsDiskFault refusal
            → IsLogSide D.is_honest D.state self.new sure (Some (base_alone version base.now)) true) }
        ensures any_moment { (sure : Log) (before : Option Log) → D.is_honest self.old.disk
            → IsLogSide D.is_honest D.state self.old sure before false
            → LeavesOnly D.remembers (D.clock self.old.disk) (D.clock self.new.disk)
            (ListsOneOf sure (Some (base_alone version base.now))) }
    {
        self.log.rewrite(alloc, &mut self.disk, version, base)
    }
}
