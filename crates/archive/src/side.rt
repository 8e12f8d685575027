//! The mappings of an archive, in memory and on their device.

ghost use Rattle.std.specs.Prelude.{◌≡◌, ◌+◌, ◌-◌, ◌*◌, ◌<◌, ◌≤◌, ◌∷◌, [], None, false};
ghost use Rattle.std.specs.Prelude.{length, max, Ok, OnOk, OnErr, IfOk, IfErr, MatchResult};
ghost use Rattle.retro_base.specs.declared.limits.TheConstants.{BATCH};
ghost use Rattle.gate_log.specs.Cause.{HasRoom};
ghost use Rattle.history.specs.Writes.{pages_of};
ghost use Rattle.map_log.specs.Bodies.{low_length, run_length};
ghost use Rattle.disk_model.specs.Sizes.{maplog_half};
ghost use Rattle.map_log.specs.Log.{AreSound, HasRoomFor, IsMapArea};
ghost use Rattle.race_model.specs.Machine.{entered, enter_failed, trimmed, trim_failed};
ghost use Rattle.race_model.specs.Vault.{listing, Vault};
ghost use Rattle.page_table.specs.Table.{IsFirstMet};
ghost use Rattle.skippy.specs.Mappings.{end_of, first_in, push};
ghost use Rattle.archive.specs.Cause.{FaultsOrMemory};
ghost use Rattle.archive.specs.Fetching.{kept_mappings};
ghost use Rattle.archive.specs.Finding.{below, Covers};
ghost use Rattle.retro_base.specs.declared.refusal.Refusal.TheVariants.{OutOfMemory};
ghost use Rattle.archive.specs.Side.{AddsRun, EntersBatch, IsEntering, IsMapSide, IsNextBatch};
ghost use Rattle.archive.specs.Side.{Lowers, MapsBehind, Moves, SameSide, StaysInPlace};
ghost use Rattle.archive.specs.Side.{stopped_with, TrimmedAtMost, with_mappings, WritesNoMark};

use disk_model::Disk;
use map_log::MapLog;
use page_table::SnapTable;
use race_model::Batch;
use retro_base::Refusal;
use skippy::{Levels, Mappings, Steps};
use std::alloc::Global;
use std::marker::Model;
use std::sync::ledger::Ledger;

/// The mappings of an archive, in memory and on their device, and how many captures are entered. Behind these memory
/// may have more, which a failed append left.
#[derive(Drop)]
pub struct MapSide<D: Disk> {
    disk: D,
    log: MapLog,
    levels: Levels,
    held: u64,
}

impl<D: Disk> Model for MapSide<D> {
    ghost use Rattle.archive.specs.Side.{IsSide, Side};

    ghost Value = { Side D };

    ghost view = { λ s. record { disk = s.disk; log = s.log; levels = s.levels; held = s.held } };

    ghost invariant = { λ s. IsSide D.extent (record {
      disk = s.disk;
      log = s.log;
      levels = s.levels;
      held = s.held;
    }) };
}

impl<D: Disk> MapSide<D> {
    /// The mappings that were read of this device, all of them entered.
    pub fn new(disk: D, log: MapLog, levels: Levels) -> MapSide<D>
        requires log { IsMapArea log }
        requires whole { D.extent disk ≡ 2 * log.area.log.size }
        requires sound { AreSound log.page_count levels }
        requires few { length levels.pages ≤ log.capacity }
        ensures { result ≡ record { disk = disk; log = log; levels = levels; held = end_of levels } }
    {
        let held = levels.end();
        MapSide {
            disk,
            log,
            levels,
            held,
        }
    }

    /// How many captures are entered.
    pub fn held(&self) -> u64
        ensures same { result ≡ self.now.held }
        ensures low { self.now.levels.low ≤ result }
    {
        self.held
    }

    /// The lowest mapping that is kept.
    pub fn low(&self) -> u64
        ensures { result ≡ self.now.levels.low }
    {
        self.levels.low()
    }

    /// Where on the device the closed gate behind the list stands.
    pub fn end(&self) -> u64
        ensures { result ≡ self.now.log.area.log.place + self.now.log.area.log.gate }
    {
        self.log.end()
    }

    /// Number and page of each mapping of a capture that is entered, in order. The only refusal is want of memory.
    pub fn mappings(&self, alloc: Global) -> Result<Vec<(u64, u32)>, Refusal>
        ensures kept { IfOk result (λ mappings. mappings.items ≡ kept_mappings self.now) }
        ensures memory { IfErr result (λ why. why ≡ OutOfMemory) }
    {
        let low = self.levels.low();
        let pages = self.levels.pages_from(low)?;
        let count = (self.held - low) as usize;
        let mut mappings = Vec::with_capacity(alloc, count)?;
        for index in 0..count {
            mappings.push((low + index as u64, pages[index]))?;
        }
        Ok(mappings)
    }

    /// The mappings in memory. The only refusal is want of memory.
    pub fn kept(&self, alloc: Global) -> Result<Mappings, Refusal>
        ensures kept { IfOk result (λ mappings. mappings ≡ self.now.levels) }
        ensures memory { IfErr result (λ why. why ≡ OutOfMemory) }
    {
        let low = self.levels.low();
        let pages = self.levels.pages_from(low)?;
        let mut mappings = Mappings::new(alloc, low);
        match mappings.push(&pages) {
            Ok(()) => Ok(mappings),
            Err(_) => Err(Refusal::OutOfMemory),
        }
    }

    /// The device.
    pub fn into_disk(self) -> D
        ensures disk { result ≡ self.disk }
        ensures whole { D.extent result ≡ 2 * maplog_half self.log.capacity }
    {
        let MapSide {
            disk,
            log: _,
            levels: _,
            held: _,
        } = self;
        disk
    }

    // Forgets the mappings below `low` by a mark behind the list, which has room for it.
    fn mark(&mut self, alloc: Global, low: u64) -> Result<(), Refusal>
        requires going { self.old.log.area.fault ≡ None }
        requires above { self.old.levels.low ≤ low }
        requires held { low ≤ self.old.held }
        requires room { HasRoom self.old.log.area.log low_length }
        ensures same { SameSide D.is_honest self.old self.new }
        ensures lowers { Lowers self.old low result self.new }
        ensures gate { OnOk result (self.new.log.area.log.gate ≡ self.old.log.area.log.gate + low_length + 5) }
        ensures size { OnOk result (self.new.log.area.log.size ≡ self.old.log.area.log.size) }
        ensures place { OnOk result (self.new.log.area.log.place ≡ self.old.log.area.log.place) }
        ensures cause { FaultsOrMemory (D.faults self.old.disk) (D.faults self.new.disk) result }
        ensures moves { (vault : Vault) → IsMapSide D.is_honest D.state self.old vault → vault.stopped ≡ false
            → Moves D.is_honest D.remembers D.state D.clock self.old self.new
            (trimmed vault low) (trim_failed vault low) result }
    {
        let mark = self.log.low_body(alloc, low)?;
        self.log.add(&mut self.disk, &mark)?;
        self.levels.trim(low);
        Ok(())
    }

    // Forgets the mappings below `low` by a list of all others in the place of the list.
    fn rewrite(&mut self, alloc: Global, low: u64) -> Result<(), Refusal>
        requires going { self.old.log.area.fault ≡ None }
        requires above { self.old.levels.low ≤ low }
        requires held { low ≤ self.old.held }
        ensures same { SameSide D.is_honest self.old self.new }
        ensures lowers { Lowers self.old low result self.new }
        ensures room { OnOk result (HasRoomFor self.new.log BATCH) }
        ensures cause { FaultsOrMemory (D.faults self.old.disk) (D.faults self.new.disk) result }
        ensures moves { (vault : Vault) → IsMapSide D.is_honest D.state self.old vault → vault.stopped ≡ false
            → Moves D.is_honest D.remembers D.state D.clock self.old self.new
            (trimmed vault low) (trim_failed vault low) result }
    {
        let pages = self.levels.pages_from(low)?;
        self.log.rewrite(alloc, &mut self.disk, low, &pages)?;
        self.levels.trim(low);
        Ok(())
    }

    // Forgets the mappings below `low`, and sees to it that a run of that many pages fits behind the list.
    fn lower(&mut self, alloc: Global, low: u64, count: usize) -> Result<(), Refusal>
        requires going { self.old.log.area.fault ≡ None }
        requires held { low ≤ self.old.held }
        requires few { count ≤ BATCH }
        ensures same { SameSide D.is_honest self.old self.new }
        ensures lowers { Lowers self.old low result self.new }
        ensures room { OnOk result (HasRoom self.new.log.area.log (run_length self.new.log.version count)) }
        ensures in_place { OnOk result (StaysInPlace self.old count self.new) }
        ensures nothing { low ≤ self.old.levels.low → HasRoomFor self.old.log count → self.new ≡ self.old }
        ensures cause { FaultsOrMemory (D.faults self.old.disk) (D.faults self.new.disk) result }
        ensures moves { (vault : Vault) → IsMapSide D.is_honest D.state self.old vault → vault.stopped ≡ false
            → Moves D.is_honest D.remembers D.state D.clock self.old self.new
            (trimmed vault low) (trim_failed vault low) result }
    {
        let least = low.max(self.levels.low());
        if !self.log.has_room_for(count) {
            return self.rewrite(alloc, least);
        }
        if self.levels.low() < least {
            return self.mark(alloc, least);
        }
        Ok(())
    }

    /// Forgets the mappings below `low`. It is refused for want of memory, and then all is as it was; and exactly
    /// where a call of the device failed. Nothing is done where `low` is not above the lowest mapping.
    pub fn trim(&mut self, alloc: Global, low: u64) -> Result<(), Refusal>
        requires going { self.old.log.area.fault ≡ None }
        requires held { low ≤ self.old.held }
        ensures same { SameSide D.is_honest self.old self.new }
        ensures lowers { Lowers self.old low result self.new }
        ensures in_place { OnOk result (StaysInPlace self.old 0 self.new) }
        ensures nothing { low ≤ self.old.levels.low → (result ≡ Ok tt) × (self.new ≡ self.old) }
        ensures cause { FaultsOrMemory (D.faults self.old.disk) (D.faults self.new.disk) result }
        ensures moves { (vault : Vault) → IsMapSide D.is_honest D.state self.old vault → vault.stopped ≡ false
            → Moves D.is_honest D.remembers D.state D.clock self.old self.new
            (trimmed vault low) (trim_failed vault low) result }
    {
        if low <= self.levels.low() {
            return Ok(());
        }
        self.lower(alloc, low, 0)
    }

    // Maps the batch's pages behind the others, and appends them to the list, which has room for them.
    fn enter(&mut self, alloc: Global, batch: &Batch) -> Result<(), Refusal>
        requires going { self.old.log.area.fault ≡ None }
        requires batch { IsEntering self.old batch.now }
        requires room { HasRoom self.old.log.area.log
            (run_length self.old.log.version (length batch.now.images)) }
        ensures same { SameSide D.is_honest self.old self.new }
        ensures maps { MapsBehind self.old (pages_of batch.now.images) result self.new }
        ensures run { OnOk result (AddsRun self.old (length batch.now.images) self.new) }
        ensures place { OnOk result (self.new.log.area.log.place ≡ self.old.log.area.log.place) }
        ensures cause { FaultsOrMemory (D.faults self.old.disk) (D.faults self.new.disk) result }
        ensures moves { (vault : Vault) → IsMapSide D.is_honest D.state self.old vault → vault.stopped ≡ false
            → Moves D.is_honest D.remembers D.state D.clock self.old self.new
            (with_mappings vault (push vault.mappings (pages_of batch.now.images)))
            (stopped_with vault (listing vault (push vault.mappings (pages_of batch.now.images)) ∷ [])) result }
    {
        let pages = batch.pages();
        let run = self.log.run_body(alloc, self.held, pages)?;
        self.levels.push(pages)?;
        self.log.add(&mut self.disk, &run)?;
        self.held += pages.len() as u64;
        Ok(())
    }

    /// Forgets the mappings below the batch's low, and enters the batch. It is refused for want of memory, and then
    /// the first may be done; and exactly where a call of the device failed.
    pub fn enter_batch(&mut self, alloc: Global, batch: &Batch) -> Result<(), Refusal>
        requires going { self.old.log.area.fault ≡ None }
        requires batch { IsNextBatch self.old batch.now }
        ensures same { SameSide D.is_honest self.old self.new }
        ensures enters { EntersBatch self.old batch.now result self.new }
        ensures in_place { OnOk result (StaysInPlace self.old (length batch.now.images) self.new) }
        ensures no_mark { OnOk result (WritesNoMark self.old batch.now self.new) }
        ensures cause { FaultsOrMemory (D.faults self.old.disk) (D.faults self.new.disk) result }
        ensures moves { (vault : Vault) → IsMapSide D.is_honest D.state self.old vault → vault.stopped ≡ false
            → Moves D.is_honest D.remembers D.state D.clock self.old self.new
            (entered vault batch.now) (enter_failed vault batch.now) result }
        ensures memory { (vault : Vault) → IsMapSide D.is_honest D.state self.old vault → vault.stopped ≡ false
            → TrimmedAtMost D.is_honest D.state self.new vault batch.now result }
    {
        self.lower(alloc, batch.low(), batch.len())?;
        self.enter(alloc, batch)
    }

    /// The number of the page's first mapping from the table's start on, below `upto`. It covers the mappings below
    /// `upto` in the table first; it is refused for want of memory alone, and not where they are covered.
    pub fn first<L: Ledger>(
        &self,
        table: &mut SnapTable,
        page: u32,
        upto: u64,
        steps: &mut Steps<L>,
    ) -> Result<Option<u64>, Refusal>
        requires held { upto ≤ self.now.held }
        requires met { IsFirstMet table.old self.now.levels }
        ensures first { IfOk result (λ o. o ≡ first_in self.now.levels table.old.start upto page) }
        ensures memory { IfErr result (λ why. (why ≡ OutOfMemory) × (table.old.covered < upto)) }
        ensures covers { Covers self.now.levels upto table.old table.new steps.old steps.new }
        ensures covered { OnOk result (table.new.covered ≡ max table.old.covered upto) }
        ensures left { OnErr result (table.new ≡ table.old) }
    {
        if table.covered() < upto {
            table.extend(&self.levels, upto, steps)?;
        }
        Ok(below(upto, table.find(page)))
    }
}

// The number, if it is below the limit.
fn below(limit: u64, number: Option<u64>) -> Option<u64>
    ensures { result ≡ below limit number }
{
    match number {
        Some(number) if number < limit => Some(number),
        _ => None,
    }
}
