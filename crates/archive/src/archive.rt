//! The archive: a batch is laid and entered, mappings are trimmed, the page image of a first mapping is found.

ghost use Rattle.std.specs.Prelude.{◌≡◌, ◌+◌, ◌*◌, ◌<◌, ◌≤◌, ◌^◌, None, false, is_some};
ghost use Rattle.std.specs.Prelude.{length, max, Ok, OnOk, OnErr, IfOk, IfErr, MatchResult};
ghost use Rattle.disk_model.specs.Moments.{LeavesOnly};
ghost use Rattle.disk_model.specs.Runs.{OnlyReads};
ghost use Rattle.retro_base.specs.declared.device.Device.TheVariants.{Maplog as OfMaplog, Pagelog as OfPagelog};
ghost use Rattle.gate_log.specs.Cause.{IsDiskFault};
ghost use Rattle.block_file.specs.Blocks.{IsAsLong, SameFile};
ghost use Rattle.skippy.specs.Mappings.{first_in};
ghost use Rattle.page_table.specs.Table.{IsFirstMet};
ghost use Rattle.disk_model.specs.Sizes.{maplog_half, pagelog_bytes};
ghost use Rattle.race_model.specs.Machine.{entered, enter_failed, trimmed, trim_failed};
ghost use Rattle.race_model.specs.Vault.{batch_end, Vault};
ghost use Rattle.archive.specs.Archive.{fault_after, Finds, IsTrimmedAtMost, IsVault, laid_after, Turns, TurnsByLaying};
ghost use Rattle.archive.specs.Cause.{first_after, is_disk_fault, IsRefusedFind, IsRefusedWrite, IsStopped};
ghost use Rattle.archive.specs.Fetching.{ComesBack, IsOpened, IsRefusedFetch, kept_mappings};
ghost use Rattle.archive.specs.Finding.{Covers};
ghost use Rattle.records.specs.Entries.{page_width};
ghost use Rattle.retro_base.specs.declared.limits.TheConstants.{MAX_CAPACITY, PAGE_BYTES};
ghost use Rattle.retro_base.specs.declared.refusal.Refusal.TheVariants.{OutOfMemory};
ghost use Rattle.archive.specs.Side.{IsNextBatch, SameSide, StaysInPlace, WritesNoMark};

use crate::opening::read_devices;
use crate::side::MapSide;
use crate::slots::lay_all;
use block_file::Pagelog;
use disk_model::{Disk, Sizes};
use history::Version;
use page_table::SnapTable;
use race_model::{Batch, Fault, Receipt};
use retro_base::{Device, Page, Refusal};
use skippy::{Mappings, Steps};
use std::alloc::Global;
use std::marker::Model;
use std::sync::ledger::Ledger;

/// An archive over two devices. After a fault of a write it refuses each further one, and tells that fault; it finds
/// as before. Contracts see the devices, what is known of them, and the mappings in memory.
#[derive(Drop)]
pub struct Archive<D: Disk> {
    alloc: Global,
    side: MapSide<D>,
    pagelog: Pagelog<D>,
    laid: u64,
    first_fault: Option<(Device, u64)>,
}

impl<D: Disk> Model for Archive<D> {
    ghost use Rattle.archive.specs.Archive.{IsArchive, Running};

    ghost Value = { Running D };

    ghost view = { λ a. record {
      side = a.side;
      pagelog = a.pagelog;
      laid = a.laid;
      first_fault = a.first_fault;
    } };

    ghost invariant = { λ a. IsArchive {D = D} (record {
      side = a.side;
      pagelog = a.pagelog;
      laid = a.laid;
      first_fault = a.first_fault;
    }) };
}

impl<D: Disk> Archive<D> {
    /// Opens the archive of two devices, which it settles, in records of that version and of these sizes. The devices
    /// come back where it is refused: the Pagelog's for its size, or exactly where a sync of it failed; and then for
    /// want of memory, exactly where a call of the Maplog's failed, where that is no Maplog of these sizes, with the
    /// place of its first break, and where it lists more mappings than there are slots, with its closed gate.
    pub fn fetch(
        alloc: Global,
        pagelog: D,
        maplog: D,
        version: Version,
        sizes: Sizes,
    ) -> Result<Archive<D>, (D, D, Refusal)>
        requires fits { sizes.pages ≤ 256 ^ page_width version }
        requires some { 1 ≤ sizes.capacity }
        requires most { sizes.capacity ≤ MAX_CAPACITY }
        ensures opened { IfOk result
            (IsOpened D.is_honest D.state version sizes.pages sizes.capacity maplog) }
        ensures sizes { OnOk result ((D.extent pagelog ≡ pagelog_bytes sizes.capacity)
            × (D.extent maplog ≡ 2 * maplog_half sizes.capacity)) }
        ensures cause { MatchResult result
            (λ a. (D.faults a.pagelog.disk ≡ D.faults pagelog) × (D.faults a.side.disk ≡ D.faults maplog))
            (λ e. IsRefusedFetch D.extent D.is_honest D.state D.faults version sizes.pages sizes.capacity
            pagelog maplog e.0 e.1 e.2) }
        ensures pagelog_back { MatchResult result
            (λ a. ComesBack D.extent D.is_honest D.remembers D.state D.clock pagelog a.pagelog.disk)
            (λ e. ComesBack D.extent D.is_honest D.remembers D.state D.clock pagelog e.0) }
        ensures maplog_back { MatchResult result
            (λ a. ComesBack D.extent D.is_honest D.remembers D.state D.clock maplog a.side.disk)
            (λ e. ComesBack D.extent D.is_honest D.remembers D.state D.clock maplog e.1) }
    {
        let (mut pagelog, mut maplog) = (pagelog, maplog);
        match read_devices(alloc, &mut pagelog, &mut maplog, version, sizes) {
            Ok((log, levels)) => {
                let side = MapSide::new(maplog, log, levels);
                let laid = side.held();
                Ok(Archive {
                    alloc,
                    side,
                    pagelog: Pagelog::new(pagelog, sizes.capacity),
                    laid,
                    first_fault: None,
                })
            }
            Err(why) => Err((pagelog, maplog, why)),
        }
    }

    /// How many captures are entered.
    pub fn held(&self) -> u64
        ensures { result ≡ self.now.side.held }
    {
        self.side.held()
    }

    /// The lowest mapping that is kept.
    pub fn low(&self) -> u64
        ensures { result ≡ self.now.side.levels.low }
    {
        self.side.low()
    }

    /// The number below which slots at or past those entered are laid.
    pub fn laid(&self) -> u64
        ensures { result ≡ self.now.laid }
    {
        self.laid
    }

    /// Number and page of each mapping of a capture that is entered, in order. The only refusal is want of memory.
    pub fn mappings(&self) -> Result<Vec<(u64, u32)>, Refusal>
        ensures kept { IfOk result (λ mappings. mappings.items ≡ kept_mappings self.now.side) }
        ensures memory { IfErr result (λ why. why ≡ OutOfMemory) }
    {
        self.side.mappings(self.alloc)
    }

    /// The mappings in memory: those of the captures that are entered, while no call of the Maplog's device has failed.
    /// The only refusal is want of memory.
    pub fn kept(&self) -> Result<Mappings, Refusal>
        ensures kept { IfOk result (λ mappings. mappings ≡ self.now.side.levels) }
        ensures memory { IfErr result (λ why. why ≡ OutOfMemory) }
    {
        self.side.kept(self.alloc)
    }

    /// Where on the Maplog's device the closed gate behind its list stands.
    pub fn end(&self) -> u64
        ensures { result ≡ self.now.side.log.area.log.place + self.now.side.log.area.log.gate }
    {
        self.side.end()
    }

    /// The devices, that of the slots first.
    pub fn into_disks(self) -> (D, D)
        ensures disks { result ≡ (self.pagelog.disk, self.side.disk) }
        ensures pagelog { D.extent result.0 ≡ PAGE_BYTES * self.pagelog.blocks }
        ensures maplog { D.extent result.1 ≡ 2 * maplog_half self.side.log.capacity }
    {
        let Archive {
            alloc: _,
            side,
            pagelog,
            laid: _,
            first_fault: _,
        } = self;
        (pagelog.into_disk(), side.into_disk())
    }

    // Refused after a fault of an earlier write, with the first.
    fn goes(&self) -> Result<(), Fault>
        ensures { MatchResult result (λ _. self.now.first_fault ≡ None)
            (λ e. IsStopped self.now.first_fault e.why e.wrote) }
    {
        match self.first_fault {
            Some((device, count)) => Err(Fault {
                why: Refusal::Stopped { device, count },
                wrote: false,
            }),
            None => Ok(()),
        }
    }

    /// Forgets the mappings below `low`. It is refused, in this order, after a fault of an earlier write, with the
    /// first; for want of memory; and exactly where a call of the Maplog's device failed. The first two leave all as it
    /// was. Nothing is done where `low` is not above the lowest mapping, and no list is written anew where a low mark
    /// and a run of none fit.
    pub fn trim(&mut self, low: u64) -> Result<(), Fault>
        requires { low ≤ self.old.side.held }
        ensures cause { MatchResult result
            (λ _. (self.old.first_fault ≡ None) × (D.faults self.new.side.disk ≡ D.faults self.old.side.disk))
            (λ e. IsRefusedWrite OfMaplog (Unit {0}) self.old.first_fault
            (D.faults self.old.side.disk) (D.faults self.new.side.disk) e.why e.wrote) }
        ensures same { SameSide D.is_honest self.old.side self.new.side }
        ensures held { self.new.side.held ≡ self.old.side.held }
        ensures in_place { OnOk result (StaysInPlace self.old.side 0 self.new.side) }
        ensures slots { self.new.pagelog ≡ self.old.pagelog }
        ensures laid { self.new.laid ≡ self.old.laid }
        ensures fault { self.new.first_fault ≡ fault_after self.old.first_fault result }
        ensures untouched { IfErr result (λ e. (IsDiskFault e.why → ⊥) → self.new ≡ self.old) }
        ensures nothing { self.old.first_fault ≡ None → low ≤ self.old.side.levels.low
            → (result ≡ Ok tt) × (self.new ≡ self.old) }
        ensures turns { (vault : Vault) → IsVault D.is_honest D.state self.old vault → vault.stopped ≡ false
            → Turns D.is_honest D.remembers D.state D.clock self.old self.new
            (trimmed vault low) (trim_failed vault low) result }
    {
        self.goes()?;
        match self.side.trim(self.alloc, low) {
            Ok(()) => Ok(()),
            Err(why) => Err(keep(&mut self.first_fault, why)),
        }
    }

    /// Writes a batch's captures into their slots, and makes them durable. It is refused, in this order, after a fault
    /// of an earlier write, with the first; and exactly where a call of the Pagelog's device failed. The first leaves
    /// all as it was. It takes no memory.
    pub fn lay_batch(&mut self, batch: &Batch) -> Result<(), Fault>
        requires { IsNextBatch self.old.side batch.now }
        ensures cause { MatchResult result
            (λ _. (self.old.first_fault ≡ None) × (D.faults self.new.pagelog.disk ≡ D.faults self.old.pagelog.disk))
            (λ e. IsRefusedWrite OfPagelog ⊥ self.old.first_fault
            (D.faults self.old.pagelog.disk) (D.faults self.new.pagelog.disk) e.why e.wrote) }
        ensures side { self.new.side ≡ self.old.side }
        ensures file { SameFile D.is_honest self.old.pagelog self.new.pagelog }
        ensures laid { self.new.laid ≡ laid_after self.old batch.now result }
        ensures fault { self.new.first_fault ≡ fault_after self.old.first_fault result }
        ensures untouched { IfErr result (λ e. (IsDiskFault e.why → ⊥) → self.new ≡ self.old) }
        ensures turns { (vault : Vault) → IsVault D.is_honest D.state self.old vault → vault.stopped ≡ false
            → TurnsByLaying D.is_honest D.remembers D.state D.clock self.old self.new vault batch.now result }
        ensures long { D.is_honest self.old.pagelog.disk → LeavesOnly D.remembers (D.clock self.old.pagelog.disk)
            (D.clock self.new.pagelog.disk) (IsAsLong (D.state self.old.pagelog.disk)) }
    {
        self.goes()?;
        let held = self.side.held();
        match lay_all(&mut self.pagelog, batch) {
            Ok(()) => {
                self.laid = self.laid.max(held + batch.len() as u64);
                Ok(())
            }
            Err(why) => {
                self.laid = held;
                Err(keep(&mut self.first_fault, why))
            }
        }
    }

    /// Forgets the mappings below the batch's low, and enters the batch, which is laid; the receipt tells how many
    /// captures are entered then. It is refused, in this order, after a fault of an earlier write, with the first; for
    /// want of memory; and exactly where a call of the Maplog's device failed. The first leaves all as it was, the
    /// second leaves the mappings as they were or as they are with those below the batch's low forgotten. No list is
    /// written anew where a low mark and the batch's run fit, and no mark is written where the batch's low is not above
    /// the lowest mapping.
    pub fn enter_batch(&mut self, batch: &Batch) -> Result<Receipt, Fault>
        requires batch { IsNextBatch self.old.side batch.now }
        requires laid { batch_end batch.now ≤ self.old.laid }
        ensures cause { MatchResult result
            (λ _. (self.old.first_fault ≡ None) × (D.faults self.new.side.disk ≡ D.faults self.old.side.disk))
            (λ e. IsRefusedWrite OfMaplog (Unit {0}) self.old.first_fault
            (D.faults self.old.side.disk) (D.faults self.new.side.disk) e.why e.wrote) }
        ensures receipt { IfOk result (λ receipt. receipt ≡ batch_end batch.now) }
        ensures held { OnOk result (self.new.side.held ≡ batch_end batch.now) }
        ensures in_place { OnOk result (StaysInPlace self.old.side (length batch.now.images) self.new.side) }
        ensures no_mark { OnOk result (WritesNoMark self.old.side batch.now self.new.side) }
        ensures left { OnErr result (self.new.side.held ≡ self.old.side.held) }
        ensures same { SameSide D.is_honest self.old.side self.new.side }
        ensures slots { self.new.pagelog ≡ self.old.pagelog }
        ensures laid { self.new.laid ≡ self.old.laid }
        ensures fault { self.new.first_fault ≡ fault_after self.old.first_fault result }
        ensures stopped { (self.old.first_fault ≡ None → ⊥) → self.new ≡ self.old }
        ensures turns { (vault : Vault) → IsVault D.is_honest D.state self.old vault → vault.stopped ≡ false
            → Turns D.is_honest D.remembers D.state D.clock self.old self.new
            (entered vault batch.now) (enter_failed vault batch.now) result }
        ensures memory { (vault : Vault) → IsVault D.is_honest D.state self.old vault → vault.stopped ≡ false
            → IsTrimmedAtMost D.is_honest D.state self.new vault batch.now result }
    {
        self.goes()?;
        match self.side.enter_batch(self.alloc, batch) {
            Ok(()) => Ok(Receipt::of(self.side.held())),
            Err(why) => Err(keep(&mut self.first_fault, why)),
        }
    }

    /// Whether a mapping of the page stands from the table's start on and below `upto`; then `out` has the bytes in the
    /// slot of the first, else it is as it was. The mappings below `upto` are covered in the table first. It is refused
    /// for want of memory, but not where they are covered; and exactly where a read of the Pagelog's device failed. An
    /// archive that stopped finds as before.
    pub fn find<L: Ledger>(
        &mut self,
        table: &mut SnapTable,
        page: u32,
        upto: u64,
        out: &mut Page,
        steps: &mut Steps<L>,
    ) -> Result<bool, Fault>
        requires held { upto ≤ self.old.side.held }
        requires met { IsFirstMet table.old self.old.side.levels }
        ensures cause { MatchResult result
            (λ _. D.faults self.new.pagelog.disk ≡ D.faults self.old.pagelog.disk)
            (λ e. IsRefusedFind table.old.covered upto
            (D.faults self.old.pagelog.disk) (D.faults self.new.pagelog.disk) e.why e.wrote) }
        ensures found { IfOk result (λ found. found
            ≡ is_some (first_in self.old.side.levels table.old.start upto page)) }
        ensures left { MatchResult result (λ found. found ≡ false → out.new ≡ out.old) (λ _. out.new ≡ out.old) }
        ensures covers { Covers self.old.side.levels upto table.old table.new steps.old steps.new }
        ensures covered { OnOk result (table.new.covered ≡ max table.old.covered upto) }
        ensures same { self.new ≡ record self.old { pagelog = self.new.pagelog } }
        ensures file { SameFile D.is_honest self.old.pagelog self.new.pagelog }
        ensures quiet { D.is_honest self.old.pagelog.disk
            → OnlyReads D.remembers D.state D.clock self.old.pagelog.disk self.new.pagelog.disk }
        ensures vault { (vault : Vault) → IsVault D.is_honest D.state self.old vault
            → Finds D.is_honest D.state self.old self.new vault table.old.start upto page out.old out.new result }
    {
        match self.side.first(table, page, upto, steps) {
            Ok(Some(number)) => match self.pagelog.fetch(number, out) {
                Ok(()) => Ok(true),
                Err(why) => Err(Fault { why, wrote: false }),
            },
            Ok(None) => Ok(false),
            Err(why) => Err(Fault { why, wrote: false }),
        }
    }
}

// Keeps a fault of a write as the first, and tells the refusal.
fn keep(first: &mut Option<(Device, u64)>, why: Refusal) -> Fault
    ensures kept { first.new ≡ first_after first.old why }
    ensures told { result ≡ record { why = why; wrote = is_disk_fault why } }
{
    match why {
        Refusal::DiskFault { device, count } => {
            *first = Some((device, count));
            Fault { why, wrote: true }
        }
        _ => Fault { why, wrote: false },
    }
}
