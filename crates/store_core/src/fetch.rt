//! The core that its devices open to.

ghost use Rattle.std.specs.Prelude.{◌≡◌, ◌≤◌, ◌*◌, ◌⊎◌, ◌↔◌, IfOk, MatchResult, OnOk};
ghost use Rattle.disk_model.specs.Runs.{SameDevice, WritesNothing};
ghost use Rattle.retro_base.specs.declared.device.Device.TheVariants.{Log};
ghost use Rattle.retro_base.specs.declared.limits.TheConstants.{LOG_REGION_BYTES, MAX_CAPACITY};
ghost use Rattle.retro_base.specs.declared.limits.TheConstants.{MAX_PAGES, MIN_CAPACITY, PAGE_BYTES};
ghost use Rattle.gate_log.specs.Cause.{IsReadRefusal};
ghost use Rattle.area_log.specs.Listed.{IsRefused};
ghost use Rattle.records.specs.Log.{IsLog};
ghost use Rattle.desk.specs.Fetched.{ArePagesUnread, IsLogUnread};
ghost use Rattle.txn_set.specs.Ledger.{no_lines};
ghost use Rattle.store_core.specs.Core.{AreSizesOf, FetchesCore, IsWholeCore};

use crate::desk_core::Core;
use desk::{RunningDesk, Unopened};
use disk_model::{Disk, Sizes};
use history::Version;
use redo_log::RedoLog;
use retro_base::Refusal;
use skippy::Mappings;
use std::alloc::Global;
use txn_set::Ledger;

impl<D: Disk + Drop> Core<D> {
    /// Opens the devices of the log and of the pages by replay, beside the mappings of a Maplog whose closed gate
    /// stands at `end`; as much is acknowledged as the mappings hold. It is refused where the log's device lists no
    /// log in this version, where the pages have another size, where log and mappings do not belong together, exactly
    /// where a call of a device failed, and for want of memory; then the devices come back.
    pub fn fetch(
        alloc: Global,
        version: Version,
        log: D,
        pages: D,
        mappings: &Mappings,
        end: u64,
    ) -> Result<Core<D>, Unopened<D>>
        ensures same { MatchResult result
            (λ core. SameDevice D.extent D.is_honest log core.desk.log.disk
            × (D.is_honest pages ↔ D.is_honest core.desk.pool.file.disk))
            (λ e. SameDevice D.extent D.is_honest log e.log × SameDevice D.extent D.is_honest pages e.pages) }
        ensures size { IfOk result (λ core. D.extent pages ≡ PAGE_BYTES * core.desk.pool.file.blocks) }
        ensures cause { MatchResult result
            (λ core. (D.faults core.desk.log.disk ≡ D.faults log) × (D.faults core.desk.pool.file.disk ≡
            D.faults pages))
            (λ e. IsLogUnread D.is_honest D.extent D.faults D.state version log pages e
            ⊎ ArePagesUnread D.is_honest D.extent D.faults D.state version log pages mappings.now end e) }
        ensures core { IfOk result (FetchesCore D.is_honest D.state version log pages mappings.now) }
        ensures whole { IfOk result (IsWholeCore D.is_honest D.state) }
        ensures ledger { IfOk result (λ core. core.ledger ≡ no_lines core.desk.base.page_count) }
        ensures quiet_log { D.is_honest log → MatchResult result
            (λ core. WritesNothing D.remembers D.state D.clock log core.desk.log.disk)
            (λ e. WritesNothing D.remembers D.state D.clock log e.log) }
        ensures quiet_pages { D.is_honest pages → MatchResult result
            (λ core. WritesNothing D.remembers D.state D.clock pages core.desk.pool.file.disk)
            (λ e. WritesNothing D.remembers D.state D.clock pages e.pages) }
    {
        match RunningDesk::fetch(alloc, version, log, pages, mappings, end) {
            Err(unopened) => Err(unopened),
            Ok(desk) => match Ledger::new(alloc, desk.sizes().pages) {
                Ok(ledger) => Ok(Core { desk, ledger }),
                Err(_) => {
                    let (log, pages) = desk.into_disks();
                    Err(Unopened {
                        log,
                        pages,
                        why: Refusal::OutOfMemory,
                    })
                }
            },
        }
    }
}

/// How many pages the store has whose log a device lists, and how many page images its archive holds. It is refused
/// where the device lists no log in this version, exactly where a call of it failed, and for want of memory.
pub fn sizes<D: Disk>(alloc: Global, version: Version, log: &mut D) -> Result<Sizes, Refusal>
    ensures same { SameDevice D.extent D.is_honest log.old log.new }
    ensures cause { MatchResult result (λ _. D.faults log.new ≡ D.faults log.old)
        (IsReadRefusal (IsRefused LOG_REGION_BYTES (IsLog version) (D.is_honest log.old)
        (D.extent log.old) (D.state log.old).seen) Log (D.faults log.old) (D.faults log.new)) }
    ensures size { OnOk result (D.extent log.old ≡ 2 * LOG_REGION_BYTES) }
    ensures right { IfOk result (λ sizes. (sizes.pages ≤ MAX_PAGES) × (MIN_CAPACITY ≤ sizes.capacity)
        × (sizes.capacity ≤ MAX_CAPACITY)) }
    ensures listed { D.is_honest log.old → IfOk result (AreSizesOf version (D.state log.old).seen) }
    ensures quiet { D.is_honest log.old → WritesNothing D.remembers D.state D.clock log.old log.new }
{
    match RedoLog::fetch(alloc, version, log) {
        Ok((_, list)) => Ok(Sizes {
            pages: list.base.page_count,
            capacity: list.base.capacity,
        }),
        Err(why) => Err(why),
    }
}
