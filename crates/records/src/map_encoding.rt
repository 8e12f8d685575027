//! The bytes of the Maplog's records.

ghost use Rattle.std.specs.Prelude.{◌≡◌, ◌+◌, ◌*◌, ◌<◌, ◌≤◌, ◌^◌, length, IfOk, IfErr};
ghost use Rattle.std.specs.List.{AllByRecursion};
ghost use Rattle.retro_base.specs.declared.refusal.Refusal.TheVariants.{OutOfMemory};
ghost use Rattle.records.specs.Entries.{page_width};
ghost use Rattle.records.specs.Maplog.{map_entry_bytes};
ghost use Rattle.records.specs.declared.map_entry.MapEntry.TheVariants.{Start, Run, Low};
ghost use Rattle.records.specs.declared.map_entry.TheConstants.{RUN_PAGES};
ghost use Rattle.history.specs.declared.log.Version as ghosts;

use crate::encoding::put_pages;
use gate_log::{Framed, FramedBuilder};
use history::Version;
use retro_base::Refusal;
use std::alloc::Global;

/// A start: no mapping is kept, and the first will have the number `low`. The only refusal is want of memory.
pub fn start_body(
    alloc: Global,
    version: Version,
    capacity: u32,
    low: u64,
) -> Result<Framed, Refusal>
    ensures body { IfOk result (λ framed. framed ≡ map_entry_bytes version (Start low capacity)) }
    ensures memory { IfErr result (λ why. why ≡ OutOfMemory) }
{
    let mut out = FramedBuilder::with_capacity(alloc, 15)?;
    out.push(1)?;
    out.put_u16(version.number())?;
    out.put_u64(low)?;
    out.put_u32(capacity)?;
    out.finish()
}

/// A run of these pages' mappings, numbered from `first` on. The only refusal is want of memory.
pub fn run_body(
    alloc: Global,
    version: Version,
    first: u64,
    pages: &[u32],
) -> Result<Framed, Refusal>
    requires fit { AllByRecursion (λ page. page < 256 ^ page_width version) pages.now }
    requires few { length pages.now ≤ RUN_PAGES }
    ensures body { IfOk result (λ framed. framed ≡ map_entry_bytes version (Run first pages.now)) }
    ensures count { IfOk result (λ framed. length framed ≡ 13 + page_width version * length pages.now) }
    ensures memory { IfErr result (λ why. why ≡ OutOfMemory) }
{
    let mut out = FramedBuilder::with_capacity(alloc, 13 + 4 * pages.len())?;
    out.push(2)?;
    out.put_u64(first)?;
    out.put_u32(pages.len() as u32)?;
    put_pages(version, pages, &mut out)?;
    out.finish()
}

/// A low mark: the mappings below that number are forgotten. The only refusal is want of memory.
pub fn low_body(alloc: Global, low: u64) -> Result<Framed, Refusal>
    ensures body { (version : ghosts.Version) → IfOk result (λ framed. framed ≡ map_entry_bytes version (Low low)) }
    ensures count { IfOk result (λ framed. length framed ≡ 9) }
    ensures memory { IfErr result (λ why. why ≡ OutOfMemory) }
{
    let mut out = FramedBuilder::with_capacity(alloc, 9)?;
    out.push(3)?;
    out.put_u64(low)?;
    out.finish()
}
