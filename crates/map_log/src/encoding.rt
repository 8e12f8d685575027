//! Mappings as a whole Maplog.

ghost use Rattle.std.specs.Prelude.{◌≡◌, ◌+◌, ◌<◌, ◌^◌, length, IfOk, IfErr};
ghost use Rattle.std.specs.List.{AllByRecursion};
ghost use Rattle.retro_base.specs.declared.refusal.Refusal.TheVariants.{OutOfMemory};
ghost use Rattle.records.specs.Entries.{page_width};
ghost use Rattle.map_log.specs.Bodies.{maplog_bodies};

use gate_log::Framed;
use history::Version;
use records::{RUN_PAGES, run_body, start_body};
use retro_base::Refusal;
use std::alloc::Global;

/// A start with that capacity, and runs of these pages' mappings, numbered from `low` on. The only refusal is want of
/// memory.
pub fn maplog_bodies(
    alloc: Global,
    version: Version,
    capacity: u32,
    low: u64,
    pages: &[u32],
) -> Result<Vec<Framed>, Refusal>
    requires fit { AllByRecursion (λ page. page < 256 ^ page_width version) pages.now }
    requires end { low + length pages.now < 2 ^ 64 }
    ensures bodies { IfOk result (λ bodies. bodies.items ≡ maplog_bodies version capacity low pages.now) }
    ensures memory { IfErr result (λ why. why ≡ OutOfMemory) }
{
    let run = RUN_PAGES as usize;
    let count = pages.len().div_ceil(run);
    let mut bodies = Vec::new(alloc);
    bodies.push(start_body(alloc, version, capacity, low)?)?;
    for index in 0..count {
        let from = index * run;
        let to = pages.len().min(from + run);
        bodies.push(run_body(alloc, version, low + from as u64, &pages[from..to])?)?;
    }
    Ok(bodies)
}
