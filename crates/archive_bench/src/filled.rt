//! Archives that are filled, and compared with a plain list.

ghost use Rattle.std.specs.Prelude.{◌≡◌};

use crate::captures::{PAGES, are_pages_from, mappings_of, refill, wanted};
use crate::slim::Slim;
use archive_tests::{Trial, make};
use disk_model::Sizes;
use race_model::{Batch, Fault};
use retro_base::Refusal;
use std::alloc::Global;
use std::marker::Brand;
use std::sync::ledger::{Blank, Ledger};

/// The captures of a full batch.
pub const BATCH: u64 = 64;

fn sizes(slots: u32) -> Sizes {
    Sizes {
        pages: PAGES,
        capacity: slots,
    }
}

/// An archive of so many slots, without a capture. Of so many bytes of an image the first is kept.
pub fn empty(alloc: Global, slots: u32, grain: u64) -> Result<Trial<Slim>, Refusal> {
    let sizes = sizes(slots);
    let pagelog = Slim::new(alloc, sizes.pagelog_bytes(), grain)?;
    let mut maplog = Slim::new(alloc, sizes.maplog_bytes(), 1)?;
    make(alloc, &mut maplog, sizes)?;
    Trial::open(alloc, pagelog, maplog, sizes)
}

/// Lays and enters a batch.
fn send(trial: &mut Trial<Slim>, batch: &Batch) -> Result<(), Fault> {
    trial.lay(batch)?;
    trial.enter(batch)?;
    Ok(())
}

/// Sends so many batches, of so many captures each. As many are kept as there are slots.
pub fn fill(
    alloc: Global,
    trial: &mut Trial<Slim>,
    slots: u32,
    batches: u64,
    count: u64,
) -> Result<(), Refusal> {
    let mut batch = Batch::new(alloc)?;
    for _ in 0..batches {
        let first = trial.held();
        let low = first.saturating_add(count).saturating_sub(u64::from(slots));
        refill(&mut batch, first, count, low);
        match send(trial, &batch) {
            Ok(()) => {}
            Err(fault) => return Err(fault.why),
        }
    }
    Ok(())
}

/// Forgets so many mappings so often.
pub fn trim(trial: &mut Trial<Slim>, times: u64, count: u64) -> Result<(), Refusal> {
    for _ in 0..times {
        if let Err(fault) = trial.trim(trial.low().saturating_add(count)) {
            return Err(fault.why);
        }
    }
    Ok(())
}

/// Whether the archive keeps exactly the mappings of its captures, and finds each page's first from `from` on, among
/// all and among the first half of them.
pub fn is_as_plain(alloc: Global, trial: &mut Trial<Slim>, from: u64) -> Result<bool, Refusal> {
    let (low, held) = (trial.low(), trial.held());
    let half = held.saturating_sub(held.saturating_sub(low) / 2);
    Ok(
        keeps_these(alloc, trial)?
            && finds_these(alloc, trial, from, held)?
            && finds_these(alloc, trial, from, half)?,
    )
}

/// Whether it keeps exactly the mappings of its captures.
fn keeps_these(alloc: Global, trial: &Trial<Slim>) -> Result<bool, Refusal> {
    let (low, held) = (trial.low(), trial.held());
    let mappings = trial.mappings()?;
    if mappings.as_slice() != mappings_of(alloc, low, held)?.as_slice() {
        return Ok(false);
    }
    let kept = trial.kept()?;
    Ok((kept.low(), kept.end()) == (low, held) && are_pages_from(kept.pages(), low))
}

/// Whether it finds each page's first capture from `from` on and below `upto` as a plain list does.
fn finds_these(
    alloc: Global,
    trial: &mut Trial<Slim>,
    from: u64,
    upto: u64,
) -> Result<bool, Refusal> {
    let wanted = wanted(alloc, from, upto)?;
    find_each::<Brand>(Blank::new(1), alloc, trial, (from, upto), &wanted)
}

/// Whether each page's first capture from the one number on and below the other has that byte, or there is none, in a
/// table that covers all.
pub fn find_each<L: Ledger>(
    blank: Blank,
    alloc: Global,
    trial: &mut Trial<Slim>,
    range: (u64, u64),
    wanted: &[(u32, Option<u8>)],
) -> Result<bool, Refusal>
    requires name { blank.name ≡ L.name }
    requires parts { blank.parts ≡ L.parts }
    requires one_part { blank.parts ≡ 1 }
{
    let covered = trial.held();
    match trial.finds_each::<L>(alloc, blank, range, covered, wanted) {
        Ok(found) => Ok(found),
        Err(fault) => Err(fault.why),
    }
}

/// The archive of these devices, opened again.
pub fn again(alloc: Global, trial: Trial<Slim>, slots: u32) -> Result<Trial<Slim>, Refusal> {
    let (pagelog, maplog) = trial.into_disks();
    Trial::open(alloc, pagelog, maplog, sizes(slots))
}
