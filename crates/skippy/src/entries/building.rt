//! The segments that new mappings complete. To build them takes no step: no scan reads these entries.

ghost use Rattle.std.specs.Prelude.{◌≡◌, ◌+◌, ◌-◌, ◌*◌, ◌<◌, ◌≤◌, ◌++◌, Some, OnOk};
ghost use Rattle.std.specs.Prelude.{IfOk, IfErr, IfSome, length, slice_get};
ghost use Rattle.skippy.specs.FirstTable.{meet};
ghost use Rattle.skippy.specs.Mappings.{coming, end_of, first_mappings};
ghost use Rattle.skippy.specs.Segments.{size_of, from_start, meet_each, IsLevel};

use super::Entries;
use crate::first_table::FirstTable;
use crate::level::{Level, Place, fan, range_of};
use retro_base::{MAX_CAPTURES, Refusal};
use std::alloc::Global;

/// Completes a level for the mappings from `low` on with more pages: what is missing stands behind its segments then.
/// They are built from those of the level below, which is complete already, or for level 1 from the pages.
/// Where memory runs out the level is still one of the mappings without the new pages.
pub(crate) fn complete(
    level: &mut Level,
    height: usize,
    below: Option<&Level>,
    alloc: Global,
    low: u64,
    pages: &Entries<u32>,
    more: &[u32],
) -> Result<(), Refusal>
    requires height { (1 ≤ height) × (height ≤ 4) }
    requires room { low + length pages.now + length more.now ≤ MAX_CAPTURES }
    requires is_level { IsLevel (record { low = low; pages = pages.now }) (size_of height) level.old }
    requires complete_below { IfSome below (λ l.
        IsLevel (coming low pages.now more.now) (size_of (height - 1)) l.now) }
    ensures still { IsLevel (record { low = low; pages = pages.now }) (size_of height) level.new }
    ensures ok { OnOk result (IsLevel (coming low pages.now more.now) (size_of height) level.new) }
    ensures refused { IfErr result (λ e. e ≡ Refusal.OutOfMemory) }
{
    let size = range_of(height);
    let end = low + pages.len() as u64;
    let base = low.div_ceil(size);
    let known = base.max(end / size);
    level.truncate((known - base) as usize);
    for index in known..(end + more.len() as u64) / size {
        let segment = segment_of(height, index, below, alloc, low, pages, more)?;
        level.push(segment)?;
    }
    Ok(())
}

/// A segment: the first mapping of each page in its range.
fn segment_of(
    height: usize,
    index: u64,
    below: Option<&Level>,
    alloc: Global,
    low: u64,
    pages: &Entries<u32>,
    more: &[u32],
) -> Result<Entries<Place>, Refusal>
    requires height { (1 ≤ height) × (height ≤ 4) }
    requires kept { low ≤ index * size_of height }
    requires known { (index + 1) * size_of height ≤ end_of (coming low pages.now more.now) }
    requires room { end_of (coming low pages.now more.now) ≤ MAX_CAPTURES }
    requires complete_below { IfSome below (λ l.
        IsLevel (coming low pages.now more.now) (size_of (height - 1)) l.now) }
    ensures ok { IfOk result (λ segment. from_start (index * size_of height) segment
        ≡ first_mappings (coming low pages.now more.now)
        (index * size_of height) ((index + 1) * size_of height)) }
    ensures refused { IfErr result (λ e. e ≡ Refusal.OutOfMemory) }
{
    let table = table_of(height, index, below, alloc, low, pages, more)?;
    Ok(table.to_places(alloc, index * range_of(height))?)
}

/// The first mappings of a segment's range: of its pages, or of the segments below that it covers.
fn table_of(
    height: usize,
    index: u64,
    below: Option<&Level>,
    alloc: Global,
    low: u64,
    pages: &Entries<u32>,
    more: &[u32],
) -> Result<FirstTable, Refusal>
    requires height { (1 ≤ height) × (height ≤ 4) }
    requires kept { low ≤ index * size_of height }
    requires known { (index + 1) * size_of height ≤ end_of (coming low pages.now more.now) }
    requires room { end_of (coming low pages.now more.now) ≤ MAX_CAPTURES }
    requires complete_below { IfSome below (λ l.
        IsLevel (coming low pages.now more.now) (size_of (height - 1)) l.now) }
    ensures ok { IfOk result (λ table. table
        ≡ first_mappings (coming low pages.now more.now)
        (index * size_of height) ((index + 1) * size_of height)) }
    ensures refused { IfErr result (λ e. e ≡ Refusal.OutOfMemory) }
{
    let mut table = FirstTable::new(alloc);
    match below {
        None => {
            let size = range_of(height);
            for number in index * size..(index + 1) * size {
                let page = page_at(pages, more, (number - low) as usize);
                table.meet(page, number)?;
            }
        }
        Some(level) => {
            let (fan, size) = (fan(height - 1), range_of(height - 1));
            for part in index * fan..(index + 1) * fan {
                let place = part - low.div_ceil(size);
                meet_places(&mut table, level.segment(place as usize), part * size)?;
            }
        }
    }
    Ok(table)
}

/// The page at this place of two lists, one behind the other.
fn page_at(pages: &Entries<u32>, more: &[u32], place: usize) -> u32
    requires { place < length (pages.now ++ more.now) }
    ensures { slice_get (pages.now ++ more.now) place ≡ Some result }
{
    match pages.items.get(place) {
        Some(page) => *page,
        None => more[place - pages.items.len()],
    }
}

/// Meets the mappings of a segment that begins at `start`.
fn meet_places(table: &mut FirstTable, segment: &Entries<Place>, start: u64) -> Result<(), Refusal>
    requires { start ≤ MAX_CAPTURES }
    ensures ok { OnOk result (table.new ≡ meet_each table.old (from_start start segment.now)) }
    ensures refused { IfErr result (λ e. e ≡ Refusal.OutOfMemory) }
{
    for index in 0..segment.items.len() {
        let (page, place) = segment.items[index];
        table.meet(page, start + place as u64)?;
    }
    Ok(())
}
