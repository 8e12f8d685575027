//! Whether the log and the Maplog belong together.

ghost use Rattle.std.specs.Prelude.{◌≡◌, ◌+◌, ◌≤◌, ◌<◌, ◌↔◌, ◌&&◌, false, ℕ, List, IsTrue, IfOk, length, get_or};
ghost use Rattle.std.specs.List.{AllByRecursion};
ghost use Rattle.history.specs.Right.{IsBase};
ghost use Rattle.history.specs.Writes.{is_among};
ghost use Rattle.skippy.specs.Mappings.{end_of};
ghost use Rattle.replay.specs.Joined.{are_among, begins_with, differ, mapped_since, HoldsBase, HoldsChanges};

use history::{Base, RunningBase, newest_start, oldest_start};
use skippy::Mappings;
use std::alloc::{AllocError, Global};

// A table by page that tells which pages these are.
fn table_of(alloc: Global, page_count: u32, pages: &[u32]) -> Result<Vec<bool>, AllocError>
    requires { AllByRecursion (λ page. page < page_count) pages.now }
    ensures { IfOk result (λ table. (page : ℕ) → get_or table.items page false ≡ is_among page pages.now) }
{
    let mut table = vec![in alloc; false; page_count as usize]?;
    for page in pages {
        table[*page as usize] = true;
    }
    Ok(table)
}

// Whether these pages are different, and each of them one that the table has.
fn meets_each_once(mut table: Vec<bool>, pages: &[u32]) -> bool
    ensures { (others : List ℕ) → ((page : ℕ) → get_or table.items page false ≡ is_among page others) →
        result ≡ (differ pages.now && are_among pages.now others) }
{
    for page in pages {
        let place = *page as usize;
        if place >= table.len() || !table[place] {
            return false;
        }
        table[place] = false;
    }
    true
}

// Whether the captures begin with these pages.
fn begin_with(pages: &[u32], captured: &[u32]) -> bool
    ensures { result ≡ begins_with pages.now captured.now }
{
    if captured.len() < pages.len() {
        return false;
    }
    for (i, page) in pages.iter().enumerate() {
        if captured[i] != *page {
            return false;
        }
    }
    true
}

// The kept mappings from the newest snapshot of the base on, up to its captures.
fn mapped_since<'a>(base: &Base, mappings: &'a Mappings) -> &'a [u32]
    ensures { result.now ≡ mapped_since base.now mappings.now }
{
    let pages = mappings.pages();
    let low = mappings.low();
    let end = base.captures.saturating_sub(low).min(pages.len() as u64) as usize;
    let start = newest_start(base.marks.as_slice())
        .saturating_sub(low)
        .min(end as u64) as usize;
    &pages[start..end]
}

/// Whether the mappings fit the base: the archive holds the captures before it and keeps at most the capacity, and
/// those since the base's newest snapshot are of different pages, each of which the base tells as captured. It takes a
/// byte for each page of the store, and a step for each mapping.
pub fn holds_base(alloc: Global, base: &Base, mappings: &Mappings) -> Result<bool, AllocError>
    requires { IsBase base.now }
    ensures { IfOk result (λ holds. IsTrue holds ↔ HoldsBase base.now mappings.now) }
{
    let kept = mappings.pages().len() as u64;
    if mappings.end() < base.captures || kept > u64::from(base.capacity) {
        return Ok(false);
    }
    let table = table_of(alloc, base.page_count, base.captured.as_slice())?;
    Ok(meets_each_once(table, mapped_since(base, mappings)))
}

/// Whether the mappings fit the changes behind a base with that count of captures: the archive holds no more captures
/// than there are behind the changes, keeps each that a retained snapshot needs, and from the base on maps the pages
/// that the changes captured. These are told by their pages alone. It takes a step for each mapping, and no memory.
pub fn holds_changes(
    count: u64,
    behind: &RunningBase,
    captured: &[u32],
    mappings: &Mappings,
) -> bool
    requires counted { count ≤ end_of mappings.now }
    requires captured { behind.now.captures ≡ count + length captured.now }
    ensures { IsTrue result ↔ HoldsChanges count behind.now captured.now mappings.now }
{
    let low = mappings.low();
    if mappings.end() > behind.captures() || low > oldest_start(behind.marks()) {
        return false;
    }
    let mapped = &mappings.pages()[count.saturating_sub(low) as usize..];
    begin_with(mapped, &captured[low.saturating_sub(count) as usize..])
}
