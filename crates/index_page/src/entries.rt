//! What adding and taking out make of the entries of a page.

ghost use Rattle.std.specs.Prelude.{◌≡◌, ◌≤◌, ◌++◌, ◌&&◌, not, IfOk, OnOk, length, position};
ghost use Rattle.std.specs.Ordering.{is_eq, is_gt, is_lt};
ghost use Rattle.values.specs.Value.{value_cmp};
ghost use Rattle.pager.specs.Index.{between, found_cmp, same_found};
ghost use Rattle.index_page.specs.Entries.{entry_inserted, is_behind, is_past, entry_place, taken_out};

use pager::{Found, compare_found, compare_values};
use std::alloc::{AllocError, AllocFailed, Global};
use std::cmp::Ordering;
use values::{Duplicate, Seq, Value};

/// Whether an entry is below another.
pub fn is_below(a: &Found, b: &Found) -> bool
    ensures { result ≡ is_lt (found_cmp a.now b.now) }
{
    compare_found(a, b) == Ordering::Less
}

// Whether two entries are of one value and row number.
fn is_like(a: &Found, b: &Found) -> bool
    ensures { result ≡ is_eq (found_cmp a.now b.now) }
{
    compare_found(a, b) == Ordering::Equal
}

// Whether two entries are one.
fn is_same(a: &Found, b: &Found) -> bool
    ensures { result ≡ same_found a.now b.now }
{
    is_like(a, b) && a.page == b.page
}

// Where the first entry stands that is not below another.
fn first_behind(entries: &[Found], entry: &Found) -> Option<usize>
    ensures { result ≡ position (is_behind entry.now) entries.now }
{
    entries.iter().position(|found| !is_below(found, entry))
}

/// The place of an entry: that of the first one that is not below it, or the end.
pub fn place_of(entries: &[Found], entry: &Found) -> usize
    ensures place { result ≡ entry_place entry.now entries.now }
    ensures among { result ≤ length entries.now }
{
    first_behind(entries, entry).unwrap_or(entries.len())
}

/// A copy of an entry.
pub fn copy_of(alloc: Global, found: &Found) -> Result<Found, AllocError>
    ensures { IfOk result (λ copy. copy ≡ found.now) }
{
    let value = found.value.copy(alloc)?;
    Ok(Found {
        value,
        number: found.number,
        page: found.page,
    })
}

// Drops an entry.
fn discard(_found: Found) {}

/// The entries with one more at its place, where an entry of its value and row number gives way to it.
pub fn insert(entries: Seq<Found>, entry: Found) -> Result<Seq<Found>, AllocFailed<Found>>
    ensures { IfOk result (λ after. after ≡ entry_inserted entry entries) }
{
    let mut entries = Vec::from(entries);
    let place = place_of(&entries, &entry);
    if place < entries.len() && is_like(&entries[place], &entry) {
        discard(entries.remove(place));
        entries.insert(place, entry)?;
        return Ok(Seq::from(entries));
    }
    entries.insert(place, entry)?;
    Ok(Seq::from(entries))
}

/// The entries without one, where it stands at its place.
pub fn take_out(entries: Seq<Found>, entry: &Found) -> Seq<Found>
    ensures { result ≡ taken_out entry.now entries }
{
    let mut entries = Vec::from(entries);
    let place = place_of(&entries, entry);
    if place < entries.len() && is_same(&entries[place], entry) {
        discard(entries.remove(place));
        return Seq::from(entries);
    }
    Seq::from(entries)
}

// Whether a value is above another.
fn is_above(a: &Value, b: &Value) -> bool
    ensures { result ≡ is_gt (value_cmp a.now b.now) }
{
    compare_values(a, b) == Ordering::Greater
}

// Whether an entry's value is at least `low` and at most `high`.
fn is_between(found: &Found, low: &Value, high: &Value) -> bool
    ensures { result
        ≡ (not (is_lt (value_cmp found.now.value low.now)) && not (is_gt (value_cmp found.now.value high.now))) }
{
    compare_values(&found.value, low) != Ordering::Less && !is_above(&found.value, high)
}

/// Whether some entry's value is above this one.
pub fn is_past(entries: &[Found], high: &Value) -> bool
    ensures { result ≡ is_past high.now entries.now }
{
    for found in entries {
        if is_above(&found.value, high) {
            return true;
        }
    }
    false
}

/// Appends the entries whose value is at least `low` and at most `high`.
pub fn select(
    entries: Seq<Found>,
    low: &Value,
    high: &Value,
    out: &mut Vec<Found>,
) -> Result<(), AllocError>
    ensures { OnOk result (out.new.items ≡ out.old.items ++ between low.now high.now entries) }
{
    let mut entries = Vec::from(entries);
    entries.retain(|found| is_between(found, low, high));
    out.append(&mut entries)
}
