//! Which records are right at their place.

ghost use Rattle.std.specs.Prelude.{◌≡◌, ◌≤◌, ◌<◌, ◌-◌, ◌^◌, ◌↔◌, IsTrue, length};
ghost use Rattle.std.specs.List.{AllByRecursion};
ghost use Rattle.history.specs.Marks.{newest_start, oldest_start, AreMarks};
ghost use Rattle.history.specs.Writes.{rises};
ghost use Rattle.history.specs.History.{declared};
ghost use Rattle.history.specs.declared.entry.Change.TheVariants.{Commit};
ghost use Rattle.history.specs.Right.{IsWithinLimits, IsBase, DoesSomething, IsRight};

use crate::entry::{Base, Change, Mark, newest, newest_start, oldest, oldest_start};
use crate::label::Label;
use crate::running::RunningBase;
use crate::writes::PageImage;
use retro_base::{
    MAX_CAPACITY, MAX_CAPTURES, MAX_PAGES, MIN_CAPACITY, MIN_PAGES, RETAINED_SNAPSHOTS,
};

fn rise(pages: &[u32]) -> bool
    ensures { result ≡ rises 0 pages.now }
{
    let mut least = 0;
    for page in pages {
        if u64::from(*page) < least {
            return false;
        }
        least = u64::from(*page) + 1;
    }
    true
}

/// Whether these are pages of a store of that many. It takes a step for each.
pub fn are_pages(page_count: u32, pages: &[u32]) -> bool
    ensures { IsTrue result ↔ AllByRecursion (λ page. page < page_count) pages.now }
{
    pages.iter().all(|page| *page < page_count)
}

fn are_in_store(page_count: u32, writes: &[PageImage]) -> bool
    ensures { IsTrue result ↔ AllByRecursion (λ write. write.page < page_count) writes.now }
{
    writes.iter().all(|write| write.page < page_count)
}

// Whether the numbers rise, and the starts do not fall, up to this count of captures.
fn are_marks(captures: u64, marks: &[Mark]) -> bool
    ensures { IsTrue result ↔ AreMarks captures marks.now }
{
    let mut number = 0;
    let mut start = 0;
    for mark in marks {
        if mark.number <= number || mark.start < start {
            return false;
        }
        number = mark.number;
        start = mark.start;
    }
    start <= captures
}

fn within_limits(capacity: u32, captures: u64, start: u64, retained: u64, number: u64) -> bool
    ensures { IsTrue result ↔ (captures ≤ MAX_CAPTURES) × (captures - start ≤ capacity) ×
        (retained ≤ RETAINED_SNAPSHOTS) × (number < 2 ^ 32) }
{
    captures <= MAX_CAPTURES
        && captures.saturating_sub(start) <= u64::from(capacity)
        && retained <= u64::from(RETAINED_SNAPSHOTS)
        && number <= u64::from(u32::MAX)
}

fn has_sizes(base: &Base) -> bool
    ensures { IsTrue result ↔ ((MIN_PAGES ≤ base.now.page_count) × (base.now.page_count ≤ MAX_PAGES)) ×
        ((MIN_CAPACITY ≤ base.now.capacity) × (base.now.capacity ≤ MAX_CAPACITY)) }
{
    (MIN_PAGES..=MAX_PAGES).contains(&base.page_count)
        && (MIN_CAPACITY..=MAX_CAPACITY).contains(&base.capacity)
}

fn has_captured(base: &Base) -> bool
    ensures { IsTrue result ↔ IsTrue (rises 0 base.now.captured) ×
        AllByRecursion (λ page. page < base.now.page_count) base.now.captured ×
        (length base.now.captured ≡ base.now.captures - newest_start base.now.marks) }
{
    let captured = base.captured.as_slice();
    if !rise(captured) {
        return false;
    }
    let count = base
        .captures
        .saturating_sub(newest_start(base.marks.as_slice()));
    are_pages(base.page_count, captured) && captured.len() as u64 == count
}

/// Whether a base is right: its sizes are in their ranges and it keeps the limits, the numbers of its snapshots
/// rise, their starts do not fall and none is greater than its count of captures, there is no capture before the
/// first snapshot, and as many pages are captured as there are captures since the newest one.
pub fn is_base(base: &Base) -> bool
    ensures { IsTrue result ↔ IsBase base.now }
{
    let marks = base.marks.as_slice();
    let start = oldest_start(marks);
    let number = u64::from(newest(marks));
    has_sizes(base)
        && within_limits(
            base.capacity,
            base.captures,
            start,
            marks.len() as u64,
            number,
        )
        && are_marks(base.captures, marks)
        && (!marks.is_empty() || base.captures == 0)
        && has_captured(base)
}

fn does_something(label: &Option<Label>, writes: &[PageImage]) -> bool
    ensures { IsTrue result ↔ DoesSomething label.now writes.now }
{
    label.is_some() || !writes.is_empty()
}

/// The start of the oldest snapshot behind a commit that leaves this count of captures.
pub fn oldest_start_behind(captures: u64, marks: &[Mark], label: &Option<Label>) -> u64
    ensures { result ≡ oldest_start (declared marks.now captures label.now) }
{
    match (label, marks) {
        (Some(_), []) => captures,
        _ => oldest_start(marks),
    }
}

// Whether the limits hold behind a commit that leaves this count of captures.
fn keeps_limits(capacity: u32, captures: u64, marks: &[Mark], label: &Option<Label>) -> bool
    ensures { IsTrue result ↔ IsWithinLimits capacity captures (declared marks.now captures label.now) }
{
    let start = oldest_start_behind(captures, marks, label);
    let more = u64::from(label.is_some());
    let number = u64::from(newest(marks)) + more;
    within_limits(capacity, captures, start, marks.len() as u64 + more, number)
}

fn is_right_commit(base: &RunningBase, label: &Option<Label>, writes: &[PageImage]) -> bool
    ensures { IsTrue result ↔ IsRight base.now (Commit label.now writes.now) }
{
    let count = base.captured_count(writes) as u64;
    let Some(captures) = base.captures().checked_add(count) else {
        return false;
    };
    if !are_in_store(base.page_count(), writes) {
        return false;
    }
    does_something(label, writes) && keeps_limits(base.capacity(), captures, base.marks(), label)
}

impl RunningBase {
    /// Whether a change is right there. A commit writes pages of the store, or declares, and leaves at most 2^62
    /// captures, at most the capacity from the oldest snapshot's start on, and at most 65,536 snapshots, numbered up
    /// to 4,294,967,295. A drop is of some snapshots, but not of the newest. It takes a step for each write.
    pub fn is_right(&self, change: &Change) -> bool
        ensures { IsTrue result ↔ IsRight self.now change.now }
    {
        match change {
            Change::Commit { label, writes } => is_right_commit(self, label, writes.images()),
            Change::Drop { below } => {
                let marks = self.marks();
                oldest(marks) < *below && *below <= newest(marks)
            }
        }
    }
}
