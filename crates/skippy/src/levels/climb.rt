//! How a scan climbs the levels.

ghost use Rattle.std.specs.Prelude.{◌≡◌, ℕ, ◌+◌, ◌-◌, ◌*◌, ◌≤◌, OnOk, OnErr, IfErr, length, min, take};
ghost use Rattle.skippy.specs.Bound.{different};
ghost use Rattle.skippy.specs.FirstTable.{meet};
ghost use Rattle.skippy.specs.Mappings.{end_of, first_mappings, pages_in};
ghost use Rattle.skippy.specs.Segments.{size_of, from_start, meet_each, climb_bound};
ghost use Rattle.skippy.specs.Steps.{AddsAtMost};

use super::Levels;
use crate::entries::{Entries, Steps};
use crate::first_table::FirstTable;
use crate::level::{Place, fan, range_of};
use retro_base::{MAX_CAPTURES, Refusal};
use std::sync::ledger::Ledger;

const HIGHEST: usize = 4;

impl Levels {
    /// Meets the mappings that entries `from..to` of a level cover: those of the next level where they cover whole
    /// ones of it, and its own at both ends. Where memory runs out the table keeps what it met until then.
    pub(super) fn climb<L: Ledger>(
        &self,
        height: usize,
        from: u64,
        to: u64,
        table: &mut FirstTable,
        steps: &mut Steps<L>,
    ) -> Result<(), Refusal>
        requires height { height ≤ 4 }
        requires kept { self.now.low ≤ from * size_of height }
        requires ordered { from ≤ to }
        requires known { to * size_of height ≤ end_of self.now }
        ensures ok { OnOk result (table.new
            ≡ meet table.old (first_mappings self.now (from * size_of height) (to * size_of height))) }
        ensures err { OnErr result (take (length table.old) table.new ≡ table.old) }
        ensures refused { IfErr result (λ e. e ≡ Refusal.OutOfMemory) }
        ensures cost { (count pages : ℕ) → to - from ≤ count
            → different (pages_in self.now (from * size_of height) (to * size_of height)) ≤ pages
            → AddsAtMost (climb_bound height count pages) steps.old steps.new }
    {
        if height == HIGHEST {
            return self.meet_entries(height, from, to, table, steps);
        }
        let fan = fan(height);
        let first = from.div_ceil(fan);
        let last = to / fan;
        if last < first {
            return self.meet_entries(height, from, to, table, steps);
        }
        self.meet_entries(height, from, first * fan, table, steps)?;
        self.climb(height + 1, first, last, table, steps)?;
        self.meet_entries(height, last * fan, to, table, steps)
    }

    /// Meets the mappings that entries `from..to` of a level cover, by reading these.
    fn meet_entries<L: Ledger>(
        &self,
        height: usize,
        from: u64,
        to: u64,
        table: &mut FirstTable,
        steps: &mut Steps<L>,
    ) -> Result<(), Refusal>
        requires height { height ≤ 4 }
        requires kept { self.now.low ≤ from * size_of height }
        requires ordered { from ≤ to }
        requires known { to * size_of height ≤ end_of self.now }
        ensures ok { OnOk result (table.new
            ≡ meet table.old (first_mappings self.now (from * size_of height) (to * size_of height))) }
        ensures err { OnErr result (take (length table.old) table.new ≡ table.old) }
        ensures refused { IfErr result (λ e. e ≡ Refusal.OutOfMemory) }
        ensures cost { (pages : ℕ)
            → different (pages_in self.now (from * size_of height) (to * size_of height)) ≤ pages
            → AddsAtMost ((to - from) * min (size_of height) pages) steps.old steps.new }
    {
        for index in from..to {
            self.meet_entry(height, index, table, steps)?;
        }
        Ok(())
    }

    /// Meets the mappings that an entry of a level covers: a mapping, or a segment.
    fn meet_entry<L: Ledger>(
        &self,
        height: usize,
        index: u64,
        table: &mut FirstTable,
        steps: &mut Steps<L>,
    ) -> Result<(), Refusal>
        requires height { height ≤ 4 }
        requires kept { self.now.low ≤ index * size_of height }
        requires known { (index + 1) * size_of height ≤ end_of self.now }
        ensures ok { OnOk result (table.new
            ≡ meet table.old (first_mappings self.now (index * size_of height) ((index + 1) * size_of height))) }
        ensures err { OnErr result (take (length table.old) table.new ≡ table.old) }
        ensures refused { IfErr result (λ e. e ≡ Refusal.OutOfMemory) }
        ensures cost { AddsAtMost
            (min (size_of height)
            (different (pages_in self.now (index * size_of height) ((index + 1) * size_of height))))
            steps.old steps.new }
    {
        if height == 0 {
            let page = self.pages.read((index - self.low) as usize, steps);
            return table.meet(page, index);
        }
        let size = range_of(height);
        let place = index - self.low.div_ceil(size);
        meet_segment(
            self.level(height).segment(place as usize),
            index * size,
            table,
            steps,
        )
    }
}

/// Meets the mappings of a segment that begins at `start`, one by one.
fn meet_segment<L: Ledger>(
    segment: &Entries<Place>,
    start: u64,
    table: &mut FirstTable,
    steps: &mut Steps<L>,
) -> Result<(), Refusal>
    requires { start ≤ MAX_CAPTURES }
    ensures ok { OnOk result (table.new ≡ meet_each table.old (from_start start segment.now)) }
    ensures err { OnErr result (take (length table.old) table.new ≡ table.old) }
    ensures refused { IfErr result (λ e. e ≡ Refusal.OutOfMemory) }
    ensures cost { AddsAtMost (length segment.now) steps.old steps.new }
{
    for index in 0..segment.len() {
        let (page, place) = segment.read(index, steps);
        table.meet(page, start + place as u64)?;
    }
    Ok(())
}
