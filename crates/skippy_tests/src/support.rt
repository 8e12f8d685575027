//! Calls of levels and of tables. Each stands in a function with no clause but those of its ledger, so that the tests
//! stay cheap to prove, and fails where a condition of the call does not hold.

ghost use Rattle.std.specs.Prelude.{◌≡◌};

use page_table::SnapTable;
use retro_base::{MAX_CAPTURES, Refusal};
use skippy::{FirstTable, Levels, Steps};
use std::alloc::Global;
use std::marker::Brand;
use std::sync::ledger::{Blank, Ledger};

/// Maps these pages behind the last.
pub fn push(levels: &mut Levels, pages: &[u32]) -> Result<(), Refusal> {
    let end = levels.end();
    if end > MAX_CAPTURES || pages.len() as u64 > MAX_CAPTURES - end {
        return Err(Refusal::BadSizes);
    }
    levels.push(pages)
}

/// Keeps the mappings from `low` on.
pub fn trim(levels: &mut Levels, low: u64) -> Result<(), Refusal> {
    if low < levels.low() || low > levels.end() {
        return Err(Refusal::BadSizes);
    }
    levels.trim(low);
    Ok(())
}

/// Mappings of pages 5 and 6 in turn, from number 0 on.
pub fn two_pages(alloc: Global, count: u32) -> Result<Levels, Refusal> {
    let mut levels = Levels::new(alloc, 0);
    for number in 0..count {
        push(&mut levels, &[5 + number % 2])?;
    }
    Ok(levels)
}

/// Scans with steps on a ledger of their own, that nobody looks at.
fn scan_on<L: Ledger>(
    blank: Blank,
    levels: &Levels,
    from: u64,
    to: u64,
    table: &mut FirstTable,
) -> Result<(), Refusal>
    requires name { blank.name ≡ L.name }
    requires parts { blank.parts ≡ L.parts }
    requires one_part { blank.parts ≡ 1 }
{
    if from < levels.low() || to < from || to > levels.end() {
        return Err(Refusal::BadSizes);
    }
    levels.scan(from, to, table, &mut Steps::<L>::new(blank))
}

/// The first mappings in `from..to`.
pub fn first_mappings(
    alloc: Global,
    levels: &Levels,
    from: u64,
    to: u64,
) -> Result<FirstTable, Refusal> {
    let mut table = FirstTable::new(alloc);
    scan_on::<Brand>(Blank::new(1), levels, from, to, &mut table)?;
    Ok(table)
}

/// Extends a table with steps on a ledger of their own, that nobody looks at.
fn extend_on<L: Ledger>(
    blank: Blank,
    table: &mut SnapTable,
    levels: &Levels,
    upto: u64,
) -> Result<(), Refusal>
    requires name { blank.name ≡ L.name }
    requires parts { blank.parts ≡ L.parts }
    requires one_part { blank.parts ≡ 1 }
{
    if table.covered() < levels.low() || upto > levels.end() {
        return Err(Refusal::BadSizes);
    }
    table.extend(levels, upto, &mut Steps::<L>::new(blank))
}

/// Covers the mappings up to `upto`.
pub fn extend(table: &mut SnapTable, levels: &Levels, upto: u64) -> Result<(), Refusal> {
    extend_on::<Brand>(Blank::new(1), table, levels, upto)
}
