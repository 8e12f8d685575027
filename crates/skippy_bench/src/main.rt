//! What a scan of a history reads, by the history's length: each mapping, or the segments of the levels; and whether
//! both find the same.
//! With no words small runs, and one as long as an archive keeps mappings at most; then levels that forget mappings one
//! by one while they grow to that many. With a history and a length, as `skewed 262144`, that many mappings are pushed
//! by batches of 64; with a third word, a number, both scans are made from it on; with a fourth, `levels` or `plain`,
//! that one alone. With `growing` and a number levels grow to that many.
#![tactic(auto)]

ghost use Rattle.std.specs.Prelude.{◌≡◌, ◌≤◌};
ghost use Rattle.skippy.specs.Mappings.{end_of};

mod entries;
mod histories;
mod plain;
mod upkeep;

use entries::entries_read;
use histories::{History, pages_of};
use indexmap::IndexMap;
use page_table::SnapTable;
use plain::first_numbers;
use retro_base::{MAX_CAPACITY, Refusal};
use skippy::{Levels, Steps};
use std::alloc::Global;
use std::env;
use std::env::Env;
use std::marker::Brand;
use std::process::ExitCode;
use std::sync::ledger::{Blank, Ledger};
use upkeep::two_for_one;

const BATCH: usize = 64;

const PAGES: u32 = 65_536;

/// The levels of a history, pushed batch by batch. No more than the most mappings are kept.
fn levels_of(alloc: Global, pages: &[u32]) -> Result<Levels, Refusal> {
    let mut levels = Levels::new(alloc, 0);
    for batch in pages.chunks(BATCH) {
        if levels.end() > 1 << 32 {
            return Err(Refusal::BadSizes);
        }
        levels.push(batch)?;
        let low = levels.end().saturating_sub(u64::from(MAX_CAPACITY));
        if levels.low() < low {
            levels.trim(low);
        }
    }
    Ok(levels)
}

/// The table of a snapshot that starts there.
fn table_of<L: Ledger>(
    blank: Blank,
    alloc: Global,
    levels: &Levels,
    start: u64,
) -> Result<SnapTable, Refusal>
    requires name { blank.name ≡ L.name }
    requires parts { blank.parts ≡ L.parts }
    requires one_part { blank.parts ≡ 1 }
{
    if start < levels.low() || levels.end() < start {
        return Err(Refusal::BadSizes);
    }
    let mut table = SnapTable::new(alloc, start);
    table.extend(levels, levels.end(), &mut Steps::<L>::new(blank))?;
    Ok(table)
}

/// Whether a table from `start` on has each page's number as a plain scan does.
fn is_as_plain(alloc: Global, levels: &Levels, pages: &[u32], start: u32) -> Result<bool, Refusal> {
    let table = table_of::<Brand>(Blank::new(1), alloc, levels, u64::from(start))?;
    let numbers = first_numbers(alloc, pages, start as usize)?;
    Ok(has_these(&table, &numbers))
}

fn has_these(table: &SnapTable, numbers: &IndexMap<u32, u64>) -> bool {
    (0..PAGES).all(|page| table.find(page) == numbers.get(&page).copied())
}

/// Whether the levels keep these pages, but for those that they forgot.
fn are_kept(levels: &Levels, pages: &[u32]) -> Result<bool, Refusal> {
    let low = levels.low();
    let kept = levels.pages_from(low)?;
    Ok(pages.get(low as usize..) == Some(kept.as_slice()))
}

/// Whether the levels of these pages keep them, and a table from `start` on is as a plain scan's.
fn is_same(alloc: Global, pages: &[u32], start: u32) -> Result<bool, Refusal> {
    let levels = levels_of(alloc, pages)?;
    if !are_kept(&levels, pages)? {
        return Ok(false);
    }
    is_as_plain(alloc, &levels, pages, start)
}

/// What a scan of a history from `start` on reads: each mapping, or by the levels; and whether both find the same.
struct Cost {
    plain: usize,
    levels: usize,
    same: bool,
}

fn cost_of(alloc: Global, history: History, length: u32, start: u32) -> Result<Cost, Refusal> {
    let pages = pages_of(alloc, history, length)?;
    let same = is_same(alloc, &pages, start)?;
    Ok(Cost {
        plain: pages.len().saturating_sub(start as usize),
        levels: entries_read(alloc, &pages, start as usize)?,
        same,
    })
}

fn tell(rt: &(impl Print + AllocGlobal), name: &str, length: u32, start: u32) -> Option<()> {
    let history = History::named(name)?;
    let Cost {
        plain,
        levels,
        same,
    } = cost_of(rt.alloc(), history, length, start).ok()?;
    let found = if same { "the same" } else { "others" };
    println!(rt;
        "{name} {length} from {start}: {plain} entries plain, {levels} by the levels, {found} found"
    ).ok()
}

/// How many pages such a scan of these mappings finds from `start` on; of the levels it asks for the first page alone.
fn found_by(alloc: Global, scan: &str, pages: &[u32], start: u32) -> Result<usize, Refusal> {
    if scan == "plain" {
        return Ok(first_numbers(alloc, pages, start as usize)?.len());
    }
    let levels = levels_of(alloc, pages)?;
    let table = table_of::<Brand>(Blank::new(1), alloc, &levels, u64::from(start))?;
    Ok(usize::from(table.find(0).is_some()))
}

/// Levels that grow to so many mappings while they forget others.
fn tell_upkeep(rt: &(impl Print + AllocGlobal), kept: u32) -> Option<()> {
    let (low, end) = two_for_one(rt.alloc(), kept).ok()?;
    println!(rt; "two mapped for each forgotten: {low} to {end} kept").ok()
}

/// What the words ask for; nothing where they ask for nothing known, or memory runs out.
fn run(rt: &(impl Print + AllocGlobal), words: &[String]) -> Option<()> {
    match words {
        [] => {
            for name in ["different", "repeated", "skewed"] {
                tell(rt, name, 8_192, 0)?;
                tell(rt, name, 8_192, 100)?;
            }
            // Five segments of the highest level, of which four are kept.
            tell(rt, "skewed", 1_310_720, 262_244)?;
            tell_upkeep(rt, MAX_CAPACITY)
        }
        [name, kept] if name.as_str() == "growing" => {
            let (low, end) = two_for_one(rt.alloc(), kept.parse().ok()?).ok()?;
            println!(rt; "{low} to {end} kept").ok()
        }
        [name, length] => {
            let history = History::named(name)?;
            let pages = pages_of(rt.alloc(), history, length.parse().ok()?).ok()?;
            let end = levels_of(rt.alloc(), &pages).ok()?.end();
            println!(rt; "{end} pushed").ok()
        }
        [name, length, start] => tell(rt, name, length.parse().ok()?, start.parse().ok()?),
        [name, length, start, scan] => {
            let history = History::named(name)?;
            let pages = pages_of(rt.alloc(), history, length.parse().ok()?).ok()?;
            let found = found_by(rt.alloc(), scan, &pages, start.parse().ok()?).ok()?;
            println!(rt; "{found} found").ok()
        }
        _ => None,
    }
}

// The words behind the program's own name; none where they are not all text, or memory runs out.
fn words(rt: &(impl Env + AllocGlobal)) -> Vec<String> {
    if let Ok(words) = env::args(rt)
        && let Ok(words) = words.skip(1).collect(rt.alloc())
    {
        return words;
    }
    Vec::new(rt.alloc())
}

fn main(rt: HostRuntime) -> ExitCode {
    let words = words(&rt);
    match run(&rt, words.as_slice()) {
        Some(()) => ExitCode::SUCCESS,
        None => ExitCode::FAILURE,
    }
}
