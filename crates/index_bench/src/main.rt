//! Indexes of a thousand entries: added in order, backwards and shuffled, half of them taken out again, each call of
//! the pager failing in turn, and damaged pages.
#![tactic(auto)]

mod damage;
mod keys;

use damage::{damaged_places, tree_places};
use keys::{Kept, failing_calls, kept_of, numbers_of, reads_of, texts_kept};
use pager::{Index, Stop};
use retro_base::Failed;
use run_index::RunIndex;
use std::alloc::Global;
use std::process::ExitCode;
use tree_index::TreeIndex;

const ROWS: u32 = 10_000;

// What an index of each kind gives.
#[derive(Drop)]
struct Told {
    numbers: Vec<u64>,
    left: Vec<u64>,
    kept: Vec<Kept>,
    texts: Kept,
    failing: u64,
    places: Vec<u64>,
    trees: Vec<u64>,
}

fn told_of<I: Index>(alloc: Global) -> Result<Told, Stop<Failed>> {
    let (numbers, left) = numbers_of::<I>(alloc)?;
    let mut kept = Vec::new(alloc);
    for step in [1, 999, 7] {
        kept.push(kept_of::<I>(alloc, step)?)?;
    }
    Ok(Told {
        numbers,
        left,
        kept,
        texts: texts_kept::<I>(alloc)?,
        failing: failing_calls::<I>(alloc)?,
        places: damaged_places::<I>(alloc)?,
        trees: tree_places::<I>(alloc)?,
    })
}

fn tell<R: Print>(rt: &R, name: &str, told: &Told) -> std::io::Result<()> {
    let Told {
        numbers,
        left,
        kept,
        texts,
        failing,
        places,
        trees,
    } = told;
    println!(rt; "{name}: {numbers:?}, then {left:?}")?;
    println!(rt; "{name}: {kept:?}, texts {texts:?}")?;
    println!(rt; "{name}: {failing} calls fail in turn, damaged pages at {places:?}")?;
    println!(rt; "{name}: damaged pages of trees at {trees:?}")
}

fn main(rt: HostRuntime) -> ExitCode {
    let Ok(told) = told_of::<RunIndex>(rt.alloc()) else {
        return ExitCode::FAILURE;
    };
    if tell(&rt, "chain", &told).is_err() {
        return ExitCode::FAILURE;
    }
    let Ok(told) = told_of::<TreeIndex>(rt.alloc()) else {
        return ExitCode::FAILURE;
    };
    if tell(&rt, "tree", &told).is_err() {
        return ExitCode::FAILURE;
    }
    let Ok(reads) = reads_of::<TreeIndex>(rt.alloc(), ROWS) else {
        return ExitCode::FAILURE;
    };
    if println!(rt; "tree: look-ups over {ROWS} rows read {reads:?} pages").is_err() {
        return ExitCode::FAILURE;
    }
    ExitCode::SUCCESS
}
