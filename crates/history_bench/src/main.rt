//! What an opening reads at full size, and whether it is what was made: 65,536 snapshots that roll on, 65,536 commits
//! that each capture a page, Maplogs of 65,536 low marks over many mappings and over few, a full one of the most slots
//! on its device, a base of 65,536 snapshots and captured pages, as many mappings that belong to it, the largest
//! commit, and the store that a log of 4,096 commits opens to. With a word a sixteenth of each.
#![tactic(auto)]

mod bodies;
mod encoding;
mod joining;
mod maplogs;
mod reading;

use encoding::{base_comes_back, commit_comes_back};
use joining::{belongs, joins};
use maplogs::full;
use reading::{capturing, growing, rolling, trimming};
use retro_base::Refusal;
use std::alloc::Global;
use std::env::{self, Env};
use std::process::ExitCode;

const FULL: u32 = 65_536;

#[derive(Debug, Drop)]
struct Readings {
    size: u32,
    rolling: usize,
    capturing: usize,
    growing: (u64, u64),
    trimming: (u64, u64),
    full: (u64, u64),
    belongs: bool,
    base_comes_back: bool,
    commit_comes_back: bool,
    joins: bool,
}

fn all_read(alloc: Global, size: u32) -> Result<Readings, Refusal> {
    Ok(Readings {
        size,
        rolling: rolling(alloc, size)?,
        capturing: capturing(alloc, size)?,
        growing: growing(alloc, size)?,
        trimming: trimming(alloc, size)?,
        full: full(alloc, size.saturating_mul(16))?,
        belongs: belongs(alloc, size)?,
        base_comes_back: base_comes_back(alloc, size)?,
        commit_comes_back: commit_comes_back(alloc, size / 64)?,
        joins: joins(alloc, size / 16)?,
    })
}

// Whether there is a word behind the program's own name.
fn is_short(rt: &(impl Env + AllocGlobal)) -> bool {
    match env::args(rt) {
        Ok(mut words) => words.nth(1).is_some(),
        Err(_) => false,
    }
}

fn main(rt: HostRuntime) -> ExitCode {
    let size = if is_short(&rt) { FULL / 16 } else { FULL };
    let Ok(readings) = all_read(rt.alloc(), size) else {
        return ExitCode::FAILURE;
    };
    if println!(rt; "{readings:?}").is_err() {
        return ExitCode::FAILURE;
    }
    ExitCode::SUCCESS
}
