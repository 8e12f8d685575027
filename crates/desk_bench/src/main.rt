//! What the calls of a desk cost, by how many lines its journal has, how many snapshots are retained, how many pages
//! were changed and wait for their captures, and how many pages there are: each call is made so often in a function of
//! its own. With four numbers, as `60000 10 100 200`, at that many lines, snapshots, changed pages and pages; with no
//! words at few of each, and at many. What the calls did is told.
#![tactic(auto)]

mod measured;
mod prepared;

use measured::{Counts, measure};
use prepared::{Setting, prepare};
use retro_base::Refusal;
use std::alloc::Global;
use std::env;
use std::env::Env;
use std::process::ExitCode;

const FEW: Setting = Setting {
    lines: 1_000,
    snapshots: 10,
    changed: 100,
    pages: 200,
};

const MANY: Setting = Setting {
    lines: 60_000,
    snapshots: 10_000,
    changed: 10_000,
    pages: 60_000,
};

// Four numbers as a setting.
fn setting_of(words: &[String]) -> Option<Setting> {
    let [lines, snapshots, changed, pages] = words else {
        return None;
    };
    Some(Setting {
        lines: lines.parse().ok()?,
        snapshots: snapshots.parse().ok()?,
        changed: changed.parse().ok()?,
        pages: pages.parse().ok()?,
    })
}

// What the calls did at a setting.
fn counts_at(alloc: Global, setting: &Setting) -> Result<Counts, Refusal> {
    let mut trial = prepare(alloc, setting)?;
    measure(alloc, &mut trial, setting)
}

fn tell(rt: &(impl Print + AllocGlobal), setting: &Setting) -> Option<()> {
    let Counts {
        waited,
        batches,
        written,
        pending,
        dirty,
    } = counts_at(rt.alloc(), setting).ok()?;
    let waited = if waited { "each" } else { "not each" };
    println!(rt;
        "{waited} page waited; {batches} batches, {written} pages written; {pending} captures and {dirty} pages are left"
    ).ok()
}

/// What the words ask for; nothing where they ask for nothing known, a call is refused, or memory runs out.
fn run(rt: &(impl Print + AllocGlobal), words: &[String]) -> Option<()> {
    match words {
        [] => {
            tell(rt, &FEW)?;
            tell(rt, &MANY)
        }
        numbers => tell(rt, &setting_of(numbers)?),
    }
}

// The words behind the program's own name; none where they are not all text, or memory runs out.
fn words(rt: &(impl Env + AllocGlobal)) -> Vec<String> {
    if let Ok(words) = env::args(rt)
        && let Ok(words) = words.skip(1).collect(rt.alloc())
    {
        return words;
    }
    Vec::new(rt.alloc())
}

fn main(rt: HostRuntime) -> ExitCode {
    let words = words(&rt);
    match run(&rt, words.as_slice()) {
        Some(()) => ExitCode::SUCCESS,
        None => ExitCode::FAILURE,
    }
}
