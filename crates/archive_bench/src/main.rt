//! What the calls of an archive cost, by the mappings that it keeps; and whether archives, one of the most slots among
//! them, keep and find what a plain list does.
//! With no words archives are filled past their ends, trimmed, opened again and compared with a list. With a call, the
//! number of slots and a third word, as `enter 65536 4096`, an archive is filled to that, and the call made so often.
#![tactic(auto)]

ghost use Rattle.std.specs.Prelude.{◌≡◌};

mod captures;
mod filled;
mod slim;

use archive_tests::Trial;
use captures::wanted;
use filled::{BATCH, again, empty, fill, find_each, is_as_plain, trim};
use retro_base::{PAGE_BYTES, Refusal};
use slim::{Calls, Slim};
use std::alloc::Global;
use std::env;
use std::env::Env;
use std::marker::Brand;
use std::process::ExitCode;
use std::sync::ledger::Blank;

/// The lowest mapping that is kept, the number of captures, and where the list of the Maplog ends; and whether all is
/// as in a plain list, before and after the archive is opened again.
#[derive(Drop)]
struct Kept {
    low: u64,
    held: u64,
    end: u64,
    filled: bool,
    opened: bool,
}

/// What an archive keeps, and the archive opened again.
fn reopened(alloc: Global, trial: Trial<Slim>, slots: u32) -> Result<(Kept, Trial<Slim>), Refusal> {
    let mut trial = trial;
    let (low, held, end) = (trial.low(), trial.held(), trial.end());
    let filled = is_as_plain(alloc, &mut trial, low.saturating_add(100))?;
    let mut trial = again(alloc, trial, slots)?;
    let same = (trial.low(), trial.held(), trial.end()) == (low, held, end);
    let opened = is_as_plain(alloc, &mut trial, low)? && same;
    let kept = Kept {
        low,
        held,
        end,
        filled,
        opened,
    };
    Ok((kept, trial))
}

fn tell_kept(rt: &impl Print, slots: u32, kept: &Kept) -> Option<()> {
    let Kept {
        low,
        held,
        end,
        filled,
        opened,
    } = kept;
    let told = |same: bool| if same { "the same" } else { "others" };
    println!(rt;
        "{slots} slots: mappings {low} to {held}, listed up to byte {end}, {} as in a plain list, {} opened again",
        told(*filled),
        told(*opened)
    )
    .ok()
}

fn tell_calls(rt: &impl Print, device: &str, calls: Calls) -> Option<()> {
    let Calls {
        reads,
        writes,
        syncs,
    } = calls;
    println!(rt; "  {device}: {reads} reads, {writes} writes, {syncs} syncs").ok()
}

fn tell_devices(rt: &impl Print, trial: Trial<Slim>) -> Option<()> {
    let (pagelog, maplog) = trial.into_disks();
    tell_calls(rt, "Pagelog", pagelog.calls())?;
    tell_calls(rt, "Maplog", maplog.calls())
}

/// Fills an archive a quarter past its slots, and then forgets mappings one by one.
fn tell(rt: &(impl Print + AllocGlobal), slots: u32, forgotten: u64) -> Option<()> {
    let alloc = rt.alloc();
    let mut trial = empty(alloc, slots, PAGE_BYTES as u64).ok()?;
    fill(
        alloc,
        &mut trial,
        slots,
        u64::from(slots) / BATCH / 4 * 5,
        BATCH,
    )
    .ok()?;
    let (kept, mut trial) = reopened(alloc, trial, slots).ok()?;
    tell_kept(rt, slots, &kept)?;
    trim(&mut trial, forgotten, 1).ok()?;
    let (kept, trial) = reopened(alloc, trial, slots).ok()?;
    tell_kept(rt, slots, &kept)?;
    tell_devices(rt, trial)
}

/// Fills an archive of 8,192 slots so that its list is written anew, by a capture and then by a trim.
fn tell_anew(rt: &(impl Print + AllocGlobal)) -> Option<()> {
    let (alloc, slots) = (rt.alloc(), 8_192);
    let mut trial = empty(alloc, slots, PAGE_BYTES as u64).ok()?;
    // Each half has 266,240 bytes. Behind 36 stand 128 runs of 64 pages, of 146 bytes each, and then for each capture a
    // low mark and a run, 34 together. With the gate behind them they fit behind 7,278 of these, and not behind 7,279.
    fill(alloc, &mut trial, slots, 128, BATCH).ok()?;
    fill(alloc, &mut trial, slots, 7_280, 1).ok()?;
    let (kept, mut trial) = reopened(alloc, trial, slots).ok()?;
    tell_kept(rt, slots, &kept)?;
    // Behind 36 stand runs of 4,096, of 4,095 and of one page, of 8,210, 8,208 and 20 bytes, and then 34 for each
    // capture: two bytes are left behind 7,346 of these, and a low mark does not fit.
    fill(alloc, &mut trial, slots, 7_346, 1).ok()?;
    trim(&mut trial, 1, 1).ok()?;
    let (kept, trial) = reopened(alloc, trial, slots).ok()?;
    tell_kept(rt, slots, &kept)?;
    tell_devices(rt, trial)
}

/// Makes a call so often on an archive of which each slot is taken, and gives how many captures it has then, and the
/// lowest mapping.
fn calls(alloc: Global, call: &str, slots: u32, times: u64) -> Result<Option<(u64, u64)>, Refusal> {
    // Only to read whole images each byte of them is kept.
    let grain = if call == "read" { 1 } else { PAGE_BYTES as u64 };
    let mut trial = empty(alloc, slots, grain)?;
    fill(alloc, &mut trial, slots, u64::from(slots) / BATCH, BATCH)?;
    match call {
        "open" => trial = again(alloc, trial, slots)?,
        "enter" => fill(alloc, &mut trial, slots, times, BATCH)?,
        "enter-one" => fill(alloc, &mut trial, slots, times, 1)?,
        "trim" => trim(&mut trial, times, BATCH)?,
        "find" => return searched(alloc, trial, times, false),
        "read" => return searched(alloc, trial, times, true),
        _ => return Ok(None),
    }
    Ok(Some((trial.low(), trial.held())))
}

/// Finds the first so many pages, or those of them that have a capture.
fn searched(
    alloc: Global,
    trial: Trial<Slim>,
    times: u64,
    captured: bool,
) -> Result<Option<(u64, u64)>, Refusal> {
    let mut trial = trial;
    let held = trial.held();
    let mut wanted = wanted(alloc, 0, held)?;
    if captured {
        wanted.retain(|(_page, byte)| byte.is_some());
    }
    let count = wanted.len().min(times as usize);
    let found = find_each::<Brand>(
        Blank::new(1),
        alloc,
        &mut trial,
        (0, held),
        &wanted[..count],
    )?;
    Ok(found.then_some((trial.low(), held)))
}

/// What the words ask for; nothing where they ask for nothing known, or memory runs out.
fn run(rt: &(impl Print + AllocGlobal), words: &[String]) -> Option<()> {
    match words {
        [] => {
            tell_anew(rt)?;
            tell(rt, 65_536, 64)?;
            tell(rt, 1_048_576, 131_072)
        }
        [call, slots, times] => {
            let (slots, times) = (slots.parse().ok()?, times.parse().ok()?);
            let (low, held) = calls(rt.alloc(), call, slots, times).ok()??;
            println!(rt; "mappings {low} to {held}").ok()
        }
        _ => None,
    }
}

// The words behind the program's own name; none where they are not all text, or memory runs out.
fn words(rt: &(impl Env + AllocGlobal)) -> Vec<String> {
    if let Ok(words) = env::args(rt)
        && let Ok(words) = words.skip(1).collect(rt.alloc())
    {
        return words;
    }
    Vec::new(rt.alloc())
}

fn main(rt: HostRuntime) -> ExitCode {
    let words = words(&rt);
    match run(&rt, words.as_slice()) {
        Some(()) => ExitCode::SUCCESS,
        None => ExitCode::FAILURE,
    }
}
