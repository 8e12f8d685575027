//! A run whose log fails at one write, and what a crash leaves of it.

use crate::devices::{Fault, Ran, all_again, crashed, formatted, run_over, shown_of};
use crate::trial::Outcome;
use disk_mem::{Call, MemDisk};
use disk_model::Four;
use retro_base::Device;
use std::alloc::Global;
use std::sync::Wait;
use std::test::Fail;
use std::thread::Threads;

const MADE: &[u8] =
    b"SESSION a\nCREATE TABLE t(a INT)\nINSERT INTO t VALUES (1)\nCOMMIT WITH SNAPSHOT 'one'\n";

const MADE_TOLD: &[u8] =
    b"phase 1\nsession a\nitem 1\nok\nok 1\ncommitted as 1\njournal\n1 a 1 done as 1\n";

// An append to the log writes twice, so its fifth write is the first of the third commit. Behind the fault nothing is
// committed.
const FIFTH_WRITE_FAILS: Fault = Fault {
    device: Device::Log,
    kind: Some(Call::Write),
    behind: 4,
};

const FAULTY: &[u8] =
    b"SESSION a\nINSERT INTO t VALUES (2)\nCOMMIT\nINSERT INTO t VALUES (3)\nCOMMIT\n\
      INSERT INTO t VALUES (4)\nCOMMIT\nINSERT INTO t VALUES (5)\nCOMMIT\nSELECT AS OF 1 * FROM t\n";

const FAULTY_TOLD: &[u8] = b"phase 1\nsession a\nitem 1\nok 1\ncommitted\nitem 2\nok 1\ncommitted\n\
      item 3\nrefused 2 DiskFault log 1\nitem 4\nrefused 16 Stopped log 1\nitem 5\nrows 1\n1\n\
      journal\n1 a 1 done\n1 a 2 done\n1 a 3 fault log 1\n1 a 4 refused 16\n1 a 5 looked 1\n1 a 5 unlooked\n";

// What a crash leaves of it, where each loose byte becomes that of an open gate: the commits before the fault.
const SHOWN: &[u8] = b"version 1\npages 64\ncapacity 64\noldest 1\nnewest 1\ncaptures 1\n";

const BEGUN: &[u8] = b"SESSION a\nSELECT AS OF 1 * FROM t\nSELECT * FROM t\nROLLBACK\n";

const BEGUN_TOLD: &[u8] =
    b"phase 1\nsession a\nitem 1\nrows 1\n1\nitem 2\nrows 3\n1\n2\n3\nrolled back\n\
      journal\n1 a 1 looked 1\n1 a 1 unlooked\n1 a 2 rolled back\n";

// What the program shows behind a crash.
fn shown_behind<R: Threads + Wait + Sync>(
    rt: &R,
    alloc: Global,
    four: &Four<MemDisk>,
) -> Option<Outcome> {
    let left = crashed(alloc, four, 0xA5).ok()?;
    shown_of(rt, alloc, left)
}

// The run that begins behind a crash.
fn begun_behind<R: Threads + Wait + Sync>(
    rt: &R,
    alloc: Global,
    four: &Four<MemDisk>,
) -> Option<Ran> {
    let left = crashed(alloc, four, 0xA5).ok()?;
    run_over(rt, alloc, left, BEGUN)
}

// The run whose log fails.
fn faulty<R: Threads + Wait + Sync>(rt: &R, alloc: Global, four: &Four<MemDisk>) -> Option<Ran> {
    let failing = all_again(alloc, four, FIFTH_WRITE_FAILS).ok()?;
    run_over(rt, alloc, failing, FAULTY)
}

fn made<R: Threads + Wait + Sync>(rt: &R, alloc: Global) -> Option<Ran> {
    let new = formatted(rt, alloc, "64")?;
    run_over(rt, alloc, new, MADE)
}

fn is_shown(outcome: &Option<Outcome>, status: u8, text: &[u8]) -> bool {
    match outcome {
        Some(outcome) => outcome.is(status, text),
        None => false,
    }
}

fn is_told(ran: &Option<Ran>, status: u8, text: &[u8]) -> bool {
    match ran {
        Some(ran) => ran.outcome.is(status, text),
        None => false,
    }
}

// Whether a crash shows what was committed, and the next run begins with it.
fn are_begun<R: Threads + Wait + Sync>(rt: &R, alloc: Global, four: &Four<MemDisk>) -> bool {
    is_shown(&shown_behind(rt, alloc, four), 0, SHOWN)
        && is_told(&begun_behind(rt, alloc, four), 0, BEGUN_TOLD)
}

// Whether the run over these devices ends so, and what it leaves.
fn is_faulty<R: Threads + Wait + Sync>(rt: &R, alloc: Global, four: &Four<MemDisk>) -> bool {
    match faulty(rt, alloc, four) {
        Some(ran) => ran.outcome.is(6, FAULTY_TOLD) && are_begun(rt, alloc, &ran.four),
        None => false,
    }
}

fn goes_so<R: Threads + Wait + Sync>(rt: &R, alloc: Global) -> bool {
    match made(rt, alloc) {
        Some(ran) => ran.outcome.is(0, MADE_TOLD) && is_faulty(rt, alloc, &ran.four),
        None => false,
    }
}

#[test]
fn a_fault_of_the_log_ends_the_commits(rt: HostRuntime) -> Result<(), Fail> {
    assert!(rt; goes_so(&rt, rt.alloc()));
    Ok(())
}
