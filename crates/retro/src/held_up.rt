//! Sessions that are inside their items at once: a gate holds each until another is where it should be.

use crate::devices::{Fault, NO_FAULT, Ran, all_again, formatted, run_at, run_over};
use crate::trial::{Outcome, told_at};
use disk_mem::{Call, MemDisk};
use disk_model::Four;
use mem_cabinet::MemCabinet;
use retro_base::{Device, SESSIONS};
use session::{Gate, Point};
use std::alloc::{AllocError, Global};
use std::sync::Wait;
use std::sync::atomic::{AtomicBool, AtomicU64, Ordering};
use std::test::Fail;
use std::thread::{Parker, Threads};
use std::time::Duration;

// The most turns of a wait, of a millisecond each. The tests fail where one ran out.
const TURNS: u32 = 20_000;

// Waits for a turn.
fn turn<R: Wait>(rt: &R) {
    Parker::new().park_timeout(rt, Duration::from_millis(1));
}

/// Waits until so many are counted, and says where its turns ran out. Behind that nobody waits.
pub fn wait<R: Wait>(rt: &R, counted: &AtomicU64, least: u64, ran_out: &AtomicBool) {
    for _ in 0..TURNS {
        if least <= counted.load(Ordering::SeqCst) || ran_out.load(Ordering::SeqCst) {
            return;
        }
        turn(rt);
    }
    ran_out.store(true, Ordering::SeqCst);
}

// Places that a session has come to, and whether a wait for one ran out.
#[derive(Drop)]
struct Places {
    first: AtomicBool,
    second: AtomicBool,
    ran_out: AtomicBool,
}

impl Places {
    fn new() -> Places {
        Places {
            first: AtomicBool::new(false),
            second: AtomicBool::new(false),
            ran_out: AtomicBool::new(false),
        }
    }

    // Waits until a session has come to the place.
    fn wait<R: Wait>(&self, rt: &R, place: &AtomicBool) {
        for _ in 0..TURNS {
            if place.load(Ordering::SeqCst) {
                return;
            }
            turn(rt);
        }
        self.ran_out.store(true, Ordering::SeqCst);
    }

    fn all_came(&self) -> bool {
        self.first.load(Ordering::SeqCst)
            && self.second.load(Ordering::SeqCst)
            && !self.ran_out.load(Ordering::SeqCst)
    }
}

fn come(place: &AtomicBool) {
    place.store(true, Ordering::SeqCst);
}

// A look of the first session is held open until the second one is at the end of its third item, which begins its first
// behind the look.
#[derive(Drop)]
struct LookHeld<'a, R: Wait> {
    rt: &'a R,
    places: Places,
}

impl<'a, R: Wait> Gate for LookHeld<'a, R> {
    fn at(&self, point: Point, session: u16, item: u32) {
        match (point, session, item) {
            (Point::BeforeCommit, 1, 1) => self.places.wait(self.rt, &self.places.first),
            (Point::BeforeCommit, 1, 3) => come(&self.places.second),
            (Point::AfterLook, 0, 1) => {
                come(&self.places.first);
                self.places.wait(self.rt, &self.places.second);
            }
            _ => {}
        }
    }
}

// A script of two sessions in its second phase, and its transcript in front of the end of the look and the last commit,
// which come in either order, and behind them.
type Row = (&'static [u8], &'static [u8], &'static [u8]);

const ROWS: [Row; 2] = [
    // The second session commits while the look is open, which pins what a drop asks for.
    (
        b"SESSION m\nCREATE TABLE t(a INT)\nINSERT INTO t VALUES (1)\nCOMMIT WITH SNAPSHOT\nPHASE\nSESSION a\n\
          SELECT AS OF 1 * FROM t\nSESSION b\nUPDATE t SET a = 2\nCOMMIT WITH SNAPSHOT\nDROP SNAPSHOTS BELOW 2\n\
          INSERT INTO t VALUES (3)\nCOMMIT\nPHASE\nSESSION a\nDROP SNAPSHOTS BELOW 2\nSELECT AS OF 1 * FROM t\n",
        b"phase 1\nsession m\nitem 1\nok\nok 1\ncommitted as 1\nphase 2\nsession a\nitem 1\nrows 1\n1\nsession b\n\
          item 1\nok 1\ncommitted as 2\nitem 2\nrefused 11 Pinned 1 a\nitem 3\nok 1\ncommitted\nphase 3\nsession a\n\
          item 1\ndropped below 2\nitem 2\nrefused 10 Dropped 1 2\njournal\n1 m 1 done as 1\n2 a 1 looked 1\n\
          2 b 1 done as 2\n2 b 2 refused 11\n",
        b"3 a 1 dropped below 2\n3 a 2 refused 10\n",
    ),
    // A call looks at all snapshots, and pins them all.
    (
        b"SESSION m\nCREATE TABLE t(a INT)\nINSERT INTO t VALUES (1)\nCOMMIT WITH SNAPSHOT\nCOMMIT WITH SNAPSHOT\n\
          PHASE\nSESSION a\nCollateData('SELECT snap_id FROM SnapIds','SELECT a FROM t','rql_c')\nSESSION b\nCOMMIT\n\
          DROP SNAPSHOTS BELOW 2\nCOMMIT\nPHASE\nSESSION a\nDROP SNAPSHOTS BELOW 2\n",
        b"phase 1\nsession m\nitem 1\nok\nok 1\ncommitted as 1\nitem 2\ncommitted as 2\nphase 2\nsession a\nitem 1\n\
          ok 2\nsession b\nitem 1\ncommitted\nitem 2\nrefused 11 Pinned 1 a\nitem 3\ncommitted\nphase 3\nsession a\n\
          item 1\ndropped below 2\njournal\n1 m 1 done as 1\n1 m 2 done as 2\n2 a 1 looked all\n2 b 1 done\n\
          2 b 2 refused 11\n",
        b"3 a 1 dropped below 2\n",
    ),
];

fn is_told(outcome: &Outcome, row: Row) -> bool {
    let (_, front, end) = row;
    let Some(rest) = outcome.text.as_slice().strip_prefix(front) else {
        return false;
    };
    let Some(between) = rest.strip_suffix(end) else {
        return false;
    };
    outcome.status == 0
        && (between == b"2 b 3 done\n2 a 1 unlooked\n".as_slice()
            || between == b"2 a 1 unlooked\n2 b 3 done\n".as_slice())
}

/// Runs a script in memory, whose sessions of a phase run at once, with a gate.
pub fn told_gated<R: Threads + Wait + Sync, G: Gate + Sync>(
    rt: &R,
    alloc: Global,
    script: &[u8],
    gate: &G,
) -> Result<Outcome, AllocError> {
    let mut cabinet = MemCabinet::new(alloc, Vec::new(alloc));
    told_at(rt, alloc, SESSIONS, &mut cabinet, &["run"], script, gate)
}

// Whether a run is told so while the look is held, over an empty store in memory or, where devices are given, theirs.
fn is_held<R: Threads + Wait + Sync>(
    rt: &R,
    alloc: Global,
    row: Row,
    four: Option<Four<MemDisk>>,
) -> Option<bool> {
    let gate = LookHeld {
        rt,
        places: Places::new(),
    };
    let outcome = match four {
        None => told_gated(rt, alloc, row.0, &gate).ok()?,
        Some(four) => run_at(rt, alloc, SESSIONS, four, row.0, &gate)?.outcome,
    };
    Some(is_told(&outcome, row) && gate.places.all_came())
}

fn are_held<R: Threads + Wait + Sync>(rt: &R, alloc: Global) -> Option<bool> {
    for row in ROWS {
        let new = formatted(rt, alloc, "16")?;
        if !is_held(rt, alloc, row, None)? || !is_held(rt, alloc, row, Some(new))? {
            return Some(false);
        }
    }
    Some(true)
}

#[test]
fn a_look_stays_open_while_another_session_commits(rt: HostRuntime) -> Result<(), Fail> {
    assert!(rt; are_held(&rt, rt.alloc()) == Some(true));
    Ok(())
}

// The first session's first commit is held for some turns, in which each worker finds nothing to do and rests. That of
// the second is held until the first one's is done, and then for more turns; the first session is held behind it until
// the second is at its second commit. So both are inside their items while a worker copies what the first one captured,
// or writes back what it changed.
#[derive(Drop)]
struct CommitHeld<'a, R: Wait> {
    rt: &'a R,
    places: Places,
}

// Turns in which each worker makes its first round, and turns in which it makes another.
const FIRST_TURNS: u32 = 100;

const MORE_TURNS: u32 = 2_000;

fn rest<R: Wait>(rt: &R, turns: u32) {
    for _ in 0..turns {
        turn(rt);
    }
}

impl<'a, R: Wait> Gate for CommitHeld<'a, R> {
    fn at(&self, point: Point, session: u16, item: u32) {
        match (point, session, item) {
            (Point::BeforeCommit, 0, 1) => rest(self.rt, FIRST_TURNS),
            (Point::BeforeCommit, 1, 1) => {
                self.places.wait(self.rt, &self.places.first);
                rest(self.rt, MORE_TURNS);
            }
            (Point::BeforeCommit, 1, 2) => come(&self.places.second),
            (Point::AfterCommit, 0, 1) => {
                come(&self.places.first);
                self.places.wait(self.rt, &self.places.second);
            }
            _ => {}
        }
    }
}

const TWO_TABLES: &[u8] =
    b"SESSION m\nCREATE TABLE t(a INT)\nCREATE TABLE u(a INT)\nCOMMIT WITH SNAPSHOT\n";

const TWO_INSERTS: &[u8] =
    b"SESSION a\nINSERT INTO t VALUES (1)\nCOMMIT\nSESSION b\nINSERT INTO u VALUES (1)\nCOMMIT\nCOMMIT\n";

const COPY_FAILS: &[u8] =
    b"phase 1\nsession a\nitem 1\nok 1\ncommitted\nsession b\nitem 1\nrefused 16 Stopped maplog 1\n\
      item 2\ncommitted\njournal\n1 a 1 done\n1 copier 0 fault maplog 1\n1 b 1 refused 16\n1 b 2 done\n";

// Without a snapshot nothing is captured, and the copier has nothing to do.
const TWO_TABLES_ALONE: &[u8] =
    b"SESSION m\nCREATE TABLE t(a INT)\nCREATE TABLE u(a INT)\nCOMMIT\n";

// Behind its first phase all is written back that a run finds in the log.
const NO_ITEMS: &[u8] = b"SESSION m\n";

const TWO_INSERTS_BEHIND: &[u8] = b"SESSION m\nPHASE\nSESSION a\nINSERT INTO t VALUES (1)\nCOMMIT\n\
      SESSION b\nINSERT INTO u VALUES (1)\nCOMMIT\nCOMMIT\n";

const FLUSH_FAILS: &[u8] =
    b"phase 1\nsession m\nphase 2\nsession a\nitem 1\nok 1\ncommitted\nsession b\nitem 1\n\
      refused 16 Stopped pages 1\nitem 2\ncommitted\n\
      journal\n2 a 1 done\n2 flusher 0 fault pages 1\n2 b 1 refused 16\n2 b 2 done\n";

// Behind the start of a Maplog stands the run of its mappings: from number 0 on, one, of page 2.
const ONE_MAPPING: &[u8] = b"\x02\0\0\0\0\0\0\0\0\0\0\0\x01\0\x02";

// Whether slot 0 holds the page 2 of these devices, and the Maplog has the mapping.
fn has_copied(four: &Four<MemDisk>, before: &Four<MemDisk>) -> bool {
    four.pagelog.bytes().get(0..1024) == before.pages.bytes().get(2048..3072)
        && has_mapping(four.maplog.bytes())
}

fn has_mapping(maplog: &[u8]) -> bool {
    maplog
        .windows(ONE_MAPPING.len())
        .any(|body| body == ONE_MAPPING)
}

// The run of a script of the two inserts, which tells this, where a write of a device behind so many fails while both
// sessions are inside.
fn insert_both<R: Threads + Wait + Sync>(
    rt: &R,
    alloc: Global,
    made: &Four<MemDisk>,
    device: Device,
    behind: u64,
    script: &[u8],
    told: &[u8],
) -> Option<Ran> {
    let gate = CommitHeld {
        rt,
        places: Places::new(),
    };
    let fault = Fault {
        device,
        kind: Some(Call::Write),
        behind,
    };
    let four = all_again(alloc, made, fault).ok()?;
    let ran = run_at(rt, alloc, SESSIONS, four, script, &gate)?;
    if ran.outcome.is(6, told) && gate.places.all_came() {
        Some(ran)
    } else {
        None
    }
}

// Whether it copied what the commit captured, and whether a script without a phase did behind it.
fn is_copied_behind<R: Threads + Wait + Sync>(
    rt: &R,
    alloc: Global,
    made: &Four<MemDisk>,
) -> Option<[bool; 2]> {
    let failed = insert_both(rt, alloc, made, Device::Maplog, 0, TWO_INSERTS, COPY_FAILS)?;
    let is_early = has_copied(&failed.four, made);
    let last = run_over(rt, alloc, failed.four, b"")?;
    Some([
        is_early,
        last.outcome.is(0, b"journal\n") && has_copied(&last.four, made),
    ])
}

fn copied_of<R: Threads + Wait + Sync>(rt: &R, alloc: Global) -> Option<[bool; 2]> {
    let new = formatted(rt, alloc, "16")?;
    let made = run_over(rt, alloc, new, TWO_TABLES)?;
    is_copied_behind(rt, alloc, &made.four)
}

#[test]
fn what_a_commit_captured_is_copied_beside_it_or_by_the_next_run(
    rt: HostRuntime,
) -> Result<(), Fail> {
    assert!(rt; copied_of(&rt, rt.alloc()) == Some([false, true]));
    Ok(())
}

// How many pages a run writes back before its second phase.
fn written_at_first<R: Threads + Wait + Sync>(
    rt: &R,
    alloc: Global,
    made: &Four<MemDisk>,
) -> Option<u64> {
    let four = all_again(alloc, made, NO_FAULT).ok()?;
    let ran = run_over(rt, alloc, four, NO_ITEMS)?;
    Some(ran.four.pages.calls(Call::Write))
}

// The run of the two inserts, of which the first one's page is not written back.
fn unflushed<R: Threads + Wait + Sync>(rt: &R, alloc: Global) -> Option<Ran> {
    let new = formatted(rt, alloc, "16")?;
    let made = run_over(rt, alloc, new, TWO_TABLES_ALONE)?;
    let first = written_at_first(rt, alloc, &made.four)?;
    insert_both(
        rt,
        alloc,
        &made.four,
        Device::Pages,
        first,
        TWO_INSERTS_BEHIND,
        FLUSH_FAILS,
    )
}

#[test]
fn what_a_commit_changed_is_written_back_beside_the_sessions(rt: HostRuntime) -> Result<(), Fail> {
    assert!(rt; unflushed(&rt, rt.alloc()).is_some());
    Ok(())
}
