//! A transaction that overlaps another session's commits until it is not tried again.

use crate::held_up::{told_gated, wait};
use session::{Gate, Point};
use std::alloc::{AllocError, Global};
use std::sync::Wait;
use std::sync::atomic::{AtomicBool, AtomicU64, Ordering};
use std::test::Fail;
use std::thread::Threads;

// How often a transaction is tried.
const TRIES: u32 = 64;

// The second item of session a asks of the row that each item of session b changes. No other session of the script has
// a second item, and no other is the second of its phase.
const BEFORE: &[u8] = b"SESSION m\n\
      CREATE TABLE t(v INT)\nINSERT INTO t VALUES (0)\nCREATE TABLE u(v INT)\nINSERT INTO u VALUES (0)\nCOMMIT\n\
      PHASE\nSESSION a\nCOMMIT\nSELECT v FROM t\nUPDATE u SET v = 1\nCOMMIT\nSESSION b\n";

const CHANGE: &[u8] = b"UPDATE t SET v = v + 1\nCOMMIT\n";

const BEHIND: &[u8] = b"PHASE\nSESSION c\nSELECT v FROM t\nSELECT v FROM u\nCOMMIT\n";

const TOLD_BEFORE: &str = "phase 1\nsession m\nitem 1\nok\nok 1\nok\nok 1\ncommitted\n\
      phase 2\nsession a\nitem 1\ncommitted\nitem 2\nrefused 8 Overlap b 64\nsession b\n";

const TOLD_BEHIND: &str =
    "phase 3\nsession c\nitem 1\nrows 1\n64\nrows 1\n0\ncommitted\njournal\n1 m 1 done\n2 a 1 done\n";

const LAST_LINE: &str = "3 c 1 done\n";

fn script_of(alloc: Global) -> Result<Vec<u8>, AllocError> {
    let mut script = BEFORE.to_vec(alloc)?;
    for _ in 0..TRIES {
        script.extend_from_slice(CHANGE)?;
    }
    script.extend_from_slice(BEHIND)?;
    Ok(script)
}

fn push_replies(text: &mut String) -> Result<(), AllocError> {
    for number in 1..=TRIES {
        write!(text, "item {number}\nok 1\ncommitted\n")?;
    }
    Ok(())
}

fn push_lines(text: &mut String) -> Result<(), AllocError> {
    for number in 1..=TRIES {
        write!(text, "2 b {number} done\n")?;
    }
    Ok(())
}

// The transcript. An attempt that overlapped has no line that is shown, and leaves no change.
fn transcript(alloc: Global) -> Result<String, AllocError> {
    let mut text = String::from_str(alloc, TOLD_BEFORE)?;
    push_replies(&mut text)?;
    text.push_str(TOLD_BEHIND)?;
    push_lines(&mut text)?;
    text.push_str(LAST_LINE)?;
    Ok(text)
}

// The second item of session a is held at the end of each attempt until session b has committed an item more, and each
// item of session b at its end until session a has come to the end of an attempt more. So in each attempt of session a
// one item of session b is committed, behind what that attempt asks.
#[derive(Drop)]
struct InTurn<'a, R: Wait> {
    rt: &'a R,
    tried: AtomicU64,
    committed: AtomicU64,
    ran_out: AtomicBool,
}

impl<'a, R: Wait> InTurn<'a, R> {
    fn new(rt: &'a R) -> InTurn<'a, R> {
        InTurn {
            rt,
            tried: AtomicU64::new(0),
            committed: AtomicU64::new(0),
            ran_out: AtomicBool::new(false),
        }
    }

    fn wait(&self, counted: &AtomicU64, least: u64) {
        wait(self.rt, counted, least, &self.ran_out);
    }

    fn all_tried(&self) -> bool {
        self.tried.load(Ordering::SeqCst) == u64::from(TRIES)
            && !self.ran_out.load(Ordering::SeqCst)
    }
}

impl<'a, R: Wait> Gate for InTurn<'a, R> {
    fn at(&self, point: Point, session: u16, item: u32) {
        match (point, session, item) {
            (Point::BeforeCommit, 0, 2) => {
                let before = self.tried.fetch_add(1, Ordering::SeqCst);
                self.wait(&self.committed, before.saturating_add(1));
            }
            (Point::BeforeCommit, 1, _) => self.wait(&self.tried, u64::from(item)),
            (Point::AfterCommit, 1, _) => {
                self.committed.store(u64::from(item), Ordering::SeqCst);
            }
            _ => {}
        }
    }
}

fn is_refused<R: Threads + Wait + Sync>(rt: &R, alloc: Global) -> Result<bool, AllocError> {
    let gate = InTurn::new(rt);
    let script = script_of(alloc)?;
    let told = transcript(alloc)?;
    let outcome = told_gated(rt, alloc, script.as_slice(), &gate)?;
    Ok(outcome.is(0, told.as_bytes()) && gate.all_tried())
}

#[test]
fn an_item_that_overlaps_at_each_of_64_attempts_is_refused(rt: HostRuntime) -> Result<(), Fail> {
    assert!(rt; is_refused(&rt, rt.alloc())?);
    Ok(())
}
