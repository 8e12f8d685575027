//! Sixteen sessions that change tables of their own, all of them inside their items at once.

use crate::devices::{formatted, run_at};
use crate::held_up::{told_gated, wait};
use crate::trial::Outcome;
use retro_base::SESSIONS;
use session::{Gate, Point};
use std::alloc::Global;
use std::sync::Wait;
use std::sync::atomic::{AtomicBool, AtomicU64, Ordering};
use std::test::Fail;
use std::thread::Threads;

// The sixteen meet in the third phase; no session before it has a second item.
const SIXTEEN: &[u8] = b"SESSION m\n\
      CREATE TABLE ta(v INT)\nINSERT INTO ta VALUES (1)\nCREATE TABLE tb(v INT)\nINSERT INTO tb VALUES (1)\n\
      CREATE TABLE tc(v INT)\nINSERT INTO tc VALUES (1)\nCREATE TABLE td(v INT)\nINSERT INTO td VALUES (1)\n\
      CREATE TABLE te(v INT)\nINSERT INTO te VALUES (1)\nCREATE TABLE tf(v INT)\nINSERT INTO tf VALUES (1)\n\
      CREATE TABLE tg(v INT)\nINSERT INTO tg VALUES (1)\nCREATE TABLE th(v INT)\nINSERT INTO th VALUES (1)\n\
      CREATE TABLE ti(v INT)\nINSERT INTO ti VALUES (1)\nCREATE TABLE tj(v INT)\nINSERT INTO tj VALUES (1)\n\
      CREATE TABLE tk(v INT)\nINSERT INTO tk VALUES (1)\nCREATE TABLE tl(v INT)\nINSERT INTO tl VALUES (1)\n\
      CREATE TABLE tm(v INT)\nINSERT INTO tm VALUES (1)\nCREATE TABLE tn(v INT)\nINSERT INTO tn VALUES (1)\n\
      CREATE TABLE to(v INT)\nINSERT INTO to VALUES (1)\nCREATE TABLE tp(v INT)\nINSERT INTO tp VALUES (1)\n\
      COMMIT\nPHASE\nSESSION m\nCOMMIT\nPHASE\n\
      SESSION a\nCOMMIT\nUPDATE ta SET v = 2\nCOMMIT\nSESSION b\nCOMMIT\nUPDATE tb SET v = 2\nCOMMIT\n\
      SESSION c\nCOMMIT\nUPDATE tc SET v = 2\nCOMMIT\nSESSION d\nCOMMIT\nUPDATE td SET v = 2\nCOMMIT\n\
      SESSION e\nCOMMIT\nUPDATE te SET v = 2\nCOMMIT\nSESSION f\nCOMMIT\nUPDATE tf SET v = 2\nCOMMIT\n\
      SESSION g\nCOMMIT\nUPDATE tg SET v = 2\nCOMMIT\nSESSION h\nCOMMIT\nUPDATE th SET v = 2\nCOMMIT\n\
      SESSION i\nCOMMIT\nUPDATE ti SET v = 2\nCOMMIT\nSESSION j\nCOMMIT\nUPDATE tj SET v = 2\nCOMMIT\n\
      SESSION k\nCOMMIT\nUPDATE tk SET v = 2\nCOMMIT\nSESSION l\nCOMMIT\nUPDATE tl SET v = 2\nCOMMIT\n\
      SESSION m\nCOMMIT\nUPDATE tm SET v = 2\nCOMMIT\nSESSION n\nCOMMIT\nUPDATE tn SET v = 2\nCOMMIT\n\
      SESSION o\nCOMMIT\nUPDATE to SET v = 2\nCOMMIT\nSESSION p\nCOMMIT\nUPDATE tp SET v = 2\nCOMMIT\n";

// What is told in front of the journal's lines of the third phase, which come in any order.
const SIXTEEN_TOLD: &[u8] = b"phase 1\nsession m\nitem 1\n\
      ok\nok 1\nok\nok 1\nok\nok 1\nok\nok 1\nok\nok 1\nok\nok 1\nok\nok 1\nok\nok 1\n\
      ok\nok 1\nok\nok 1\nok\nok 1\nok\nok 1\nok\nok 1\nok\nok 1\nok\nok 1\nok\nok 1\n\
      committed\nphase 2\nsession m\nitem 1\ncommitted\nphase 3\n\
      session a\nitem 1\ncommitted\nitem 2\nok 1\ncommitted\n\
      session b\nitem 1\ncommitted\nitem 2\nok 1\ncommitted\n\
      session c\nitem 1\ncommitted\nitem 2\nok 1\ncommitted\n\
      session d\nitem 1\ncommitted\nitem 2\nok 1\ncommitted\n\
      session e\nitem 1\ncommitted\nitem 2\nok 1\ncommitted\n\
      session f\nitem 1\ncommitted\nitem 2\nok 1\ncommitted\n\
      session g\nitem 1\ncommitted\nitem 2\nok 1\ncommitted\n\
      session h\nitem 1\ncommitted\nitem 2\nok 1\ncommitted\n\
      session i\nitem 1\ncommitted\nitem 2\nok 1\ncommitted\n\
      session j\nitem 1\ncommitted\nitem 2\nok 1\ncommitted\n\
      session k\nitem 1\ncommitted\nitem 2\nok 1\ncommitted\n\
      session l\nitem 1\ncommitted\nitem 2\nok 1\ncommitted\n\
      session m\nitem 1\ncommitted\nitem 2\nok 1\ncommitted\n\
      session n\nitem 1\ncommitted\nitem 2\nok 1\ncommitted\n\
      session o\nitem 1\ncommitted\nitem 2\nok 1\ncommitted\n\
      session p\nitem 1\ncommitted\nitem 2\nok 1\ncommitted\n\
      journal\n1 m 1 done\n2 m 1 done\n";

// At the end of its second item each session counts itself, and waits until as many have come as there are sessions.
#[derive(Drop)]
struct AllHeld<'a, R: Wait> {
    rt: &'a R,
    came: AtomicU64,
    ran_out: AtomicBool,
}

impl<'a, R: Wait> AllHeld<'a, R> {
    fn new(rt: &'a R) -> AllHeld<'a, R> {
        AllHeld {
            rt,
            came: AtomicU64::new(0),
            ran_out: AtomicBool::new(false),
        }
    }

    // Whether each came once: one that overlapped another comes again.
    fn each_came_once(&self) -> bool {
        self.came.load(Ordering::SeqCst) == SESSIONS as u64 && !self.ran_out.load(Ordering::SeqCst)
    }
}

impl<'a, R: Wait> Gate for AllHeld<'a, R> {
    fn at(&self, point: Point, _session: u16, item: u32) {
        match (point, item) {
            (Point::BeforeCommit, 2) => {
                self.came.fetch_add(1, Ordering::SeqCst);
                wait(self.rt, &self.came, SESSIONS as u64, &self.ran_out);
            }
            _ => {}
        }
    }
}

fn is_told(outcome: &Outcome) -> bool {
    outcome.status == 0 && outcome.text.as_slice().strip_prefix(SIXTEEN_TOLD).is_some()
}

fn is_told_in_memory<R: Threads + Wait + Sync>(rt: &R, alloc: Global) -> Option<bool> {
    let gate = AllHeld::new(rt);
    let outcome = told_gated(rt, alloc, SIXTEEN, &gate).ok()?;
    Some(is_told(&outcome) && gate.each_came_once())
}

fn is_told_over_devices<R: Threads + Wait + Sync>(rt: &R, alloc: Global) -> Option<bool> {
    let gate = AllHeld::new(rt);
    let new = formatted(rt, alloc, "64")?;
    let ran = run_at(rt, alloc, SESSIONS, new, SIXTEEN, &gate)?;
    Some(is_told(&ran.outcome) && gate.each_came_once())
}

fn both_told<R: Threads + Wait + Sync>(rt: &R, alloc: Global) -> Option<[bool; 2]> {
    Some([
        is_told_in_memory(rt, alloc)?,
        is_told_over_devices(rt, alloc)?,
    ])
}

#[test]
fn sixteen_sessions_on_sixteen_tables_do_not_overlap(rt: HostRuntime) -> Result<(), Fail> {
    assert!(rt; both_told(&rt, rt.alloc()) == Some([true, true]));
    Ok(())
}
