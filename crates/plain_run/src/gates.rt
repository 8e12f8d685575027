//! The points of a run at which its gate is told.

use crate::run_plan;
use fold_kit::{Combiner, FoldSet, How};
use retro_base::Refusal;
use script::read;
use session::{Gate, Items, Point, plan_of};
use std::alloc::Global;
use std::cell::Cell;
use std::test::Fail;

/// The times that each point was told, the latest last: of each the session's place and the item, in two decimal
/// digits.
#[derive(Drop)]
struct Points {
    after_look: Cell<u32>,
    before_commit: Cell<u32>,
    after_commit: Cell<u32>,
}

impl Gate for Points {
    fn at(&self, point: Point, session: u16, item: u32) {
        let told = match point {
            Point::AfterLook => &self.after_look,
            Point::BeforeCommit => &self.before_commit,
            Point::AfterCommit => &self.after_commit,
        };
        let here = u32::from(session).wrapping_mul(10).wrapping_add(item);
        told.set(told.get().wrapping_mul(100).wrapping_add(here));
    }
}

/// Runs a script, and says when each point was told.
fn points_of(alloc: Global, script: &[u8]) -> Result<[u32; 3], Refusal> {
    let gate = Points {
        after_look: Cell::new(0),
        before_commit: Cell::new(0),
        after_commit: Cell::new(0),
    };
    let folds = FoldSet::new(
        Combiner::new(How::Min, |a: i128, b: i128| a.min(b)),
        Combiner::new(How::Max, |a: i128, b: i128| a.max(b)),
        Combiner::new(How::Add, |a: i128, b: i128| a.wrapping_add(b)),
    );
    let plan = plan_of(alloc, read(alloc, script)?)?;
    let items = Items {
        gate: &gate,
        folds: &folds,
    };
    let _finished = run_plan(alloc, &items, &plan)?;
    Ok([
        gate.after_look.get(),
        gate.before_commit.get(),
        gate.after_commit.get(),
    ])
}

// A session of one commit, and behind it one of two commits, a rollback, and three looks: at a snapshot, at all of them
// for their table, and at all of them for a call.
const SCRIPT: &[u8] =
    b"SESSION z\nCOMMIT\nSESSION a\nCREATE TABLE t(a INT)\nCOMMIT WITH SNAPSHOT\nINSERT INTO t VALUES (1)\nROLLBACK\n\
      SELECT AS OF 1 * FROM t\nSELECT * FROM SnapIds\n\
      CollateData('SELECT snap_id FROM SnapIds','SELECT a FROM t','rql_c')\nSELECT * FROM rql_c\nCOMMIT\n";

#[test]
fn each_look_and_each_commit_is_told(rt: HostRuntime) -> Result<(), Fail> {
    let told = points_of(rt.alloc(), SCRIPT);
    assert!(rt; told == Ok([131_415, 11_117, 11_117]));
    Ok(())
}
