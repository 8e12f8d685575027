//! A session's way through the items of a phase, one after the other.

ghost use Rattle.std.specs.Prelude.{◌≡◌, ◌≤◌, OnOk, length};
ghost use Rattle.std.specs.List.{AllByRecursion};
ghost use Rattle.journal_law.specs.Seats.{Idle};
ghost use Rattle.session.specs.Plan.{Plan as PlanOf, TaskFits};
ghost use Rattle.session.specs.Run.{IsSessionOf, RunsSession};
ghost use Rattle.session.specs.SoFar.{IsBehind, IsNew, StepsOn, with_kept};

use crate::item::{Done, RunItems};
use crate::kept::Kept;
use crate::plan::Task;
use crate::result_table::{ResultTables, hold};
use journal_law::Seat;
use retro_base::{ITEMS, Who};
use script::SessionName;
use std::alloc::{AllocError, Global};
use values::Seq;

/// What stands behind the items that are done: whether one was cut short, the result tables that calls left, and what
/// is kept of each.
#[derive(Debug, Drop)]
pub struct Progress {
    stopped: bool,
    results: ResultTables,
    kept: Seq<Kept>,
}

impl Progress {
    fn new(alloc: Global) -> Progress
        ensures { IsNew result }
    {
        Progress {
            stopped: false,
            results: ResultTables::new(alloc),
            kept: Seq::new(alloc),
        }
    }

    fn keep(&mut self, kept: Kept) -> Result<(), AllocError>
        ensures { OnOk result (self.new ≡ with_kept kept self.old) }
    {
        self.kept.push(kept)?;
        Ok(())
    }

    // Keeps what became of an item that was run.
    fn take(&mut self, done: Done) -> Result<(), AllocError>
        ensures { OnOk result (IsBehind done self.old self.new) }
    {
        match done {
            Done::Told { text, table } => {
                if let Some(table) = table {
                    hold(&mut self.results, table)?;
                }
                self.keep(Kept::Told(text))
            }
            Done::CutShort => {
                self.stopped = true;
                self.keep(Kept::CutShort)
            }
        }
    }

    // Runs the next item, unless one was cut short, and keeps what becomes of it.
    fn step<S: Seat, R: RunItems>(
        &mut self,
        alloc: Global,
        seat: S,
        runner: &R,
        who: Who,
        names: &[SessionName],
        task: &Task,
    ) -> (S, Result<(), AllocError>)
        requires idle { (S.view seat).work ≡ Idle }
        requires own { who.session ≡ (S.view seat).session }
        requires fits { TaskFits task.now }
        ensures idle { (S.view result.0).work ≡ Idle }
        ensures session { (S.view result.0).session ≡ (S.view seat).session }
        ensures goes { S.goes seat result.0 }
        ensures steps { S.is_honest seat → StepsOn who (record { names = names.now; task = task.now }) (S.view seat)
            (S.view result.0) self.old self.new result.1 }
    {
        if self.stopped {
            let kept = self.keep(Kept::NotRun);
            return (seat, kept);
        }
        let (seat, answered) = runner.run_item(alloc, seat, who, names, task, &self.results);
        match answered {
            Ok(done) => {
                let taken = self.take(done);
                (seat, taken)
            }
            Err(AllocError) => (seat, Err(AllocError)),
        }
    }
}

/// Runs the tasks of the session at a place of a phase, one after the other, and gives what is kept of each. Behind one
/// that was cut short none is run. AllocError where memory is wanting to keep a reply: the session ends there, with
/// nothing open.
pub fn run_session<S: Seat, R: RunItems>(
    alloc: Global,
    seat: S,
    runner: &R,
    phase: u16,
    place: u16,
    names: &[SessionName],
    tasks: &[Task],
) -> (S, Result<Seq<Kept>, AllocError>)
    requires idle { (S.view seat).work ≡ Idle }
    requires own { place ≡ (S.view seat).session }
    requires few { length tasks.now ≤ ITEMS }
    requires fit { AllByRecursion TaskFits tasks.now }
    ensures idle { (S.view result.0).work ≡ Idle }
    ensures session { (S.view result.0).session ≡ (S.view seat).session }
    ensures goes { S.goes seat result.0 }
    ensures ran { S.is_honest seat → (plan : PlanOf) → IsSessionOf plan phase place names.now tasks.now
        → RunsSession (S.view seat).opened.base.page_count plan phase (S.view seat) (S.view result.0) result.1 }
{
    let mut seat = seat;
    let mut progress = Progress::new(alloc);
    for (index, task) in tasks.iter().enumerate() {
        let item = index as u32 + 1;
        let who = Who {
            phase,
            session: place,
            item,
        };
        let (next, stepped) = progress.step(alloc, seat, runner, who, names, task);
        seat = next;
        if stepped.is_err() {
            return (seat, Err(AllocError));
        }
    }
    let Progress { kept, .. } = progress;
    (seat, Ok(kept))
}
