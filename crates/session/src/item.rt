//! The run of one item, whatever it asks for.

ghost use Rattle.std.specs.Prelude.{◌≡◌};
ghost use Rattle.journal_law.specs.Seats.{Idle};
ghost use Rattle.session.specs.Held.{held};
ghost use Rattle.session.specs.OneTask.{RunsTask};
ghost use Rattle.session.specs.Plan.{TaskFits};

use crate::plan::Task;
use crate::result_table::{ResultTable, ResultTables};
use journal_law::Seat;
use retro_base::Who;
use script::SessionName;
use std::alloc::{AllocError, Global};
use values::Seq;

/// What became of an item that was run.
#[derive(Debug, Drop)]
pub enum Done {
    /// Its reply lines, and the result table that it leaves, if any.
    Told {
        text: Seq<u8>,
        table: Option<ResultTable>,
    },
    /// It was cut short.
    CutShort,
}

/// What runs the items of sessions.
pub trait RunItems {
    /// Runs an item, in a phase whose sessions have these names, with the result tables that calls of the session left.
    /// Where memory is wanting for its reply it has been run none the less.
    fn run_item<S: Seat>(
        &self,
        alloc: Global,
        seat: S,
        who: Who,
        names: &[SessionName],
        task: &Task,
        results: &ResultTables,
    ) -> (S, Result<Done, AllocError>)
        requires idle { (S.view seat).work ≡ Idle }
        requires own { who.session ≡ (S.view seat).session }
        requires fits { TaskFits task.now }
        ensures idle { (S.view result.0).work ≡ Idle }
        ensures session { (S.view result.0).session ≡ (S.view seat).session }
        ensures goes { S.goes seat result.0 }
        ensures runs { S.is_honest seat → RunsTask who (record { names = names.now; task = task.now })
            (held results.now) (S.view seat) (S.view result.0) result.1 };
}
