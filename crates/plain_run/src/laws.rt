//! The law of turns, proved.

ghost use Rattle.std.specs.Prelude.{ℕ};
ghost use Rattle.plain_run.specs.Turns.{TurnsMakeRuns};

/// Sessions one after the other over one store make a run.
pub fn turns_make_runs()
    ensures { (size : ℕ) → TurnsMakeRuns size }
{}
