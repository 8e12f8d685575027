//! The laws of runs, proved.

ghost use Rattle.std.specs.Prelude.{ℕ};
ghost use Rattle.session.specs.Run.{LawOfRuns};

/// A run of sessions over one store, from pages that hold tables: its journal is lawful over tables, the pages hold the
/// tables of its lines at each place, and what it prints is the journal's transcript.
pub fn law_of_runs()
    ensures { (size : ℕ) → LawOfRuns size }
{}
