//! Seats of one store, which may meet, and at which a worker may run.

ghost use Rattle.std.specs.Prelude.{◌≡◌, ℕ};
ghost use Rattle.journal_law.specs.Seats.{Idle};
ghost use Rattle.store.specs.declared.pace.Worker.{Worker as WorkerKind};
ghost use Rattle.store.specs.WorkerRounds.{IsFreshOrStopped, WorkerLeaves, number_of, worker as worker_name};
ghost use Rattle.retro.specs.Meeting.{HaveMet};

use journal_law::Seat;
use store::{Done, Worker};

/// A seat of a store, which may meet the others of its store.
pub trait Meets: Seat {
    // Both are seats of one store.
    ghost together: { Self → Self → Type 0 };

    /// Both seats have then seen the same lines: those that one of them had seen.
    fn meet(&mut self, other: &mut Self)
        requires { together self.old other.old }
        ensures met { HaveMet (Self.view self.old) (Self.view other.old) (Self.view self.new) (Self.view other.new) }
        ensures goes { Self.goes self.old self.new × Self.goes other.old other.new };

    // They stay so over the calls of either.
    ghost one_goes: { (s t u : Self) → Self.goes s t → together s u → together t u };

    ghost other_goes: { (s t u : Self) → Self.goes s t → together u s → together u t };
}

/// A seat at which a worker may run.
pub trait Works: Meets {
    // The worker ran at a seat in a phase, unless the store had stopped.
    ghost works: { ℕ → WorkerKind → Self → Self → Type 0 };

    /// Runs the worker whose seat it is in a phase, until its rounds end, unless the store has stopped.
    fn work(&mut self, worker: Worker, phase: u16, done: &Done)
        requires worker { (Self.view self.old).session ≡ number_of worker }
        requires idle { (Self.view self.old).work ≡ Idle }
        requires may { IsFreshOrStopped (Self.view self.old) }
        ensures leaves { WorkerLeaves (worker_name phase (Self.view self.old).session) (Self.view self.old)
            (Self.view self.new) }
        ensures works { Self.works phase worker self.old self.new }
        ensures goes { Self.goes self.old self.new };
}
