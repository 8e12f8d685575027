//! A worker at the seat that a store is held with.

ghost use Rattle.std.specs.Prelude.{◌≡◌, ◌++◌, [], None};
ghost use Rattle.journal_law.specs.Seats.{Idle};
ghost use Rattle.store.specs.Frames.{GoesOn};
ghost use Rattle.store.specs.Seats.{IsReady, IsWhole};
ghost use Rattle.store.specs.Seen.{view_of};
ghost use Rattle.store.specs.WorkerRounds.{HasWorked, IsFreshOrStopped, MayWork, WorkerEnds, WorkerGives, WorkerLeaves};
ghost use Rattle.store.specs.WorkerRounds.{lines_left, worker as worker_name};
ghost use Rattle.store.specs.WorkerRounds.{number_of};
ghost use Rattle.turn.specs.Seats.{IsSame, mine};
ghost use Rattle.turn.specs.Tables.{table_of};

use crate::copier_rounds::copier;
use crate::flusher_rounds::flusher;
use crate::held::Held;
use crate::pace::{Done, Ended, Worker};
use crate::shared::{Seat, Store};
use disk_model::Disk;
use race_model::Batch;
use retro_base::Refusal;
use std::alloc::Global;
use std::sync::Wait;

// Runs a worker; the copier is refused too where memory is wanting for its batch.
fn run<'d, R: Wait, D: Disk + Drop>(
    alloc: Global,
    store: &Store<D>,
    rt: &R,
    seat: &mut Seat<D>,
    worker: Worker,
    phase: u16,
    done: &'d Done,
) -> Result<Ended<'d>, Refusal>
    requires ready { IsReady (table_of store.now.turn) seat.old × IsWhole seat.old }
    requires may { MayWork seat.old }
    ensures ready { IsReady (table_of store.now.turn) seat.new × IsWhole seat.new }
    ensures same { IsSame seat.old seat.new }
    ensures idle { (mine seat.new).work ≡ None }
    ensures gives { WorkerGives (worker_name phase seat.old.number) (view_of D.state D.faults None [] seat.old)
        (view_of D.state D.faults None [] seat.new) result }
    ensures ends { WorkerEnds D.is_honest D.state D.faults (table_of store.now.turn) D.remembers D.clock
        (worker_name phase seat.old.number) done.now.flag.id worker result seat.old seat.new }
    ensures lines { (mine seat.new).lines
        ≡ (mine seat.old).lines ++ lines_left (worker_name phase seat.old.number) result }
{
    match worker {
        Worker::Copier => {
            let mut batch = Batch::new(alloc)?;
            copier(store, rt, seat, phase, &mut batch, done)
        }
        Worker::Flusher => flusher(store, rt, seat, phase, done),
    }
}

// Runs a worker, unless the store has stopped.
pub(crate) fn run_unless_stopped<'d, R: Wait, D: Disk + Drop>(
    alloc: Global,
    store: &Store<D>,
    rt: &R,
    seat: &mut Seat<D>,
    worker: Worker,
    phase: u16,
    done: &'d Done,
) -> Option<Result<Ended<'d>, Refusal>>
    requires ready { IsReady (table_of store.now.turn) seat.old × IsWhole seat.old }
    requires worker { seat.old.number ≡ number_of worker }
    requires idle { (mine seat.old).work ≡ None }
    requires may { IsFreshOrStopped (view_of D.state D.faults None [] seat.old) }
    ensures ready { IsReady (table_of store.now.turn) seat.new × IsWhole seat.new }
    ensures same { IsSame seat.old seat.new }
    ensures idle { (mine seat.new).work ≡ None }
    ensures leaves { WorkerLeaves (worker_name phase seat.old.number) (view_of D.state D.faults None [] seat.old)
        (view_of D.state D.faults None [] seat.new) }
    ensures works { HasWorked D.is_honest D.state D.faults (table_of store.now.turn) D.remembers D.clock
        (worker_name phase seat.old.number) done.now.flag.id worker result seat.old seat.new }
{
    if store.stopped(rt, seat) {
        return None;
    }
    Some(run(alloc, store, rt, seat, worker, phase, done))
}

impl<'a, R: Wait, D: Disk + Drop> Held<'a, R, D> {
    /// Runs the worker whose seat it is in a phase, until its rounds end, and answers why they did; none where the
    /// store has stopped. Its seat has recorded no line before, or the store has stopped; it leaves at most the line of
    /// the fault that ended it.
    pub fn work<'d>(
        &mut self,
        worker: Worker,
        phase: u16,
        done: &'d Done,
    ) -> Option<Result<Ended<'d>, Refusal>>
        requires worker { self.old.seat.number ≡ number_of worker }
        requires idle { (view_of D.state D.faults self.old.asked self.old.told.items self.old.seat).work ≡ Idle }
        requires may { IsFreshOrStopped (view_of D.state D.faults self.old.asked self.old.told.items self.old.seat) }
        ensures leaves { WorkerLeaves (worker_name phase self.old.seat.number)
            (view_of D.state D.faults self.old.asked self.old.told.items self.old.seat)
            (view_of D.state D.faults self.new.asked self.new.told.items self.new.seat) }
        ensures works { HasWorked D.is_honest D.state D.faults (table_of self.old.store.now.turn) D.remembers D.clock
            (worker_name phase self.old.seat.number) done.now.flag.id worker result self.old.seat self.new.seat }
        ensures goes { GoesOn (table_of self.old.store.now.turn) (table_of self.new.store.now.turn)
            self.old.seat self.new.seat }
    {
        self.kept = None;
        run_unless_stopped(
            self.alloc,
            self.store,
            self.rt,
            &mut self.seat,
            worker,
            phase,
            done,
        )
    }
}
