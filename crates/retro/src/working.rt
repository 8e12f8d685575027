//! The workers of a phase, each at the seat in its slot.

ghost use Rattle.std.specs.Prelude.{◌≡◌, ◌<◌, ◌+◌, length};
ghost use Rattle.store.specs.WorkerRounds.{IsFreshOrStopped, number_of};
ghost use Rattle.retro.specs.Slots.{IsSeated, view_in};
ghost use Rattle.retro.specs.Working.{AllWorked, AreWorkers, WorkedAt, worker_of};

use crate::seats::Works;
use crate::slots::Slot;
use retro_base::SESSIONS;
use std::thread;
use std::thread::Threads;
use store::{Done, Worker};

/// The workers of a store: the copier, and the flusher.
pub const WORKERS: usize = 2;

/// The seats of a run's store: those of the sessions of a phase, and behind them those of the workers.
pub const SEATS: usize = SESSIONS + WORKERS;

// The worker whose seat is behind so many of workers.
fn worker_at(place: usize) -> Worker
    requires place { place < WORKERS }
    ensures kind { result ≡ worker_of (SESSIONS + place) }
    ensures number { SESSIONS + place ≡ number_of result }
{
    if place == 0 {
        Worker::Copier
    } else {
        Worker::Flusher
    }
}

// Runs a worker in a phase at the seat in its slot.
fn work_at<S: Works>(slot: &mut Slot<S>, place: usize, phase: u16, done: &Done)
    requires place { place < WORKERS }
    requires seated { IsSeated S.view (SESSIONS + place) slot.old.seat }
    requires may { IsFreshOrStopped (view_in S.view slot.old.seat) }
    ensures { WorkedAt S.view S.goes S.works phase (SESSIONS + place) slot.old.seat slot.new.seat }
{
    let worker = worker_at(place);
    let mut seat = slot.take();
    seat.work(worker, phase, done);
    slot.put(seat);
}

/// Runs the workers of a phase in at most so many threads, each at the seat in its slot, until their rounds end.
pub fn work_all<H: Threads + Sync, S: Works + Send>(
    rt: &H,
    threads: usize,
    phase: u16,
    done: &Done,
    slots: &mut [Slot<S>],
)
    requires threads { 0 < threads }
    requires count { length slots.old ≡ WORKERS }
    requires workers { AreWorkers S.view slots.old }
    ensures count { length slots.new ≡ length slots.old }
    ensures worked { AllWorked S.view S.goes S.works phase slots.old slots.new }
{
    thread::for_each_mut(
        rt,
        slots,
        threads,
        &|place, slot| work_at(slot, place, phase, done),
    );
}
