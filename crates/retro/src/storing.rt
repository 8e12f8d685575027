//! Runs a plan over the four devices of a store, at which each session and each worker has a seat of its own.

ghost use Rattle.std.specs.Prelude.{◌≡◌, ◌<◌, ◌≤◌, ℕ, List, [], Some, Ok, IfOk, length, slice_get, vec_capacity};
ghost use Rattle.std.proofs.Common.{◌∙◌, sym};
ghost use Rattle.journal_law.specs.Lawful.{Ground};
ghost use Rattle.store.specs.Seen.{IsHonest, ground_in};
ghost use Rattle.session.specs.Plan.{PlanFits};
ghost use Rattle.store.specs.Closing.{AreReady};
ghost use Rattle.store.specs.Seats.{Sat};
ghost use Rattle.turn.specs.Seats.{opening};
ghost use Rattle.turn.specs.Tables.{table_of};
ghost use Rattle.retro.specs.Storing.{AllRest, AreFresh, AreHeld, AreIn, AreOf, ComeFrom};
ghost use Rattle.retro.specs.Storing.{IsAmong, IsPrinted, RunsOn, last_phase};

use crate::crew::Crew;
use crate::phases::run_phases;
use crate::seats::{Meets, Works};
use crate::slots::Slot;
use crate::working::SEATS;
use disk_model::{Disk, Four};
use history::{Journal, Version};
use retro_base::Refusal;
use session::{Kept, Plan, RunItems, print};
use std::alloc::{AllocError, Global};
use std::sync::Wait;
use std::thread::Threads;
use store::{Closed, Done, Held, Seat, Store, Worker, laws_of_crashes};
use values::Seq;

/// What a run over a store leaves beside its devices: the journal, what it replied to each item, unless memory was
/// wanting to keep it, the newest snapshot before it, how many captures were made, over all runs, and whether the
/// archive holds captures up to the last.
#[derive(Drop)]
pub struct Ended {
    pub journal: Journal,
    pub kept: Result<Seq<Seq<Seq<Kept>>>, AllocError>,
    pub newest: u32,
    pub captures: u64,
    pub copied: bool,
}

impl<'a, R: Wait, D: Disk + Drop> Meets for Held<'a, R, D> {
    ghost use Rattle.turn.specs.Tables.{table_of};

    ghost together = { λ h k. table_of k.store.now.turn ≡ table_of h.store.now.turn };

    ghost one_goes = { λ s t u went met. met ∙ sym went.store };

    ghost other_goes = { λ s t u went met. went.store ∙ met };

    fn meet(&mut self, other: &mut Self) {
        Held::meet(self, other);
    }
}

impl<'a, R: Wait, D: Disk + Drop> Works for Held<'a, R, D> {
    ghost use Rattle.store.specs.WorkerRounds.{HasRun};
    ghost use Rattle.turn.specs.Tables.{table_of};

    ghost works = { λ phase worker h k. HasRun D.is_honest D.state D.faults
        (table_of h.store.now.turn) D.remembers D.clock
        phase worker h.seat k.seat };

    fn work(&mut self, worker: Worker, phase: u16, done: &Done) {
        let _answer = Held::work(self, worker, phase, done);
    }
}

// The seats of a store in their slots, which have the room for them.
fn sit_down<'a, R: Wait, D: Disk + Drop>(
    alloc: Global,
    rt: &'a R,
    store: &'a Store<D>,
    seats: Vec<Seat<D>>,
    slots: Vec<Slot<Held<'a, R, D>>>,
) -> Vec<Slot<Held<'a, R, D>>>
    requires ready { AreReady (table_of store.now.turn) seats.items }
    requires fresh { AreFresh store.now.pages seats.items }
    requires none { slots.items ≡ [] }
    requires room { length seats.items ≤ vec_capacity slots }
    ensures { AreHeld D.state D.faults (table_of store.now.turn) seats.items result.items }
{
    let mut slots = slots;
    for seat in seats {
        let held = Held::new(alloc, rt, store, seat);
        slots.push_reserved(Slot::new(alloc, held));
    }
    slots
}

// The seats out of their slots.
fn stand_up<'a, R: Wait, D: Disk + Drop>(
    store: &'a Store<D>,
    slots: Vec<Slot<Held<'a, R, D>>>,
    seats: Vec<Seat<D>>,
) -> Vec<Seat<D>>
    requires held { AreIn D.state D.faults (table_of store.now.turn) slots.items }
    requires none { seats.items ≡ [] }
    requires room { length slots.items ≤ vec_capacity seats }
    ensures count { length result.items ≡ length slots.entry.items }
    ensures ready { AreReady (table_of store.now.turn) result.items }
    ensures rest { AllRest D.state D.faults result.items }
    ensures among { (number : ℕ) → IsAmong slots.entry.items result.items number }
    ensures of { AreOf slots.entry.items result.items }
{
    let mut slots = slots;
    let mut seats = seats;
    while !slots.is_empty() {
        let held = slots.take_last().into_seat();
        seats.push_reserved(held.into_seat());
    }
    slots.destroy_empty();
    seats
}

// Runs a plan at the seats of a store that was just opened, and gives them back, and what is kept of it.
fn run_seated<R: Threads + Wait + Sync, D: Disk + Drop + Send, I: RunItems + Sync>(
    alloc: Global,
    crew: &Crew<'_, R, I>,
    store: &Store<D>,
    seats: Vec<Seat<D>>,
    plan: &Plan,
) -> (Vec<Seat<D>>, Result<Seq<Seq<Seq<Kept>>>, AllocError>)
    requires threads { 0 < crew.now.threads }
    requires ready { AreReady (table_of store.now.turn) seats.items }
    requires fresh { AreFresh store.now.pages seats.items }
    requires fits { PlanFits plan.now }
    requires enough { length seats.items ≡ SEATS }
    ensures count { length result.0.items ≡ length seats.items }
    ensures ready { AreReady (table_of store.now.turn) result.0.items }
    ensures rest { AllRest D.state D.faults result.0.items }
    ensures ran { (opened : Ground)
        → ((k : ℕ) (s : Sat D) → slice_get seats.items k ≡ Some s
        → IsHonest D.is_honest D.state s × (ground_in D.state D.faults (opening s) ≡ opened))
        → ComeFrom D.state D.faults plan.now opened (length seats.items) result.0.items result.1 }
{
    let Ok(back) = Vec::with_capacity(alloc, seats.len()) else {
        return (seats, Err(AllocError));
    };
    let Ok(slots) = Vec::with_capacity(alloc, seats.len()) else {
        return (seats, Err(AllocError));
    };
    let mut slots = sit_down(alloc, crew.rt, store, seats, slots);
    let kept = run_phases(
        alloc,
        crew.rt,
        crew.threads,
        slots.as_mut_slice(),
        crew.runner,
        plan,
    );
    (stand_up(store, slots, back), kept)
}

/// The transcript of a run, if what it replied was kept.
pub fn transcript_of(alloc: Global, plan: &Plan, ended: &Ended) -> Result<Vec<u8>, AllocError>
    ensures { IfOk result (λ text. IsPrinted plan.now ended.now text.items) }
{
    match &ended.kept {
        Ok(kept) => print(
            alloc,
            plan,
            kept.as_slice(),
            ended.newest,
            ended.journal.as_slice(),
        ),
        Err(AllocError) => Err(AllocError),
    }
}

// The phase of the last copying.
fn last_phase(plan: &Plan) -> u16
    requires fits { PlanFits plan.now }
    ensures { result ≡ last_phase plan.now }
{
    let phases = plan.as_slice().len();
    if phases == 0 { 1 } else { phases as u16 }
}

/// Runs a plan over the store on four devices, which are opened as `Store::fetch` opens them, and refused so. They come
/// back: each session and each worker has had a seat of its own, and the store is closed behind the run, with what it
/// captured copied to the archive.
pub fn run_on<R: Threads + Wait + Sync, D: Disk + Drop + Send, I: RunItems + Sync>(
    alloc: Global,
    crew: &Crew<'_, R, I>,
    disks: Four<D>,
    plan: &Plan,
) -> (Four<D>, Result<Ended, Refusal>)
    requires threads { 0 < crew.now.threads }
    requires fits { PlanFits plan.now }
    ensures { RunsOn D.extent D.faults D.is_honest D.remembers D.state D.clock plan.now disks result.0 result.1 }
{
    // A law for the proof: what readers see of the pages that a store opens with, and that it leaves.
    laws_of_crashes::<D>();
    match Store::fetch(alloc, Version::One, disks, SEATS as u32) {
        Err((disks, why)) => (disks, Err(why)),
        Ok((store, seats)) => {
            let newest = store.newest();
            let (seats, kept) = run_seated(alloc, crew, &store, seats, plan);
            let (closed, copied) = store.close_copied(crew.rt, seats, last_phase(plan));
            let Closed {
                disks,
                journal,
                captures,
            } = closed;
            let ended = Ended {
                journal,
                kept,
                newest,
                captures,
                copied,
            };
            (disks, Ok(ended))
        }
    }
}
