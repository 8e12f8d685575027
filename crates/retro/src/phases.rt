//! Runs the phases of a plan over one store, at which each session and each worker has a seat of its own.

ghost use Rattle.std.specs.Prelude.{◌≡◌, ◌<◌, List, Some, length, slice_get};
ghost use denote.Param.Send.{IsSend, IsSync};
ghost use Rattle.history.specs.declared.journal.Line.{Line};
ghost use Rattle.journal_law.specs.Lawful.{Ground};
ghost use Rattle.retro.specs.Phases.{StandTogether};
ghost use Rattle.retro.specs.Slots.{AllCome, AreHonest, AreSeated, AreTogether, IsSeated, view_at};
ghost use Rattle.retro.specs.Steps.{AllRan, HasMetEach, MetAll, PairMet, PhaseRuns, RanAt, RanThrough, RunsPhases};
ghost use Rattle.retro.specs.Working.{AllWorked, AreWorkers, MayWorkOn, WorkedTwice};
ghost use Rattle.session.specs.Plan.{IsPhaseOf, Plan as PlanOf, PlanFits, SessionFits, SessionsFit};
ghost use Rattle.session.specs.declared.plan.SessionPlan.{SessionPlan as SessionPlanOf};

use crate::seats::{Meets, Works};
use crate::slots::{Slot, answers, put, take};
use crate::working::{SEATS, WORKERS, work_all};
use journal_law::Seat;
use retro_base::SESSIONS;
use script::SessionName;
use session::{Kept, Plan, RunItems, SessionPlan, names_of, run_session};
use std::alloc::{AllocError, Global};
use std::thread;
use std::thread::{Threads, join_mut};
use store::Done;
use values::Seq;

// Runs a session of a phase at the seat in its slot, which keeps what it answered.
fn run_at<S: Seat, R: RunItems>(
    alloc: Global,
    slot: &mut Slot<S>,
    runner: &R,
    phase: u16,
    number: u16,
    names: &[SessionName],
    session: &SessionPlan,
)
    requires seated { IsSeated S.view number slot.old.seat }
    requires fits { SessionFits session.now }
    ensures { RanAt S.view S.goes S.is_honest phase number names.now session.now.tasks slot.old.seat slot.new.seat
        slot.new.answered }
{
    let seat = slot.take();
    let tasks = session.tasks.as_slice();
    let (seat, answered) = run_session(alloc, seat, runner, phase, number, names, tasks);
    slot.put(seat);
    slot.answered = answered;
}

// Runs the session of a number.
fn run_numbered<S: Seat, R: RunItems>(
    alloc: Global,
    slot: &mut Slot<S>,
    runner: &R,
    phase: u16,
    number: usize,
    names: &[SessionName],
    sessions: &[SessionPlan],
)
    requires bound { number < length sessions.now }
    requires seated { IsSeated S.view number slot.old.seat }
    requires fit { SessionsFit sessions.now }
    ensures { (session : SessionPlanOf) → slice_get sessions.now number ≡ Some session
        → RanAt S.view S.goes S.is_honest phase number names.now session.tasks slot.old.seat slot.new.seat
        slot.new.answered }
{
    let session = &sessions[number];
    run_at(alloc, slot, runner, phase, number as u16, names, session);
}

// Runs the sessions of a phase at once, in so many threads, each at the seat in its slot.
fn run_all<H: Threads + Sync, S: Seat + Send, R: RunItems + Sync>(
    alloc: Global,
    rt: &H,
    threads: usize,
    slots: &mut [Slot<S>],
    runner: &R,
    phase: u16,
    names: &[SessionName],
    sessions: &[SessionPlan],
)
    requires threads { 0 < threads }
    requires seated { AreSeated S.view slots.old }
    requires count { length slots.old ≡ length sessions.now }
    requires fit { SessionsFit sessions.now }
    ensures count { length slots.new ≡ length slots.old }
    ensures ran { AllRan S.view S.goes S.is_honest phase names.now sessions.now slots.old slots.new }
{
    thread::for_each_mut(
        rt,
        slots,
        threads,
        &|number, slot| run_numbered(alloc, slot, runner, phase, number, names, sessions),
    );
}

// Runs the sessions of a phase so, and then tells the workers that nothing more will come.
fn run_and_tell<H: Threads + Sync, S: Seat + Send, R: RunItems + Sync>(
    alloc: Global,
    rt: &H,
    threads: usize,
    runner: &R,
    phase: u16,
    names: &[SessionName],
    sessions: &[SessionPlan],
    done: &Done,
    slots: &mut [Slot<S>],
)
    requires threads { 0 < threads }
    requires seated { AreSeated S.view slots.old }
    requires count { length slots.old ≡ length sessions.now }
    requires fit { SessionsFit sessions.now }
    ensures count { length slots.new ≡ length slots.old }
    ensures ran { AllRan S.view S.goes S.is_honest phase names.now sessions.now slots.old slots.new }
{
    run_all(alloc, rt, threads, slots, runner, phase, names, sessions);
    let _told = done.set();
}

// Runs the sessions of a phase, and the workers beside them. The workers are what waits where no thread can be started:
// they end only behind the sessions.
fn run_beside<H: Threads + Sync, S: Works + Send, R: RunItems + Sync>(
    alloc: Global,
    rt: &H,
    threads: usize,
    runner: &R,
    phase: u16,
    names: &[SessionName],
    sessions: &[SessionPlan],
    done: &Done,
    slots: &mut [Slot<S>],
    workers: &mut [Slot<S>],
)
    requires threads { 0 < threads }
    requires seated { AreSeated S.view slots.old }
    requires count { length slots.old ≡ length sessions.now }
    requires fit { SessionsFit sessions.now }
    requires workers { (length workers.old ≡ WORKERS) × AreWorkers S.view workers.old }
    ensures count { length slots.new ≡ length slots.old }
    ensures ran { AllRan S.view S.goes S.is_honest phase names.now sessions.now slots.old slots.new }
    ensures workers { length workers.new ≡ length workers.old }
    ensures worked { AllWorked S.view S.goes S.works phase workers.old workers.new }
{
    let mut work = ||
        requires { IsSync H.row × IsSend S.row × (length workers.now ≡ WORKERS) × AreWorkers S.view workers.now }
        ensures { (length workers.exit.now ≡ length workers.entry.now)
            × AllWorked S.view S.goes S.works phase workers.entry.now workers.exit.now }
    { work_all(rt, WORKERS, phase, done, workers) };
    let mut run = ||
        requires { IsSync H.row × IsSend S.row × IsSync R.row × (0 < threads) × AreSeated S.view slots.now
            × (length slots.now ≡ length sessions.now) × SessionsFit sessions.now }
        ensures { (length slots.exit.now ≡ length slots.entry.now)
            × AllRan S.view S.goes S.is_honest phase names.entry.now sessions.entry.now slots.entry.now slots.exit.now }
    {
        run_and_tell(
            alloc, rt, threads, runner, phase, names, sessions, done, slots,
        )
    };
    join_mut(rt, &mut work, &mut run);
}

// Runs the sessions of a phase and the workers at once, and then the workers once more.
fn run_with_workers<H: Threads + Sync, S: Works + Send, R: RunItems + Sync>(
    alloc: Global,
    rt: &H,
    threads: usize,
    runner: &R,
    phase: u16,
    names: &[SessionName],
    sessions: &[SessionPlan],
    slots: &mut [Slot<S>],
    workers: &mut [Slot<S>],
)
    requires threads { 0 < threads }
    requires seated { AreSeated S.view slots.old }
    requires count { length slots.old ≡ length sessions.now }
    requires fit { SessionsFit sessions.now }
    requires two { length workers.old ≡ WORKERS }
    requires workers { AreWorkers S.view workers.old }
    ensures count { length slots.new ≡ length slots.old }
    ensures ran { AllRan S.view S.goes S.is_honest phase names.now sessions.now slots.old slots.new }
    ensures worked { WorkedTwice S.view S.goes S.works phase workers.old workers.new }
{
    let done = Done::new();
    run_beside(
        alloc, rt, threads, runner, phase, names, sessions, &done, slots, workers,
    );
    work_all(rt, 1, phase, &done, workers);
}

// Runs the sessions of a phase and the workers at once, each at its seat, and gives what is kept of each session.
fn run_sessions<H: Threads + Sync, S: Works + Send, R: RunItems + Sync>(
    alloc: Global,
    rt: &H,
    threads: usize,
    slots: &mut [Slot<S>],
    runner: &R,
    phase: u16,
    sessions: &[SessionPlan],
) -> Result<Seq<Seq<Kept>>, AllocError>
    requires threads { 0 < threads }
    requires count { length slots.old ≡ SEATS }
    requires seated { AreSeated S.view slots.old }
    requires may { MayWorkOn S.view slots.old }
    requires fit { SessionsFit sessions.now }
    ensures come { AllCome S.view S.goes slots.old slots.new }
    ensures may { MayWorkOn S.view slots.new }
    ensures ran { AreHonest S.is_honest slots.old → (plan : PlanOf) → IsPhaseOf plan phase sessions.now
        → RanThrough plan phase (length slots.old) (length sessions.now) (view_at S.view slots.old)
        (view_at S.view slots.new) result }
{
    let names = names_of(alloc, sessions)?;
    let (seats, workers) = slots.split_at_mut(SESSIONS);
    let (seated, _) = seats.split_at_mut(sessions.len());
    run_with_workers(
        alloc,
        rt,
        threads,
        runner,
        phase,
        names.as_slice(),
        sessions,
        seated,
        workers,
    );
    answers(alloc, seated)
}

// The first seat and that of a number meet.
fn meet_first<S: Meets>(slots: &mut [Slot<S>], number: usize)
    requires bound { (0 < number) × (number < length slots.old) }
    requires seated { AreSeated S.view slots.old }
    requires together { AreTogether S.together slots.old }
    ensures come { AllCome S.view S.goes slots.old slots.new }
    ensures met { PairMet (view_at S.view slots.old) (view_at S.view slots.new) number }
{
    let mut first = take(slots, 0);
    let mut other = take(slots, number);
    first.meet(&mut other);
    put(slots, number, other);
    put(slots, 0, first);
}

// The first seat meets each other.
fn meet_each<S: Meets>(slots: &mut [Slot<S>])
    requires seated { AreSeated S.view slots.old }
    requires together { AreTogether S.together slots.old }
    ensures come { AllCome S.view S.goes slots.old slots.new }
    ensures met { HasMetEach (view_at S.view slots.old) (view_at S.view slots.new) (length slots.old)
        (length slots.old) }
{
    for number in 1..slots.len() {
        meet_first(slots, number);
    }
}

// All seats meet: the first gathers what the others have seen, and spreads it then.
fn meet_all<S: Meets>(slots: &mut [Slot<S>])
    requires seated { AreSeated S.view slots.old }
    requires together { AreTogether S.together slots.old }
    ensures come { AllCome S.view S.goes slots.old slots.new }
    ensures met { MetAll (length slots.old) (view_at S.view slots.old) (view_at S.view slots.new) }
{
    meet_each(slots);
    meet_each(slots);
}

// Runs a phase, behind which all seats have met.
fn run_phase<H: Threads + Sync, S: Works + Send, R: RunItems + Sync>(
    alloc: Global,
    rt: &H,
    threads: usize,
    slots: &mut [Slot<S>],
    runner: &R,
    phase: u16,
    sessions: &[SessionPlan],
) -> Result<Seq<Seq<Kept>>, AllocError>
    requires threads { 0 < threads }
    requires seated { AreSeated S.view slots.old }
    requires count { length slots.old ≡ SEATS }
    requires may { MayWorkOn S.view slots.old }
    requires together { AreTogether S.together slots.old }
    requires fit { SessionsFit sessions.now }
    ensures come { AllCome S.view S.goes slots.old slots.new }
    ensures may { MayWorkOn S.view slots.new }
    ensures ran { AreHonest S.is_honest slots.old → (plan : PlanOf) → IsPhaseOf plan phase sessions.now
        → (opened : Ground) → PhaseRuns plan opened (length slots.old) phase (view_at S.view slots.old)
        (view_at S.view slots.new) result }
{
    let kept = run_sessions(alloc, rt, threads, slots, runner, phase, sessions);
    meet_all(slots);
    kept
}

/// Runs what a script asks for over one store, at which each session has the seat in the slot of its number, and behind
/// them the copier and the flusher. The sessions of a phase run at once, in at most so many threads (with one they run
/// in turn), and the workers beside them, in threads of their own; and these once more when the sessions have ended.
/// All seats have met behind each phase, and at the end. AllocError where memory is wanting to keep a reply: the run
/// ends behind that phase.
pub fn run_phases<H: Threads + Sync, S: Works + Send, R: RunItems + Sync>(
    alloc: Global,
    rt: &H,
    threads: usize,
    slots: &mut [Slot<S>],
    runner: &R,
    plan: &Plan,
) -> Result<Seq<Seq<Seq<Kept>>>, AllocError>
    requires threads { 0 < threads }
    requires fits { PlanFits plan.now }
    requires count { length slots.old ≡ SEATS }
    requires seated { AreSeated S.view slots.old }
    requires may { MayWorkOn S.view slots.old }
    requires together { AreTogether S.together slots.old }
    ensures come { AllCome S.view S.goes slots.old slots.new }
    ensures may { MayWorkOn S.view slots.new }
    ensures ran { AreHonest S.is_honest slots.old → (opened : Ground) (front : List Line)
        → StandTogether opened.base.page_count plan.now opened (length slots.old) 1 front (view_at S.view slots.old)
        → RunsPhases plan.now opened (length slots.old) (view_at S.view slots.new) result }
{
    let mut kept = Seq::new(alloc);
    for (index, sessions) in plan.as_slice().iter().enumerate() {
        let phase = index as u16 + 1;
        let one = run_phase(
            alloc,
            rt,
            threads,
            slots,
            runner,
            phase,
            sessions.as_slice(),
        )?;
        kept.push(one)?;
    }
    Ok(kept)
}
