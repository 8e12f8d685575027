//! Runs a plan over the plain store: the sessions of each phase one after the other.

ghost use Rattle.std.specs.Prelude.{◌≡◌, ◌≤◌, ◌+◌, IfOk, length};
ghost use Rattle.std.specs.List.{AllByRecursion};
ghost use Rattle.journal_law.specs.Seats as seat;
ghost use Rattle.plain_store.specs.Plain.{view_of};
ghost use Rattle.session.specs.Plan.{IsPhaseOf, Plan as PlanOf, PlanFits, SessionFits, SessionsFit, names_of};
ghost use Rattle.session.specs.Run.{IsSessionOf};
ghost use Rattle.plain_run.specs.Turns.{CameThrough, PhaseRan, RanPlainly, TookTurn};

use history::Journal;
use plain_store::PlainStore;
use relation_laws::store_law;
use retro_base::{MEMORY_CAPACITY, MEMORY_PAGES};
use script::SessionName;
use session::{Kept, Plan, RunItems, SessionPlan, names_of, print, run_session};
use std::alloc::{AllocError, Global};
use values::Seq;

/// A run that has ended: its journal, and its transcript.
#[derive(Drop)]
pub struct Finished {
    pub journal: Journal,
    pub transcript: Vec<u8>,
}

// Runs the session at a place of a phase in its turn, and gives what is kept of its items.
fn turn<R: RunItems>(
    alloc: Global,
    store: PlainStore,
    runner: &R,
    phase: u16,
    place: u16,
    names: &[SessionName],
    session: &SessionPlan,
) -> Result<(PlainStore, Seq<Kept>), AllocError>
    requires idle { (view_of store).work ≡ seat.Idle }
    requires fits { SessionFits session.now }
    ensures idle { IfOk result (λ r. (view_of r.0).work ≡ seat.Idle) }
    ensures took { IfOk result (λ r. (plan : PlanOf) → IsSessionOf plan phase place names.now session.now.tasks
        → TookTurn plan phase place store r.0 r.1) }
{
    let mut store = store;
    store.begin_turn(place);
    let tasks = session.tasks.as_slice();
    match run_session(alloc, store, runner, phase, place, names, tasks) {
        (store, Ok(kept)) => Ok((store, kept)),
        (_, Err(AllocError)) => Err(AllocError),
    }
}

// Runs the sessions of a phase, one after the other, and gives what is kept of each.
fn run_phase<R: RunItems>(
    alloc: Global,
    store: PlainStore,
    runner: &R,
    phase: u16,
    sessions: &[SessionPlan],
) -> Result<(PlainStore, Seq<Seq<Kept>>), AllocError>
    requires idle { (view_of store).work ≡ seat.Idle }
    requires fit { SessionsFit sessions.now }
    ensures { IfOk result (λ r. (plan : PlanOf) → IsPhaseOf plan phase sessions.now →
        PhaseRan plan phase store r.0 r.1) }
{
    let names = names_of(alloc, sessions)?;
    let mut store = store;
    let mut kept = Seq::new(alloc);
    for (place, session) in sessions.iter().enumerate() {
        let place = place as u16;
        let (next, one) = turn(
            alloc,
            store,
            runner,
            phase,
            place,
            names.as_slice(),
            session,
        )?;
        store = next;
        kept.push(one)?;
    }
    Ok((store, kept))
}

/// Runs what a script asks for over an empty plain store, one session after the other. Want of memory ends it.
pub fn run_plan<R: RunItems>(alloc: Global, runner: &R, plan: &Plan) -> Result<Finished, AllocError>
    requires { PlanFits plan.now }
    ensures { IfOk result (λ run. RanPlainly plan.now run.journal run.transcript.items) }
{
    // A law for the proof: pages of zeros hold no tables.
    store_law();
    let mut store = PlainStore::new(alloc, MEMORY_PAGES, MEMORY_CAPACITY)?;
    let mut kept = Seq::new(alloc);
    for (index, sessions) in plan.as_slice().iter().enumerate() {
        let phase = index as u16 + 1;
        let (next, one) = run_phase(alloc, store, runner, phase, sessions.as_slice())?;
        store = next;
        kept.push(one)?;
    }
    let journal = store.into_journal();
    let transcript = print(alloc, plan, kept.as_slice(), 0, journal.as_slice())?;
    Ok(Finished {
        journal,
        transcript,
    })
}
