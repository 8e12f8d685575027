//! `load SEED N`.

ghost use Rattle.std.specs.Prelude.{◌≢◌, ◌<◌, ◌≤◌, IfOk};
ghost use Rattle.session.specs.Plan.{PlanFits};
ghost use Rattle.retro.specs.Asked.{BytesAsk};
ghost use Rattle.retro.specs.Loads.{Loads, load_text};
ghost use Rattle.retro.specs.Says.{IsOfKept, IsStatus, number_of};
ghost use Rattle.retro.specs.Seen.{seen};
ghost use Rattle.retro.specs.declared.words.TheConstants.{LAST_SEED};

use crate::asking::{NoPlan, plan_in, refuse as refuse_script};
use crate::crew::Crew;
use crate::memory::run_in_memory;
use crate::saying::{Status, refuse, write_made};
use crate::summary::summary_of;
use feeds::Sink;
use session::{Plan, RunItems};
use std::alloc::Global;
use std::sync::Wait;
use std::thread::Threads;
use workload::script_of;

// What the script of a load asks for, or why it asks for nothing.
fn load_plan(alloc: Global, seed: u32, rounds: u32) -> Result<Plan, NoPlan>
    requires { seed ≤ LAST_SEED }
    ensures asks { BytesAsk (load_text seed rounds) result }
    ensures fits { IfOk result (λ plan. PlanFits plan) }
{
    let bytes = script_of(alloc, seed, rounds)?;
    plan_in(alloc, bytes.as_slice())
}

// Runs the script of a load and writes the summary, or the line that stands in its place. Answers how it ended.
fn perform<R: Threads + Wait + Sync, K: Sink, I: RunItems + Sync>(
    alloc: Global,
    crew: &Crew<'_, R, I>,
    sink: &mut K,
    seed: u32,
    rounds: u32,
) -> Status
    requires threads { 0 < crew.now.threads }
    requires seed { seed ≤ LAST_SEED }
    ensures loads { Loads seed rounds (seen K.held K.faults sink.old sink.new) (number_of result) }
    ensures status { IsOfKept result }
{
    let plan = match load_plan(alloc, seed, rounds) {
        Ok(plan) => plan,
        Err(why) => return refuse_script(alloc, sink, why),
    };
    match run_in_memory(alloc, crew, &plan) {
        Ok(ended) => write_made(sink, summary_of(alloc, seed, rounds, &plan, &ended)),
        Err(refusal) => refuse(alloc, sink, refusal),
    }
}

/// Runs the script of a load over an empty store in memory, and writes a summary of it to the sink. Answers the exit
/// status.
pub fn load<R: Threads + Wait + Sync, K: Sink, I: RunItems + Sync>(
    alloc: Global,
    crew: &Crew<'_, R, I>,
    sink: &mut K,
    seed: u32,
    rounds: u32,
) -> u8
    requires threads { 0 < crew.now.threads }
    requires seed { seed ≤ LAST_SEED }
    ensures loads { Loads seed rounds (seen K.held K.faults sink.old sink.new) result }
    ensures status { IsStatus result }
    ensures words { (result ≢ 2) × (result ≢ 9) }
{
    perform(alloc, crew, sink, seed, rounds).number()
}
