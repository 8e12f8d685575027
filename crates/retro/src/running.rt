//! `run`.

ghost use Rattle.std.specs.Prelude.{◌≢◌, ◌<◌};
ghost use Rattle.retro_base.specs.declared.limits.TheConstants.{MEMORY_PAGES};
ghost use Rattle.retro.specs.Memory.{memory_opening};
ghost use Rattle.retro.specs.Program.{RunsPlainly};
ghost use Rattle.retro.specs.Says.{IsOfKept, IsStatus, number_of};
ghost use Rattle.retro.specs.Seen.{seen};

use crate::asking::{plan_from, refuse as refuse_script};
use crate::crew::Crew;
use crate::memory::run_in_memory;
use crate::saying::{Status, refuse, write_made};
use crate::storing::transcript_of;
use feeds::{Sink, Source};
use session::RunItems;
use std::alloc::Global;
use std::sync::Wait;
use std::thread::Threads;

// Reads and runs the script and writes its transcript, or the line that stands in its place. Answers how it ended.
fn perform<R: Threads + Wait + Sync, S: Source, K: Sink, I: RunItems + Sync>(
    alloc: Global,
    crew: &Crew<'_, R, I>,
    source: &mut S,
    sink: &mut K,
) -> Status
    requires threads { 0 < crew.now.threads }
    ensures runs { RunsPlainly MEMORY_PAGES memory_opening (seen S.left S.faults source.old source.new)
        (seen K.held K.faults sink.old sink.new) (number_of result) }
    ensures status { IsOfKept result }
{
    let plan = match plan_from(alloc, source) {
        Ok(plan) => plan,
        Err(why) => return refuse_script(alloc, sink, why),
    };
    match run_in_memory(alloc, crew, &plan) {
        Ok(ended) => write_made(sink, transcript_of(alloc, &plan, &ended)),
        Err(refusal) => refuse(alloc, sink, refusal),
    }
}

/// Reads a script from the source, runs it over an empty store in memory, and writes the transcript of every reply to
/// the sink, or one line that says why there is none. Answers the exit status.
pub fn run<R: Threads + Wait + Sync, S: Source, K: Sink, I: RunItems + Sync>(
    alloc: Global,
    crew: &Crew<'_, R, I>,
    source: &mut S,
    sink: &mut K,
) -> u8
    requires threads { 0 < crew.now.threads }
    ensures runs { RunsPlainly MEMORY_PAGES memory_opening (seen S.left S.faults source.old source.new)
        (seen K.held K.faults sink.old sink.new) result }
    ensures status { IsStatus result }
    ensures words { (result ≢ 2) × (result ≢ 9) }
{
    perform(alloc, crew, source, sink).number()
}
