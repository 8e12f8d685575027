//! `run DIR`.

ghost use Rattle.std.specs.Prelude.{◌≡◌, ◌≢◌, ◌<◌, Ok};
ghost use Rattle.session.specs.Plan.{PlanFits};
ghost use Rattle.retro.specs.Keeping.{EndsRun, has_fault, in_place, is_fault, RunsIn, RunsOnStore};
ghost use Rattle.retro.specs.Says.{IsOfKept, IsOfStores, IsStatus, number_of};
ghost use Rattle.retro.specs.Seen.{seen};

use crate::asking::{plan_from, refuse as refuse_script};
use crate::crew::Crew;
use crate::saying::{Status, cabinet_fault, refuse, write_made};
use crate::storing::{Ended, run_on, transcript_of};
use disk_model::Cabinet;
use feeds::{Sink, Source};
use history::{Line, What};
use retro_base::Refusal;
use session::{Plan, RunItems};
use std::alloc::Global;
use std::sync::Wait;
use std::thread::Threads;

// Runs a plan over the store in the folder.
fn run_in<R: Threads + Wait + Sync, C: Cabinet, I: RunItems + Sync>(
    alloc: Global,
    crew: &Crew<'_, R, I>,
    cabinet: &mut C,
    dir: &str,
    plan: &Plan,
) -> Result<Ended, Refusal>
    requires threads { 0 < crew.now.threads }
    requires fits { PlanFits plan.now }
    ensures { RunsOnStore C.faults C.is_out C.tells C.store C.Device.extent C.Device.faults C.Device.is_honest
        C.Device.remembers C.Device.state C.Device.clock dir.now plan.now cabinet.old cabinet.new result }
{
    let Ok(disks) = cabinet.fetch(dir) else {
        return Err(cabinet_fault(cabinet));
    };
    let (disks, ended) = run_on(alloc, crew, disks, plan);
    cabinet.put_back(dir, disks);
    ended
}

// Whether the line tells a fault of a device.
fn is_fault(line: &Line) -> bool
    ensures { result ≡ is_fault line.now.what }
{
    matches!(line.what, What::Fault { .. })
}

fn has_fault(journal: &[Line]) -> bool
    ensures { result ≡ has_fault journal.now }
{
    journal.iter().any(|line| is_fault(line))
}

// A status in place of a good one.
fn in_place(other: Status, status: Status) -> Status
    requires of_stores { IsOfStores status × IsOfStores other }
    ensures number { number_of result ≡ in_place (number_of other) (number_of status) }
    ensures status { IsOfStores result }
{
    match status {
        Status::Done => other,
        _ => status,
    }
}

// Writes the transcript of a run, if there was memory for it; want of memory is told too where the archive lacks
// captures.
fn tell<K: Sink>(alloc: Global, sink: &mut K, plan: &Plan, ended: &Ended) -> Status
    ensures ends { EndsRun (seen K.held K.faults sink.old sink.new) plan.now (Ok ended.now) (number_of result) }
    ensures status { IsOfStores result }
{
    let status = write_made(sink, transcript_of(alloc, plan, ended));
    if has_fault(ended.journal.as_slice()) {
        return in_place(Status::DiskFault, status);
    }
    if !ended.copied {
        return in_place(Status::OutOfMemory, status);
    }
    status
}

// Reads a script, runs it over the store in the folder, and writes the transcript. Answers how it ended.
fn perform<R: Threads + Wait + Sync, S: Source, K: Sink, C: Cabinet, I: RunItems + Sync>(
    alloc: Global,
    crew: &Crew<'_, R, I>,
    source: &mut S,
    sink: &mut K,
    cabinet: &mut C,
    dir: &str,
) -> Status
    requires threads { 0 < crew.now.threads }
    ensures runs { RunsIn C.faults C.is_out C.tells C.store C.Device.extent C.Device.faults C.Device.is_honest
        C.Device.remembers C.Device.state C.Device.clock dir.now (seen S.left S.faults source.old source.new)
        (seen K.held K.faults sink.old sink.new) cabinet.old cabinet.new (number_of result) }
    ensures status { IsOfKept result }
{
    let plan = match plan_from(alloc, source) {
        Ok(plan) => plan,
        Err(why) => return refuse_script(alloc, sink, why),
    };
    match run_in(alloc, crew, cabinet, dir, &plan) {
        Ok(ended) => tell(alloc, sink, &plan, &ended),
        Err(refusal) => refuse(alloc, sink, refusal),
    }
}

/// Reads a script, runs it over the store in the folder, and writes the transcript. Answers the exit status.
pub fn keep<R: Threads + Wait + Sync, S: Source, K: Sink, C: Cabinet, I: RunItems + Sync>(
    alloc: Global,
    crew: &Crew<'_, R, I>,
    source: &mut S,
    sink: &mut K,
    cabinet: &mut C,
    dir: &str,
) -> u8
    requires threads { 0 < crew.now.threads }
    ensures runs { RunsIn C.faults C.is_out C.tells C.store C.Device.extent C.Device.faults C.Device.is_honest
        C.Device.remembers C.Device.state C.Device.clock dir.now (seen S.left S.faults source.old source.new)
        (seen K.held K.faults sink.old sink.new) cabinet.old cabinet.new result }
    ensures status { IsStatus result }
    ensures words { (result ≢ 2) × (result ≢ 9) }
{
    perform(alloc, crew, source, sink, cabinet, dir).number()
}
