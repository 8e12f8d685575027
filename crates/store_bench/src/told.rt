//! What is told of each part: the calls of each device.

ghost use Rattle.std.specs.Prelude.{◌≡◌, None, IfSome};
ghost use Rattle.store.specs.Seats.{IsReady, IsSized, IsWhole};
ghost use Rattle.store.specs.WorkerRounds.{MayWork};
ghost use Rattle.turn.specs.Seats.{IsSame, mine};
ghost use Rattle.turn.specs.Tables.{table_of};

use crate::metered::{Calls, Meter, calls_of, calls_since};
use crate::part::{Part, does};
use crate::prepared::{Setting, prepare};
use disk_model::{Disk, Four};
use std::sync::Wait;
use store::{Seat, Store};

/// What is asked for: a part, or each, so often, on a store of a setting.
#[derive(Clone, Copy)]
pub struct Job {
    pub part: Option<Part>,
    pub count: u32,
    pub setting: Setting,
}

impl Job {
    // Whether a part is asked for.
    fn has(self, part: Part) -> bool {
        match self.part {
            Some(asked) => asked == part,
            None => true,
        }
    }
}

// Does a part, and gives the calls of each device.
fn measure<R: AllocGlobal + Wait, D: Disk + Drop>(
    rt: &R,
    store: &Store<D>,
    seat: &mut Seat<D>,
    meters: &Four<Meter>,
    part: Part,
    job: &Job,
) -> Option<Four<Calls>>
    requires ready { IsReady (table_of store.now.turn) seat.old × IsWhole seat.old }
    requires idle { (mine seat.old).work ≡ None }
    requires sized { IsSized store.now.pages seat.old }
    ensures ready { IsReady (table_of store.now.turn) seat.new × IsWhole seat.new }
    ensures idle { IfSome result (λ _. (mine seat.new).work ≡ None) }
    ensures same { IsSame seat.old seat.new }
{
    let before = calls_of(meters);
    if !does(rt, rt.alloc(), store, seat, part, job.count, job.setting) {
        return None;
    }
    Some(calls_since(meters, &before))
}

// Tells what a part did.
fn tell(rt: &impl Print, part: Part, count: u32, calls: &Four<Calls>) -> Option<()> {
    let Four {
        log,
        pages,
        pagelog,
        maplog,
    } = calls;
    let word = part.word();
    println!(rt;
        "  {count} {word}: log {log}, pages {pages}, Pagelog {pagelog}, Maplog {maplog}"
    ).ok()
}

// Does each part that is asked for, and tells what it did.
fn tell_parts<R: AllocGlobal + Print + Wait, D: Disk + Drop>(
    rt: &R,
    store: &Store<D>,
    seat: &mut Seat<D>,
    meters: &Four<Meter>,
    job: &Job,
) -> Option<()>
    requires ready { IsReady (table_of store.now.turn) seat.old × IsWhole seat.old }
    requires idle { (mine seat.old).work ≡ None }
    requires sized { IsSized store.now.pages seat.old }
    ensures ready { IsReady (table_of store.now.turn) seat.new × IsWhole seat.new }
{
    'parts: for part in Part::ALL {
        if job.has(part) {
            let Some(calls) = measure(rt, store, seat, meters, part, job) else {
                return None;
            };
            let Some(()) = tell(rt, part, job.count, &calls) else {
                return None;
            };
        }
    }
    Some(())
}

/// Does the job on a store that was just made, and tells what it did.
pub fn tell_job<R: AllocGlobal + Print + Wait, D: Disk + Drop>(
    rt: &R,
    store: &Store<D>,
    session: &mut Seat<D>,
    copying: &mut Seat<D>,
    flushing: &mut Seat<D>,
    meters: &Four<Meter>,
    job: &Job,
) -> Option<()>
    requires session { IsReady (table_of store.now.turn) session.old × IsWhole session.old }
    requires idle { (mine session.old).work ≡ None }
    requires sized { IsSized store.now.pages session.old }
    requires copying { IsReady (table_of store.now.turn) copying.old × IsWhole copying.old × MayWork copying.old }
    requires flushing { IsReady (table_of store.now.turn) flushing.old × IsWhole flushing.old × MayWork flushing.old }
    ensures session { IsReady (table_of store.now.turn) session.new × IsWhole session.new }
    ensures copying { IsReady (table_of store.now.turn) copying.new × IsWhole copying.new }
    ensures flushing { IsReady (table_of store.now.turn) flushing.new × IsWhole flushing.new }
{
    let alloc = rt.alloc();
    if !prepare(rt, alloc, store, session, copying, flushing, job.setting) {
        return None;
    }
    tell_parts(rt, store, session, meters, job)
}
