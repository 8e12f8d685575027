//! A store of a setting, at rest: each capture is copied, each page is written back, and the page of the work is in
//! memory.

ghost use Rattle.std.specs.Prelude.{◌≡◌, None, true};
ghost use Rattle.store.specs.Seats.{IsReady, IsSized, IsWhole};
ghost use Rattle.store.specs.WorkerRounds.{MayWork};
ghost use Rattle.turn.specs.Seats.{IsSame, mine};
ghost use Rattle.turn.specs.Tables.{table_of};

use crate::measured::{PHASE, fills, read_often};
use disk_model::{Disk, Sizes};
use race_model::Batch;
use retro_base::MEMORY_CAPACITY;
use std::alloc::Global;
use std::sync::Wait;
use store::{Done, Seat, Store, copier, flusher};

/// How large a store is.
#[derive(Clone, Copy)]
pub struct Setting {
    pub pages: u32,
    /// Snapshots that are retained. Each was declared by a transaction that wrote a page of the lower half, in turn.
    pub snapshots: u32,
}

impl Setting {
    /// The sizes of its devices.
    pub fn sizes(self) -> Sizes {
        Sizes {
            pages: self.pages,
            capacity: MEMORY_CAPACITY,
        }
    }

    /// The first page of the upper half, of which none is written.
    pub fn upper_half(self) -> u32 {
        self.pages / 2
    }
}

// Whether the snapshots were declared, by transactions that write the pages below a number in turn.
fn declare<R: Wait, D: Disk + Drop>(
    rt: &R,
    store: &Store<D>,
    seat: &mut Seat<D>,
    below: u32,
    snapshots: u32,
) -> bool
    requires ready { IsReady (table_of store.now.turn) seat.old × IsWhole seat.old }
    requires idle { (mine seat.old).work ≡ None }
    requires sized { IsSized store.now.pages seat.old }
    ensures ready { IsReady (table_of store.now.turn) seat.new × IsWhole seat.new }
    ensures idle { result ≡ true → (mine seat.new).work ≡ None }
    ensures same { IsSame seat.old seat.new }
{
    'rounds: for round in 0..snapshots {
        let page = round.checked_rem(below).unwrap_or(0);
        if !fills(rt, store, seat, page, Some(b"bench")) {
            return false;
        }
    }
    true
}

// Whether each capture was copied.
fn copies<R: Wait, D: Disk + Drop>(
    rt: &R,
    alloc: Global,
    store: &Store<D>,
    copying: &mut Seat<D>,
    done: &Done,
) -> bool
    requires ready { IsReady (table_of store.now.turn) copying.old × IsWhole copying.old }
    requires may { MayWork copying.old }
    ensures ready { IsReady (table_of store.now.turn) copying.new × IsWhole copying.new }
{
    let Ok(mut batch) = Batch::new(alloc) else {
        return false;
    };
    copier(store, rt, copying, PHASE, &mut batch, done).is_ok()
}

/// Whether the snapshots were declared, the workers left nothing to copy and to write back, and the page of the work
/// was read.
pub fn prepare<R: Wait, D: Disk + Drop>(
    rt: &R,
    alloc: Global,
    store: &Store<D>,
    session: &mut Seat<D>,
    copying: &mut Seat<D>,
    flushing: &mut Seat<D>,
    setting: Setting,
) -> bool
    requires session { IsReady (table_of store.now.turn) session.old × IsWhole session.old }
    requires idle { (mine session.old).work ≡ None }
    requires sized { IsSized store.now.pages session.old }
    requires copying { IsReady (table_of store.now.turn) copying.old × IsWhole copying.old × MayWork copying.old }
    requires flushing { IsReady (table_of store.now.turn) flushing.old × IsWhole flushing.old × MayWork flushing.old }
    ensures session { IsReady (table_of store.now.turn) session.new × IsWhole session.new }
    ensures idle { result ≡ true → (mine session.new).work ≡ None }
    ensures same { IsSame session.old session.new }
    ensures copying { IsReady (table_of store.now.turn) copying.new × IsWhole copying.new }
    ensures flushing { IsReady (table_of store.now.turn) flushing.new × IsWhole flushing.new }
{
    if !declare(rt, store, session, setting.upper_half(), setting.snapshots) {
        return false;
    }
    let done = Done::new();
    done.set();
    if !copies(rt, alloc, store, copying, &done) {
        return false;
    }
    if flusher(store, rt, flushing, PHASE, &done).is_err() {
        return false;
    }
    read_often(rt, store, session, 1, None)
}
