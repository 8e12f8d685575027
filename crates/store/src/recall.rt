//! Pages as of the snapshots of a look, by a table that is kept from one to the next.

ghost use Rattle.std.specs.Prelude.{◌≡◌, ℕ, IfErr, IfSome, None, OnOk};
ghost use Rattle.store.specs.Kept.{CoversNoLess, IsRecallRefusal, IsTableFor, IsTabled, ReadsBy};
ghost use Rattle.store.specs.Past.{IsNewFault, IsPastOf, IsPinnedBy, IsRetainedBy, IsTableOf, new_table};
ghost use Rattle.store.specs.Seats.{IsPage, IsReady, IsWhole, StaysIn, Waits};
ghost use Rattle.turn.specs.Seats.{mine};
ghost use Rattle.turn.specs.Tables.{table_of};

use crate::kept::KeptTable;
use crate::shared::{Seat, Store};
use disk_model::Disk;
use page_table::SnapTable;
use race_model::Fault;
use retro_base::Page;
use skippy::Steps;
use std::alloc::Global;
use std::marker::Brand;
use std::sync::Wait;
use std::sync::ledger::{Blank, Ledger};

// A new table of a snapshot that an open look pins.
fn new_table<R: Wait, D: Disk + Drop>(
    alloc: Global,
    rt: &R,
    store: &Store<D>,
    seat: &mut Seat<D>,
    snapshot: u32,
) -> SnapTable
    requires ready { IsReady (table_of store.now.turn) seat.old }
    requires pinned { IsPinnedBy seat.old snapshot }
    ensures ready { IsReady (table_of store.now.turn) seat.new }
    ensures same { StaysIn seat.old seat.new }
    ensures waits { Waits seat.old seat.new }
    ensures table { IsTableOf D.is_honest D.state seat.new snapshot result }
    ensures new { result ≡ new_table result.start }
{
    let start = store.start_of(rt, seat, snapshot);
    SnapTable::new(alloc, start)
}

// The kept table where it is of this snapshot, or else a new one.
fn table_for<R: Wait, D: Disk + Drop>(
    alloc: Global,
    rt: &R,
    store: &Store<D>,
    seat: &mut Seat<D>,
    kept: Option<KeptTable<D>>,
    snapshot: u32,
) -> SnapTable
    requires ready { IsReady (table_of store.now.turn) seat.old }
    requires pinned { IsPinnedBy seat.old snapshot }
    requires kept { IsTabled seat.old kept }
    ensures ready { IsReady (table_of store.now.turn) seat.new }
    ensures same { StaysIn seat.old seat.new }
    ensures waits { Waits seat.old seat.new }
    ensures table { IsTableOf D.is_honest D.state seat.new snapshot result }
    ensures is_for { IsTableFor kept snapshot result }
{
    let Some(kept) = kept else {
        return new_table(alloc, rt, store, seat, snapshot);
    };
    match kept.of(snapshot) {
        Some(table) => table,
        None => new_table(alloc, rt, store, seat, snapshot),
    }
}

// Fills `out` with a page by the kept table where it is of the snapshot, or else a new one, which is kept then. `steps`
// counts the entries of the Maplog's levels that it reads.
fn read_by<R: Wait, D: Disk + Drop, L: Ledger>(
    alloc: Global,
    rt: &R,
    store: &Store<D>,
    seat: &mut Seat<D>,
    kept: &mut Option<KeptTable<D>>,
    snapshot: u32,
    page: u32,
    out: &mut Page,
    steps: &mut Steps<L>,
) -> Result<(), Fault>
    requires ready { IsReady (table_of store.now.turn) seat.old × IsWhole seat.old }
    requires pinned { IsPinnedBy seat.old snapshot }
    requires kept { IsTabled seat.old kept.old }
    requires inside { IsPage seat.old page }
    ensures ready { IsReady (table_of store.now.turn) seat.new × IsWhole seat.new }
    ensures same { StaysIn seat.old seat.new }
    ensures waits { Waits seat.old seat.new }
    ensures kept { IsTabled seat.new kept.new }
    ensures covers { CoversNoLess kept.old snapshot kept.new }
    ensures reads { ReadsBy D.is_honest D.state D.faults (table_of store.now.turn) D.remembers D.clock kept.old snapshot
        steps.old steps.new page out.old result seat.old seat.new }
    ensures page { OnOk result (IsPastOf D.is_honest D.state seat.new snapshot page out.new) }
    ensures retained { OnOk result (IsRetainedBy seat.new snapshot) }
    ensures fault { IfErr result (IsNewFault D.faults seat.old) }
{
    let mut table = table_for(alloc, rt, store, seat, kept.take(), snapshot);
    let read = store.past(rt, seat, snapshot, &mut table, page, out, steps);
    *kept = Some(KeptTable::new(seat, snapshot, table));
    read
}

// The same; the steps are not counted.
fn read_uncounted<R: Wait, D: Disk + Drop, L: Ledger>(
    blank: Blank,
    alloc: Global,
    rt: &R,
    store: &Store<D>,
    seat: &mut Seat<D>,
    kept: &mut Option<KeptTable<D>>,
    snapshot: u32,
    page: u32,
    out: &mut Page,
) -> Result<(), Fault>
    requires name { blank.name ≡ L.name }
    requires parts { blank.parts ≡ L.parts }
    requires one_part { blank.parts ≡ 1 }
    requires ready { IsReady (table_of store.now.turn) seat.old × IsWhole seat.old }
    requires pinned { IsPinnedBy seat.old snapshot }
    requires kept { IsTabled seat.old kept.old }
    requires inside { IsPage seat.old page }
    ensures ready { IsReady (table_of store.now.turn) seat.new × IsWhole seat.new }
    ensures same { StaysIn seat.old seat.new }
    ensures waits { Waits seat.old seat.new }
    ensures kept { IsTabled seat.new kept.new }
    ensures covers { CoversNoLess kept.old snapshot kept.new }
    ensures page { OnOk result (IsPastOf D.is_honest D.state seat.new snapshot page out.new) }
    ensures retained { OnOk result (IsRetainedBy seat.new snapshot) }
    ensures cause { IfErr result (IsRecallRefusal D.is_honest D.state D.faults (table_of store.now.turn) kept.old
        snapshot seat.old seat.new) }
    ensures fault { IfErr result (IsNewFault D.faults seat.old) }
{
    let mut steps = Steps::<L>::new(blank);
    read_by(
        alloc, rt, store, seat, kept, snapshot, page, out, &mut steps,
    )
}

/// Fills `out` with a page as of a snapshot that an open look pins, and keeps the snapshot's table, which covers no
/// less than the one that was kept of it. Refused for want of memory, not where the table covers what is asked for; and
/// exactly where a read of a device failed; `out` is then undefined.
pub(crate) fn recall<R: Wait, D: Disk + Drop>(
    alloc: Global,
    rt: &R,
    store: &Store<D>,
    seat: &mut Seat<D>,
    kept: &mut Option<KeptTable<D>>,
    snapshot: u32,
    page: u32,
    out: &mut Page,
) -> Result<(), Fault>
    requires ready { IsReady (table_of store.now.turn) seat.old × IsWhole seat.old }
    requires pinned { IsPinnedBy seat.old snapshot }
    requires kept { IsTabled seat.old kept.old }
    requires inside { IsPage seat.old page }
    ensures ready { IsReady (table_of store.now.turn) seat.new × IsWhole seat.new }
    ensures same { StaysIn seat.old seat.new }
    ensures waits { Waits seat.old seat.new }
    ensures kept { IsTabled seat.new kept.new }
    ensures covers { CoversNoLess kept.old snapshot kept.new }
    ensures page { OnOk result (IsPastOf D.is_honest D.state seat.new snapshot page out.new) }
    ensures retained { OnOk result (IsRetainedBy seat.new snapshot) }
    ensures cause { IfErr result (IsRecallRefusal D.is_honest D.state D.faults (table_of store.now.turn) kept.old
        snapshot seat.old seat.new) }
    ensures fault { IfErr result (IsNewFault D.faults seat.old) }
{
    read_uncounted::<R, D, Brand>(
        Blank::new(1),
        alloc,
        rt,
        store,
        seat,
        kept,
        snapshot,
        page,
        out,
    )
}
