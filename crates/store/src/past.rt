//! Reads of the past: the desk is asked first, then the vault.

ghost use Rattle.std.specs.Prelude.{◌≡◌, ◌≤◌, IfErr, IfOk, MatchResult, OnOk};
ghost use Rattle.store.specs.Calls.{PeekDoes};
ghost use Rattle.store.specs.Moments.{KeepsDevices};
ghost use Rattle.store.specs.Past.{FindsIn, IsNewFault, IsPastOf, IsPastRefusal, IsPinnedBy, IsRetainedBy, IsSeeking};
ghost use Rattle.store.specs.Past.{IsTableOf, LooksBack, ScansBelow, new_table};
ghost use Rattle.store.specs.Seats.{CountFits, IsPage, IsReady, IsWhole, StaysIn, Visits, Waits};
ghost use Rattle.turn.specs.Seats.{held, mine};
ghost use Rattle.turn.specs.Tables.{table_of};

use crate::desk_calls::fault_fits;
use crate::shared::{Seat, Store};
use disk_model::Disk;
use page_table::SnapTable;
use race_model::Fault;
use retro_base::{Page, Refusal};
use skippy::Steps;
use std::sync::Wait;
use std::sync::ledger::Ledger;
use store_core::Peeked;

impl<D: Disk + Drop> Store<D> {
    // What the desk tells of a page as of a pinned snapshot.
    fn told<R: Wait>(
        &self,
        rt: &R,
        seat: &mut Seat<D>,
        snapshot: u32,
        page: u32,
        out: &mut Page,
    ) -> Result<Peeked, Refusal>
        requires ready { IsReady (table_of self.now.turn) seat.old }
        requires pinned { IsPinnedBy seat.old snapshot }
        requires inside { IsPage seat.old page }
        ensures visits { Visits D.is_honest D.state D.faults (table_of self.now.turn)
            (PeekDoes D.is_honest D.state D.faults D.remembers D.clock page snapshot out.old out.new result)
            seat.old seat.new }
        ensures fits { CountFits result }
    {
        let mut side = self.enter(rt, seat);
        let answer = side.peek(page, snapshot, out);
        self.leave(seat, side);
        answer
    }

    /// The start of a snapshot that an open look of this seat pins, or of the seat that it helps: the page table of the
    /// snapshot begins there. It takes no memory.
    pub fn start_of<R: Wait>(&self, rt: &R, seat: &mut Seat<D>, snapshot: u32) -> u64
        requires ready { IsReady (table_of self.now.turn) seat.old }
        requires pinned { IsPinnedBy seat.old snapshot }
        ensures ready { IsReady (table_of self.now.turn) seat.new }
        ensures same { StaysIn seat.old seat.new }
        ensures whole { IsWhole seat.old → IsWhole seat.new }
        ensures work { (mine seat.new).work ≡ (mine seat.old).work }
        ensures waits { Waits seat.old seat.new }
        ensures first_met { IsTableOf D.is_honest D.state seat.new snapshot (new_table result) }
        ensures visits { Visits D.is_honest D.state D.faults (table_of self.now.turn) KeepsDevices seat.old seat.new }
    {
        let side = self.enter(rt, seat);
        let start = side.core.start_of(snapshot);
        self.leave(seat, side);
        start
    }

    // What the vault finds of the page below a number that it holds.
    fn sought<R: Wait, L: Ledger>(
        &self,
        rt: &R,
        seat: &mut Seat<D>,
        snapshot: u32,
        table: &mut SnapTable,
        page: u32,
        upto: u64,
        out: &mut Page,
        steps: &mut Steps<L>,
    ) -> Result<bool, Fault>
        requires ready { IsReady (table_of self.now.turn) seat.old }
        requires seeking { IsSeeking D.is_honest D.state seat.old snapshot table.old }
        requires held { upto ≤ held seat.old }
        ensures ready { IsReady (table_of self.now.turn) seat.new }
        ensures same { StaysIn seat.old seat.new }
        ensures waits { Waits seat.old seat.new }
        ensures finds { FindsIn D.is_honest D.state seat.old seat.new snapshot table.old table.new upto page
            out.old out.new result }
        ensures visits { ScansBelow D.is_honest D.state D.faults (table_of self.now.turn) D.remembers D.clock
            table.old.covered steps.old steps.new upto seat.old seat.new }
        ensures grows { table.old.covered ≤ table.new.covered }
        ensures cause { IfErr result (IsPastRefusal seat.new table.old.covered upto) }
        ensures fault { IfErr result (IsNewFault D.faults seat.old) }
    {
        let mut archive = self.enter_vault(rt, seat);
        let found = archive.find(table, page, upto, out, steps);
        fault_fits(&found);
        self.leave_vault(seat, archive);
        found
    }

    /// Fills `out` with a page as of a snapshot that an open look of this seat pins, or of the seat that it helps. The
    /// table is kept from one read of the snapshot to the next. It asks the desk, and then the vault below the number
    /// of captures that the desk knows to be there. Refused for want of memory, not where the table covers these; and
    /// exactly where a read of a device failed; `out` is then undefined. The table covers no less then. `steps` counts
    /// the entries of the Maplog's levels that it reads: none where the table covers all that is held, else what one
    /// scan reads at most.
    pub fn past<R: Wait, L: Ledger>(
        &self,
        rt: &R,
        seat: &mut Seat<D>,
        snapshot: u32,
        table: &mut SnapTable,
        page: u32,
        out: &mut Page,
        steps: &mut Steps<L>,
    ) -> Result<(), Fault>
        requires ready { IsReady (table_of self.now.turn) seat.old }
        requires pinned { IsPinnedBy seat.old snapshot }
        requires first_met { IsTableOf D.is_honest D.state seat.old snapshot table.old }
        requires inside { IsPage seat.old page }
        ensures ready { IsReady (table_of self.now.turn) seat.new }
        ensures same { StaysIn seat.old seat.new }
        ensures whole { IsWhole seat.old → IsWhole seat.new }
        ensures work { (mine seat.new).work ≡ (mine seat.old).work }
        ensures waits { Waits seat.old seat.new }
        ensures first_met { IsTableOf D.is_honest D.state seat.new snapshot table.new }
        ensures page { OnOk result (IsPastOf D.is_honest D.state seat.new snapshot page out.new) }
        ensures retained { OnOk result (IsRetainedBy seat.new snapshot) }
        ensures visits { LooksBack D.is_honest D.state D.faults (table_of self.now.turn) D.remembers D.clock
            table.old.covered steps.old steps.new snapshot page out.old result seat.old seat.new }
        ensures grows { table.old.covered ≤ table.new.covered }
        ensures fault { IfErr result (IsNewFault D.faults seat.old) }
    {
        match self.told(rt, seat, snapshot, page, out) {
            Err(why) => Err(Fault { why, wrote: false }),
            Ok(peeked) => match self.sought(
                rt,
                seat,
                snapshot,
                table,
                page,
                peeked.acked,
                out,
                steps,
            ) {
                Ok(_) => Ok(()),
                Err(fault) => Err(fault),
            },
        }
    }
}
