//! The store in its locks, and how seats enter and leave the desk.

ghost use Rattle.std.specs.Prelude.{◌≡◌, ◌≤◌, ℕ, [], None, Some, length, slice_get, IfErr, IfOk};
ghost use Rattle.archive.specs.Archive.{Running};
ghost use Rattle.history.specs.Marks.{newest};
ghost use Rattle.store.specs.Seats.{HasEntered, HasEnteredVault, IsReady, IsSized, IsWhole, MayGiveBack};
ghost use Rattle.store.specs.Seats.{MayGiveBackVault, Sat, Visited, VisitedVault, start_of};
ghost use Rattle.store.specs.Start.{AreJustOpened, IsStartOf};
ghost use Rattle.turn.specs.Seats.{mine, opening, seen};
ghost use Rattle.turn.specs.Tables.{table_of};

use crate::desk_side::DeskSide;
use crate::start::Start;
use archive::Archive;
use disk_model::Disk;
use journal_book::Work;
use std::alloc::Global;
use std::snapshot::Snapshot;
use std::sync::Wait;
use store_core::Core;
use turn::seat::SeatOver;
use turn::turn::Turn;

/// A seat at a store, or a helper of one.
pub type Seat<D: Disk + Drop> = SeatOver<Start<D>, Work, DeskSide<D>, Archive<D>>;

/// A core and an archive in locks, which threads with a seat each enter in turn.
pub struct Store<D: Disk + Drop> {
    pub(crate) turn: Turn<DeskSide<D>, Archive<D>>,
    pub(crate) alloc: Global,
    pub(crate) pages: u32,
    pub(crate) newest: u32,
}

impl<D: Disk + Drop> Store<D> {
    /// A store of a core and an archive that were just opened, with so many seats, numbered from 0 on. Where memory
    /// runs out the two come back.
    pub fn new(
        alloc: Global,
        core: Core<D>,
        archive: Archive<D>,
        seats: u32,
    ) -> Result<(Store<D>, Vec<Seat<D>>), (Core<D>, Archive<D>)>
        requires seats { seats ≤ 65536 }
        requires opened { AreJustOpened D.is_honest D.state core archive }
        ensures seats { IfOk result (λ r. (r.0.turn.table.shared.key.seats ≡ seats) × (length r.1.items ≡ seats)) }
        ensures ready { IfOk result (λ r. (k : ℕ) (s : Sat D) → slice_get r.1.items k ≡ Some s
            → IsReady (table_of r.0.turn) s × IsWhole s) }
        ensures new { IfOk result (λ r. (k : ℕ) (s : Sat D) → slice_get r.1.items k ≡ Some s
            → (s.number ≡ k) × ((mine s).work ≡ None) × (seen s ≡ []) × IsStartOf core archive (opening s)) }
        ensures sized { IfOk result (λ r. (k : ℕ) (s : Sat D) → slice_get r.1.items k ≡ Some s → IsSized r.0.pages s) }
        ensures begins { IfOk result (λ r. IsStartOf core archive (Some (start_of r.0.turn))) }
        ensures sat { IfOk result (λ r. (start_of r.0.turn).seats.value ≡ seats) }
        ensures newest { IfOk result (λ r. r.0.newest ≡ newest core.desk.base.marks) }
        ensures back { IfErr result (λ r. (r.0 ≡ core) × (r.1 ≡ archive)) }
    {
        let pages = core.sizes().pages;
        let (_, newest) = core.horizon();
        let start = Start {
            core: Snapshot::of(&core),
            archive: Snapshot::of(&archive),
            seats: Snapshot::of(&seats),
        };
        match Turn::new(alloc, DeskSide { core, start }, archive, seats) {
            Ok((turn, seats)) => Ok((
                Store {
                    turn,
                    alloc,
                    pages,
                    newest,
                },
                seats,
            )),
            Err((side, archive)) => {
                let DeskSide { core, start: _ } = side;
                Err((core, archive))
            }
        }
    }

    /// How many pages the store has.
    pub fn pages(&self) -> u32
        ensures { result ≡ self.now.pages }
    {
        self.pages
    }

    /// The newest snapshot when the store was opened; 0 where none was declared.
    pub fn newest(&self) -> u32
        ensures { result ≡ self.now.newest }
    {
        self.newest
    }

    pub(crate) fn enter<R: Wait>(&self, rt: &R, seat: &mut Seat<D>) -> DeskSide<D>
        requires { IsReady (table_of self.now.turn) seat.old }
        ensures { HasEntered D.is_honest D.state D.faults (table_of self.now.turn) seat.old seat.new result }
    {
        self.turn.enter_desk(rt, seat)
    }

    pub(crate) fn leave(&self, seat: &mut Seat<D>, side: DeskSide<D>)
        requires { MayGiveBack D.is_honest D.state D.faults (table_of self.now.turn) seat.old side }
        ensures { (old : Sat D) (before : DeskSide D)
            → HasEntered D.is_honest D.state D.faults (table_of self.now.turn) old seat.old before
            → Visited D.is_honest D.state D.faults (table_of self.now.turn) old seat.new before side }
    {
        self.turn.leave_desk(seat, side);
    }

    pub(crate) fn enter_vault<R: Wait>(&self, rt: &R, seat: &mut Seat<D>) -> Archive<D>
        requires { IsReady (table_of self.now.turn) seat.old }
        ensures { HasEnteredVault D.is_honest D.state D.faults (table_of self.now.turn) seat.old seat.new result }
    {
        self.turn.enter_vault(rt, seat)
    }

    pub(crate) fn leave_vault(&self, seat: &mut Seat<D>, archive: Archive<D>)
        requires { MayGiveBackVault D.is_honest D.state D.faults (table_of self.now.turn) seat.old archive }
        ensures seen { seen seat.new ≡ seen seat.old }
        ensures visited { (old : Sat D) (before : Running D)
            → HasEnteredVault D.is_honest D.state D.faults (table_of self.now.turn) old seat.old before
            → VisitedVault D.is_honest D.state D.faults (table_of self.now.turn) old seat.new before archive }
    {
        self.turn.leave_vault(seat, archive);
    }
}
