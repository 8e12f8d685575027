//! A store that is closed.

ghost use Rattle.std.specs.Prelude.{◌≡◌, IfNone, IfSome, Some, length, slice_get};
ghost use Rattle.retro_base.specs.declared.limits.TheConstants.{SESSIONS};
ghost use Rattle.store.specs.Closing.{AreReady, Closes, ClosesCopied, ClosesTold, HasNoCopier, HaveCopied, MayCopyLast};
ghost use Rattle.store.specs.Seats.{Sat, start_of};
ghost use Rattle.turn.specs.Tables.{table_of};

use crate::desk_side::DeskSide;
use crate::pace::{Done, Worker};
use crate::shared::{Seat, Store};
use crate::worker::run_unless_stopped;
use disk_model::{Disk, Four};
use history::Journal;
use retro_base::SESSIONS;
use std::sync::Wait;

/// What a store leaves: its devices, the journal of what its seats did, and how many captures were made, over all its
/// runs.
#[derive(Drop)]
pub struct Closed<D> {
    pub disks: Four<D>,
    pub journal: Journal,
    pub captures: u64,
}

// The place of the copier's seat.
fn copier_place<D: Disk + Drop>(seats: &[Seat<D>]) -> Option<usize>
    ensures some { IfSome result (λ k. (s : Sat D) × (slice_get seats.now k ≡ Some s) × (s.number ≡ SESSIONS)) }
    ensures none { IfNone result (HasNoCopier seats.now) }
{
    seats
        .iter()
        .position(|seat| seat.number() as usize == SESSIONS)
}

impl<D: Disk + Drop> Store<D> {
    // Ends the store with all its seats, and tells whether all is copied.
    fn ended(self, seats: Vec<Seat<D>>) -> (Closed<D>, bool)
        requires all { length seats.items ≡ self.turn.table.shared.key.seats }
        requires ready { AreReady (table_of self.turn) seats.items }
        ensures closed { ClosesTold D.is_honest D.state D.faults (start_of self.turn) self.turn.table.shared.key.seats
            seats.items result.0 result.1 }
    {
        let Store {
            turn,
            alloc: _,
            pages: _,
            newest: _,
        } = self;
        let (side, archive) = turn.close(seats);
        let DeskSide { core, start: _ } = side;
        let captures = core.acked() + core.pending();
        let copied = archive.held() == captures;
        let (log, pages, journal) = core.into_parts();
        let (pagelog, maplog) = archive.into_disks();
        let disks = Four {
            log,
            pages,
            pagelog,
            maplog,
        };
        let closed = Closed {
            disks,
            journal,
            captures,
        };
        (closed, copied)
    }

    /// Ends the store with all its seats, in any order; takes no memory.
    pub fn close(self, seats: Vec<Seat<D>>) -> Closed<D>
        requires all { length seats.items ≡ self.turn.table.shared.key.seats }
        requires ready { AreReady (table_of self.turn) seats.items }
        ensures closed { Closes D.is_honest D.state D.faults (start_of self.turn) self.turn.table.shared.key.seats
            seats.items result }
    {
        self.ended(seats).0
    }

    // Makes copy rounds at the copier's seat, if it is among these, unless the store has stopped.
    fn copy_last<R: Wait>(&self, rt: &R, seats: &mut [Seat<D>], phase: u16)
        requires ready { AreReady (table_of self.now.turn) seats.old }
        requires may { MayCopyLast D.state D.faults seats.old }
        ensures ready { AreReady (table_of self.now.turn) seats.new }
        ensures copied { HaveCopied D.is_honest D.state D.faults (table_of self.now.turn) D.remembers D.clock phase
            seats.old seats.new }
    {
        let Some(place) = copier_place(seats) else {
            return;
        };
        let done = Done::new();
        let _told = done.set();
        let _answer = run_unless_stopped(
            self.alloc,
            self,
            rt,
            &mut seats[place],
            Worker::Copier,
            phase,
            &done,
        );
    }

    /// Ends the store with all its seats, in any order. Before, unless it has stopped, it makes copy rounds at the seat
    /// behind those of the sessions, if it is among them, under item 0 in this phase, until nothing is pending or one
    /// is refused: the line of the fault that ended them, if one did, is that seat's first. Tells whether the archive
    /// holds captures up to the journal's last, so that none is in the log alone. Where the seats have met, it does
    /// unless that seat is not among them, a fault of a write has its line, the archive had stopped, or memory was
    /// wanting.
    pub fn close_copied<R: Wait>(self, rt: &R, seats: Vec<Seat<D>>, phase: u16) -> (Closed<D>, bool)
        requires all { length seats.items ≡ self.turn.table.shared.key.seats }
        requires ready { AreReady (table_of self.turn) seats.items }
        requires may { MayCopyLast D.state D.faults seats.items }
        ensures closed { ClosesCopied D.is_honest D.state D.faults (table_of self.turn) D.remembers D.clock
            (start_of self.turn) self.turn.table.shared.key.seats phase seats.items result.0 result.1 }
    {
        let mut seats = seats;
        self.copy_last(rt, seats.as_mut_slice(), phase);
        self.ended(seats)
    }
}
