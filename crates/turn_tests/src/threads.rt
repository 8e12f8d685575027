//! Seats and helpers in threads of their own.

ghost use Rattle.std.specs.Prelude.{◌≡◌, ◌≤◌, length, IfSome};
ghost use Rattle.turn.specs.Views.{PARTS};
ghost use Rattle.turn_tests.specs.Ready.{AreEnds, AreHelpers, AreReady, IsReady, Keeps};
ghost use Rattle.turn.specs.Seats.{mine};
ghost use Rattle.turn.specs.Tables.{table_of};

use crate::small::{Book, Shelf};
use crate::visits::{copy, help, visit};
use std::alloc::Global;
use std::sync::Wait;
use std::thread;
use std::thread::Threads;
use turn::seat::Seat;
use turn::turn::Turn;

fn visit_all<R: Threads + Wait + Sync>(
    rt: &R,
    turn: &Turn<Book, Shelf>,
    seats: &mut [Seat<Book, Shelf>],
    alloc: Global,
    rounds: u32,
)
    requires { AreReady (table_of turn.now) seats.old }
    ensures ready { AreReady (table_of turn.now) seats.new }
    ensures count { length seats.new ≡ length seats.old }
{
    thread::for_each_mut(
        rt,
        seats,
        16,
        &|_, seat| {
            visit(rt, alloc, turn, seat, rounds);
        },
    );
}

fn help_all<R: Threads + Wait + Sync>(
    rt: &R,
    turn: &Turn<Book, Shelf>,
    helpers: &mut [Seat<Book, Shelf>],
    session: u16,
    lines: u64,
    rounds: u32,
)
    requires { AreHelpers (table_of turn.now) session lines helpers.old }
    ensures ready { AreHelpers (table_of turn.now) session lines helpers.new }
    ensures count { length helpers.new ≡ length helpers.old }
{
    thread::for_each_mut(
        rt,
        helpers,
        16,
        &|_, helper| help(rt, turn, helper, lines, rounds),
    );
}

/// The locks round an empty book and shelf. None where memory runs out.
pub(crate) fn opened(
    alloc: Global,
    seats: u32,
) -> Option<(Turn<Book, Shelf>, Vec<Seat<Book, Shelf>>)>
    requires { seats ≤ 65536 }
    ensures count { IfSome result (λ r. (r.0.table.shared.key.seats ≡ seats) × (length r.1.items ≡ seats)) }
    ensures ready { IfSome result (λ r. AreReady (table_of r.0) r.1.items) }
{
    match Turn::new(alloc, Book::new(alloc, seats)?, Shelf::new(), seats) {
        Ok(made) => Some(made),
        Err(_) => None,
    }
}

/// Ends the locks.
#[tactic(auto, using(crate::proofs::Listing::ready_whole))]
pub(crate) fn closed(turn: Turn<Book, Shelf>, seats: Vec<Seat<Book, Shelf>>) -> (Book, Shelf)
    requires count { length seats.items ≡ turn.table.shared.key.seats }
    requires ready { AreReady (table_of turn) seats.items }
    ensures { AreEnds turn.table.shared.key.seats result.0 result.1 }
{
    turn.close(seats)
}

/// The desk and the vault behind the visits of so many seats, each in a thread of its own. None where memory runs out
/// at the start.
pub fn with_seats<R: Threads + Wait + Sync>(
    rt: &R,
    alloc: Global,
    seats: u32,
    rounds: u32,
) -> Option<(Book, Shelf)>
    requires { seats ≤ 65536 }
    ensures { IfSome result (λ r. AreEnds seats r.0 r.1) }
{
    let (turn, mut all) = opened(alloc, seats)?;
    visit_all(rt, &turn, all.as_mut_slice(), alloc, rounds);
    Some(closed(turn, all))
}

/// The desk and the vault of one seat, which made so many rounds, behind half as many rounds of each of two helpers in
/// threads of their own, and one round more of the seat. With the horizon that the seat saw in the end. None where
/// memory runs out at the start.
pub fn with_helpers<R: Threads + Wait + Sync>(
    rt: &R,
    alloc: Global,
    rounds: u32,
) -> Option<(Book, Shelf, (u32, u32))>
    ensures { IfSome result (λ r. AreEnds 1 r.0 r.1) }
{
    let (turn, mut seats) = opened(alloc, 1)?;
    let Some(mut seat) = seats.pop() else {
        unreachable!()
    };
    let lines = visit(rt, alloc, &turn, &mut seat, rounds);
    helped(rt, &turn, &mut seat, lines, rounds / 2);
    let more = visit(rt, alloc, &turn, &mut seat, 1);
    let horizon = copy(rt, &turn, &mut seat, more);
    seats.push_reserved(seat);
    let (book, shelf) = closed(turn, seats);
    Some((book, shelf, horizon))
}

// Two helpers of the seat, which come back.
fn helped<R: Threads + Wait + Sync>(
    rt: &R,
    turn: &Turn<Book, Shelf>,
    seat: &mut Seat<Book, Shelf>,
    lines: u64,
    rounds: u32,
)
    requires ready { IsReady (table_of turn.now) lines seat.old }
    requires whole { (mine seat.old).parts ≡ PARTS }
    ensures ready { IsReady (table_of turn.now) lines seat.new }
    ensures same { Keeps seat.old seat.new }
{
    let mut helpers = [turn.lend(seat), turn.lend(seat)];
    help_all(rt, turn, &mut helpers, seat.number(), lines, rounds);
    let [one, other] = helpers;
    turn.take_back(seat, one);
    turn.take_back(seat, other);
}
