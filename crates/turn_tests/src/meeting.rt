//! Two seats that meet, and the last seat of a full table.

ghost use Rattle.std.specs.Prelude.{◌<◌, ◌≤◌, IfSome};
ghost use Rattle.turn_tests.specs.Ready.{AreEnds};

use crate::small::{Book, Shelf};
use crate::threads::{closed, opened};
use crate::visits::{acknowledge, hold, visit};
use std::alloc::Global;
use std::sync::Wait;

/// The desk and the vault of two seats, which made so many rounds, one behind the other. The second raised what is
/// held, then they met, and the first acknowledged it. With the horizon that the first then saw. None where memory runs
/// out at the start.
pub fn with_meeting<R: Wait>(
    rt: &R,
    alloc: Global,
    rounds: u32,
) -> Option<(Book, Shelf, (u32, u32))>
    ensures { IfSome result (λ r. AreEnds 2 r.0 r.1) }
{
    let (turn, mut seats) = opened(alloc, 2)?;
    let Some(mut other) = seats.pop() else {
        unreachable!()
    };
    let Some(mut one) = seats.pop() else {
        unreachable!()
    };
    let lines = visit(rt, alloc, &turn, &mut one, rounds);
    let others = visit(rt, alloc, &turn, &mut other, rounds);
    let held = hold(rt, &turn, &mut other, others);
    turn.meet(&mut one, &mut other);
    acknowledge(rt, &turn, &mut one, held, lines);
    let horizon = turn.horizon(&mut one);
    seats.push_reserved(one);
    seats.push_reserved(other);
    let (book, shelf) = closed(turn, seats);
    Some((book, shelf, horizon))
}

/// The desk and the vault of so many seats, of which the last made one round. None where memory runs out at the start.
pub fn with_last<R: Wait>(rt: &R, alloc: Global, seats: u32) -> Option<(Book, Shelf)>
    requires few { seats ≤ 65536 }
    requires some { 0 < seats }
    ensures { IfSome result (λ r. AreEnds seats r.0 r.1) }
{
    let (turn, mut all) = opened(alloc, seats)?;
    let Some(mut last) = all.pop() else {
        unreachable!()
    };
    visit(rt, alloc, &turn, &mut last, 1);
    all.push_reserved(last);
    Some(closed(turn, all))
}
