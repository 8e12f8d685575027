//! Queries as of a snapshot.

ghost use Rattle.std.specs.Prelude.{◌≡◌, ◌<◌, ◌^◌, [], true, IfOk};
ghost use Rattle.retro_base.specs.Gives.{Gives};
ghost use Rattle.journal_law.specs.Seats.{Idle, Look, Looking, Moves, Pins, is_looking};
ghost use Rattle.session.specs.Ending.{Concludes, LookEnds};
ghost use Rattle.session.specs.Singles.{AsksPast, Settles, concluded, item_as_of, of_query, of_seat};
ghost use Rattle.session.specs.Texts.{answer_text};

use crate::ending::{Told, finish, refused_alone};
use crate::gate::{Gate, Point};
use crate::texts::write_answer;
use journal_law::Seat;
use pager::Stop;
use retro_base::{Refusal, Who};
use script::SessionName;
use seat_pager::PastPager;
use sql_exec::ask;
use sql_parts::AsOf;
use sql_select::Answer;
use sql_tree::Select;
use std::alloc::{AllocError, Global};
use values::Seq;

/// A query has its own refusals; those that only a seat gives are none of it.
pub fn of_query(why: Refusal) -> Refusal
    ensures { result ≡ of_query why }
{
    match why {
        Refusal::DiskFault { .. } => Refusal::OutOfMemory,
        Refusal::Overlap { .. } => Refusal::OutOfMemory,
        why => why,
    }
}

/// The fault that a seat told of last, or want of memory.
pub fn of_seat(last: Option<Refusal>) -> Refusal
    ensures { result ≡ of_seat last }
{
    match last {
        Some(Refusal::DiskFault { device, count }) => Refusal::DiskFault { device, count },
        _ => Refusal::OutOfMemory,
    }
}

/// The text of an answer.
pub fn text_of(alloc: Global, answer: &Answer) -> Result<Seq<u8>, AllocError>
    ensures { IfOk result (λ text. text ≡ answer_text answer.now) }
{
    let mut text = Vec::new(alloc);
    write_answer(alloc, answer, &mut text)?;
    Ok(Seq::from(text))
}

// What a query ends with over a pager of a look, by the last refusal of its seat.
fn concluded(
    alloc: Global,
    answer: Result<Answer, Stop<Refusal>>,
    last: Option<Refusal>,
) -> Result<Seq<u8>, Refusal>
    ensures { Gives (λ text. text) result (concluded answer last) }
{
    match answer {
        Ok(answer) => Ok(text_of(alloc, &answer)?),
        Err(Stop::Refused(why)) => Err(of_query(why)),
        Err(Stop::Pager(_)) => Err(of_seat(last)),
    }
}

// Asks the query of the pages as of a snapshot at which the seat's open look looks.
fn ask_past<S: Seat>(
    alloc: Global,
    seat: S,
    snapshot: u32,
    query: &Select,
) -> (S, Result<Seq<u8>, Refusal>)
    requires looking_now { is_looking (S.view seat).work ≡ true }
    requires pinned { (look : Look) → (S.view seat).work ≡ Looking look → Pins (S.view seat) look snapshot }
    ensures moves { Moves (S.view seat) (S.view result.0) [] }
    ensures work { (S.view result.0).work ≡ (S.view seat).work }
    ensures concludes { Concludes (AsksPast query.now snapshot (S.is_honest seat) (S.view seat))
        (S.view result.0) result.1 }
    ensures goes { S.goes seat result.0 }
{
    let mut pager = PastPager::new(seat, snapshot);
    let answer = ask(alloc, query, &mut pager, Some(snapshot));
    let text = concluded(alloc, answer, pager.refused());
    (pager.into_seat(), text)
}

// Ends an open look at the snapshot with the answer of the query there.
fn look_up<S: Seat>(alloc: Global, seat: S, names: &[SessionName], query: &AsOf) -> (S, Told)
    requires looking_now { is_looking (S.view seat).work ≡ true }
    requires pinned { (look : Look) → (S.view seat).work ≡ Looking look → Pins (S.view seat) look query.now.snapshot }
    requires number { query.now.snapshot < 2 ^ 32 }
    ensures ends { LookEnds names.now
        (AsksPast query.now.query query.now.snapshot (S.is_honest seat) (S.view seat))
        (S.view seat) (S.view result.0) result.1 }
    ensures goes { S.goes seat result.0 }
{
    let (seat, text) = ask_past(alloc, seat, query.snapshot as u32, &query.query);
    finish(alloc, seat, names, text)
}

/// Runs a query as of a snapshot, and gives its reply. The gate is told when the look has begun.
pub fn as_of<S: Seat, G: Gate>(
    alloc: Global,
    seat: S,
    gate: &G,
    who: Who,
    names: &[SessionName],
    query: &AsOf,
) -> (S, Told)
    requires idle { (S.view seat).work ≡ Idle }
    requires own { who.session ≡ (S.view seat).session }
    ensures settles { S.is_honest seat
        → Settles who (item_as_of names.now query.now) (S.view seat) (S.view result.0) result.1 }
    ensures idle { (S.view result.0).work ≡ Idle }
    ensures session { (S.view result.0).session ≡ (S.view seat).session }
    ensures goes { S.goes seat result.0 }
{
    let mut seat = seat;
    match seat.look(who, query.snapshot) {
        Ok(()) => {
            gate.at(Point::AfterLook, who.session, who.item);
            look_up(alloc, seat, names, query)
        }
        Err(why) => (seat, refused_alone(alloc, names, why)),
    }
}
