//! Calls over many snapshots.

ghost use Rattle.std.specs.Prelude.{◌≡◌, [], true, IsTrue, IfOk};
ghost use Rattle.std.specs.List.{AllByRecursion};
ghost use Rattle.retro_base.specs.Gives.{Gives};
ghost use Rattle.sql_tree.specs.Statement.{IsSelect};
ghost use Rattle.seat_pager.specs.Past.{pins};
ghost use Rattle.journal_law.specs.Seats.{Idle, Moves, View, is_looking};
ghost use Rattle.session.specs.Calls.{AreRising, CallEnds, CallLeaves, CallsOver, Combines, CombinesNone, LeavesTable};
ghost use Rattle.session.specs.Calls.{LooksAtMarks, ended, is_retained, item_call, numbers_listed};
ghost use Rattle.session.specs.Ending.{Concludes};
ghost use Rattle.session.specs.Singles.{Settles};
ghost use Rattle.session.specs.Wording.{count_text};

use crate::asking::LookAsOf;
use crate::combining::combine;
use crate::ending::{Told, finish};
use crate::gate::{Gate, Point};
use crate::listing::snapshots_asked;
use crate::looking::{of_query, of_seat};
use crate::nothing::NoSnapshot;
use crate::numbers::{all_numbers, lists_all, numbers_in};
use crate::result_table::ResultTable;
use crate::wording::write_count;
use fold_kit::Folds;
use history::Mark;
use journal_law::Seat;
use pager::Stop;
use retro_base::{Refusal, Who};
use rql_arguments::{Call, Combination};
use script::SessionName;
use seat_pager::PastPager;
use sql_select::Answer;
use sql_tree::Select;
use std::alloc::{AllocError, Global};
use values::{Duplicate, Name, Seq};

// What a call ends with over a look, by the last refusal of its seat.
fn ended(answer: Result<Answer, Stop<Refusal>>, last: Option<Refusal>) -> Result<Answer, Refusal>
    ensures { result ≡ ended answer last }
{
    match answer {
        Ok(answer) => Ok(answer),
        Err(Stop::Refused(why)) => Err(of_query(why)),
        Err(Stop::Pager(_)) => Err(of_seat(last)),
    }
}

// Asks the query at these snapshots, the first of which is given, and combines the answers.
fn combine_over<S: Seat, F: Folds>(
    alloc: Global,
    seat: S,
    first: u32,
    numbers: &[u32],
    query: &Select,
    folds: &F,
    combination: &Combination,
) -> (S, Result<Answer, Refusal>)
    requires looking_now { is_looking (S.view seat).work ≡ true }
    requires first { IsTrue (pins (S.view seat) first) }
    requires pinned { AllByRecursion (λ number. IsTrue (pins (S.view seat) number)) numbers.now }
    requires query { IsSelect query.now }
    ensures moves { Moves (S.view seat) (S.view result.0) [] }
    ensures work { (S.view result.0).work ≡ (S.view seat).work }
    ensures concludes { Concludes (Combines query.now combination.now numbers.now (S.is_honest seat) (S.view seat))
        (S.view result.0) result.1 }
    ensures goes { S.goes seat result.0 }
{
    let mut looked = LookAsOf {
        alloc,
        pager: PastPager::new(seat, first),
    };
    let answer = combine(alloc, &mut looked, numbers, query, folds, combination);
    let LookAsOf { alloc: _, pager } = looked;
    let last = pager.refused();
    (pager.into_seat(), ended(answer, last))
}

// The answers of a query at no snapshot, combined.
fn combine_none<F: Folds>(
    alloc: Global,
    query: &Select,
    folds: &F,
    combination: &Combination,
) -> Result<Answer, Refusal>
    requires { IsSelect query.now }
    ensures { (view : View) → Concludes (CombinesNone query.now combination.now) view result }
{
    let mut none = NoSnapshot;
    ended(
        combine(alloc, &mut none, &[], query, folds, combination),
        None,
    )
}

// The numbers that a list of snapshots gives, all of which are among these marks. The plain list needs no query.
fn numbers_listed(alloc: Global, query: &Select, marks: &[Mark]) -> Result<Vec<u32>, Refusal>
    requires rising { AreRising marks.now }
    ensures numbers { Gives (λ numbers. numbers.items) result (numbers_listed query.now marks.now) }
    ensures retained { IfOk result
        (λ numbers. AllByRecursion (λ number. is_retained number marks.now ≡ true) numbers.items) }
{
    if lists_all(query) {
        return all_numbers(alloc, marks);
    }
    let listed = snapshots_asked(alloc, query, marks)?;
    numbers_in(alloc, listed.rows.as_slice(), marks)
}

// Asks the call's query at its snapshots, and combines the answers.
fn call_over<S: Seat, F: Folds>(
    alloc: Global,
    seat: S,
    call: &Call,
    folds: &F,
    marks: &[Mark],
) -> (S, Result<Answer, Refusal>)
    requires looking_now { is_looking (S.view seat).work ≡ true }
    requires all { LooksAtMarks (S.view seat) marks.now }
    requires rising { AreRising marks.now }
    requires query { IsSelect call.now.query }
    ensures moves { Moves (S.view seat) (S.view result.0) [] }
    ensures work { (S.view result.0).work ≡ (S.view seat).work }
    ensures concludes { Concludes (CallsOver call.now (S.is_honest seat) (S.view seat)) (S.view result.0) result.1 }
    ensures goes { S.goes seat result.0 }
{
    let numbers = match numbers_listed(alloc, &call.snapshots, marks) {
        Ok(numbers) => numbers,
        Err(why) => return (seat, Err(of_query(why))),
    };
    let query = &call.query;
    let combination = &call.combination;
    match numbers.first() {
        Some(first) => combine_over(alloc, seat, *first, &numbers, query, folds, combination),
        None => (seat, combine_none(alloc, query, folds, combination)),
    }
}

// The reply of a call, and its result table.
fn reply_of(
    alloc: Global,
    name: &Name,
    answer: Answer,
) -> Result<(Seq<u8>, ResultTable), AllocError>
    ensures text { IfOk result (λ found. found.0 ≡ count_text answer) }
    ensures table { IfOk result (λ found. found.1 ≡ record { name = name.now; answer = answer }) }
{
    let mut text = Vec::new(alloc);
    write_count(alloc, &answer, &mut text)?;
    let name = name.copy(alloc)?;
    Ok((Seq::from(text), ResultTable { name, answer }))
}

// What a call ends with: its reply, and the result table that it leaves.
fn result_of(
    alloc: Global,
    name: &Name,
    answer: Result<Answer, Refusal>,
) -> (Result<Seq<u8>, Refusal>, Option<ResultTable>)
    ensures { CallEnds name.now answer result.0 result.1 }
{
    let answer = match answer {
        Ok(answer) => answer,
        Err(why) => return (Err(why), None),
    };
    match reply_of(alloc, name, answer) {
        Ok((text, table)) => (Ok(text), Some(table)),
        Err(_) => (Err(Refusal::OutOfMemory), None),
    }
}

// Ends an open look at all snapshots, of which these are the marks, with the result of the call.
fn call_up<S: Seat, F: Folds>(
    alloc: Global,
    seat: S,
    names: &[SessionName],
    call: &Call,
    folds: &F,
    marks: &[Mark],
) -> (S, Told, Option<ResultTable>)
    requires looking_now { is_looking (S.view seat).work ≡ true }
    requires all { LooksAtMarks (S.view seat) marks.now }
    requires rising { AreRising marks.now }
    requires query { IsSelect call.now.query }
    ensures ends { CallLeaves names.now call.now (S.is_honest seat) (S.view seat) (S.view result.0) result.1 result.2 }
    ensures goes { S.goes seat result.0 }
{
    let (seat, answer) = call_over(alloc, seat, call, folds, marks);
    let (text, table) = result_of(alloc, &call.table, answer);
    let (seat, told) = finish(alloc, seat, names, text);
    (seat, told, table)
}

/// Runs a call over many snapshots, and gives its reply, and the result table that it leaves where it has an answer.
/// The gate is told when the look has begun.
pub fn call<S: Seat, G: Gate, F: Folds>(
    alloc: Global,
    seat: S,
    gate: &G,
    who: Who,
    names: &[SessionName],
    call: &Call,
    folds: &F,
) -> (S, Told, Option<ResultTable>)
    requires idle { (S.view seat).work ≡ Idle }
    requires own { who.session ≡ (S.view seat).session }
    requires query { IsSelect call.now.query }
    ensures settles { S.is_honest seat
        → Settles who (item_call names.now call.now) (S.view seat) (S.view result.0) result.1 }
    ensures leaves { S.is_honest seat
        → LeavesTable who (item_call names.now call.now) (S.view seat) (S.view result.0) result.2 }
    ensures idle { (S.view result.0).work ≡ Idle }
    ensures session { (S.view result.0).session ≡ (S.view seat).session }
    ensures goes { S.goes seat result.0 }
{
    let mut seat = seat;
    match seat.look_all(who) {
        Ok(marks) => {
            gate.at(Point::AfterLook, who.session, who.item);
            call_up(alloc, seat, names, call, folds, marks.as_slice())
        }
        Err(_) => (seat, Ok(None), None),
    }
}
