//! Runs transactions over a store.

ghost use Rattle.std.specs.Prelude.{◌≡◌, IfOk};
ghost use Rattle.std.specs.List.{AllByRecursion};
ghost use Rattle.script.specs.Limits.{EndFits, StatementFits};
ghost use Rattle.journal_law.specs.Seats.{Idle};
ghost use Rattle.session.specs.OneItem.{RunsItem, TellsItem};
ghost use Rattle.session.specs.Transacting.{HasEnded, IsAnswer, is_overlapped, item_for, text_told};

use crate::attempt::{Tried, try_once};
use crate::gate::Gate;
use crate::wording::write_refusal;
use journal_law::Seat;
use retro_base::{ATTEMPTS, Refusal, Who};
use script::{SessionName, Transaction};
use std::alloc::{AllocError, Global};

fn is_overlapped(tried: &Tried) -> bool
    ensures { result ≡ is_overlapped tried.now }
{
    matches!(tried, Tried::Overlapped(..))
}

// What is told of a transaction by its last attempt.
fn answer_of(
    alloc: Global,
    names: &[SessionName],
    tried: Tried,
) -> Result<Option<Vec<u8>>, AllocError>
    ensures { IfOk result (λ told. IsAnswer names.now tried (text_told (λ text. text.items) told)) }
{
    match tried {
        Tried::Ended(text) => Ok(Some(text)),
        Tried::Overlapped(session, item) => {
            let mut text = Vec::new(alloc);
            write_refusal(alloc, names, Refusal::Overlap { session, item }, &mut text)?;
            Ok(Some(text))
        }
        Tried::Untold => Err(AllocError),
        Tried::NotBegun => Ok(None),
    }
}

/// Runs a transaction of a session: up to 64 attempts, each but the last of which overlapped another item. Gives its
/// reply, or nothing where it was cut short. An AllocError says that the item has run, but that there was no memory for
/// its reply.
pub fn transaction<S: Seat, G: Gate>(
    alloc: Global,
    seat: S,
    gate: &G,
    who: Who,
    names: &[SessionName],
    transaction: &Transaction,
) -> (S, Result<Option<Vec<u8>>, AllocError>)
    requires idle { (S.view seat).work ≡ Idle }
    requires own { who.session ≡ (S.view seat).session }
    requires fit { AllByRecursion StatementFits transaction.now.statements }
    requires end { EndFits transaction.now.end }
    ensures ended { HasEnded (S.view seat) (S.view result.0) }
    ensures goes { S.goes seat result.0 }
    ensures runs { S.is_honest seat
        → RunsItem who (item_for names.now transaction.now) (S.view seat) (S.view result.0) }
    ensures tells { S.is_honest seat
        → IfOk result.1 (λ told. TellsItem who (item_for names.now transaction.now) (S.view seat) (S.view result.0)
        (text_told (λ text. text.items) told)) }
{
    let (mut seat, mut tried) = try_once(alloc, seat, gate, who, names, transaction);
    for _attempts in 1..ATTEMPTS {
        if !is_overlapped(&tried) {
            return (seat, answer_of(alloc, names, tried));
        }
        let (next, again) = try_once(alloc, seat, gate, who, names, transaction);
        seat = next;
        tried = again;
    }
    (seat, answer_of(alloc, names, tried))
}
