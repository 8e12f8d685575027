//! How a look ends, and what is told of it.

ghost use Rattle.std.specs.Prelude.{◌≡◌, true, IfOk, Some};
ghost use Rattle.journal_law.specs.Seats.{Idle, Look, Looking, MayEnd, UnlookGives, is_looking};
ghost use Rattle.session.specs.Ending.{ending_by, ending_of, told_alone, told_of};
ghost use Rattle.session.specs.Wording.{refusal_text};

use crate::wording::write_refusal;
use journal_law::{Ending, Seat};
use retro_base::Refusal;
use script::SessionName;
use std::alloc::{AllocError, Global};
use values::Seq;

/// What is told of an item that has run: its reply, or nothing where it was cut short.
pub type Told = Result<Option<Seq<u8>>, AllocError>;

// The end of a look that has this refusal in place of an answer.
fn ending_by(why: Refusal) -> Ending
    ensures { result ≡ ending_by why }
{
    match why {
        Refusal::DiskFault { device, count } => Ending::Failed { device, count },
        why => Ending::Refused(why),
    }
}

/// The reply of an item that ends with this refusal.
pub fn refused(alloc: Global, names: &[SessionName], why: Refusal) -> Told
    ensures { IfOk result (λ told. told ≡ Some (refusal_text names.now why)) }
{
    let mut text = Vec::new(alloc);
    write_refusal(alloc, names, why, &mut text)?;
    Ok(Some(Seq::from(text)))
}

/// The reply of an item that has a line of this refusal alone. A full journal and want of memory have no line: they cut
/// the item short.
pub fn refused_alone(alloc: Global, names: &[SessionName], why: Refusal) -> Told
    ensures { IfOk result (λ told. told ≡ told_alone names.now why) }
{
    match why {
        Refusal::JournalFull { .. } => Ok(None),
        Refusal::OutOfMemory => Ok(None),
        why => refused(alloc, names, why),
    }
}

/// Ends a look with its answer, or with the refusal that it has in place of one, and gives its reply.
pub fn finish<S: Seat>(
    alloc: Global,
    seat: S,
    names: &[SessionName],
    text: Result<Seq<u8>, Refusal>,
) -> (S, Told)
    requires looking_now { is_looking (S.view seat).work ≡ true }
    requires may_end { MayEnd (S.view seat) (ending_of text) }
    ensures ends { (look : Look) → (S.view seat).work ≡ Looking look
        → UnlookGives (ending_of text) (S.view seat) (S.view result.0) look }
    ensures tells { IfOk result.1 (λ told. told ≡ Some (told_of names.now text)) }
    ensures goes { S.goes seat result.0 }
{
    let mut seat = seat;
    match text {
        Ok(text) => {
            seat.unlook(Ending::Asked);
            (seat, Ok(Some(text)))
        }
        Err(why) => {
            seat.unlook(ending_by(why));
            (seat, refused(alloc, names, why))
        }
    }
}
