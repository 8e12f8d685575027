//! Where a list of bodies breaks.

ghost use Rattle.std.specs.Prelude.{◌≡◌};
ghost use Rattle.records.specs.InTurn.{stopping};

use crate::decoding::DecodeError;
use gate_log::Unread;

/// The list breaks behind so many bodies where nothing is found, or memory ran out.
pub(crate) fn stopped_at(error: DecodeError, behind: usize) -> Unread
    ensures { result ≡ stopping error behind }
{
    match error {
        DecodeError::OutOfMemory => Unread::OutOfMemory,
        DecodeError::Malformed => Unread::Broken { behind },
    }
}
