//! Where the bytes of a script come from.

ghost use Rattle.std.specs.Prelude.{◌≡◌, ◌≤◌, ◌<◌, ℕ, List, Option, IfOk, IfSome, OnErr, OnOk, length, take, drop};
ghost use Rattle.std.specs.Option.{option_map};
ghost use Rattle.retro_base.specs.Cause.{Rose, HasCause};
ghost use Rattle.feeds.specs.Feeds.{AreNext};

use retro_base::{Failed, Refusal};
use std::alloc::{AllocError, AllocFailed, Global};
use std::error::Error;
use std::fmt;

/// Where bytes are read from.
pub trait Source {
    // The bytes that are left, where the source tells them.
    ghost left: { Self → Option (List ℕ) };

    // How many calls have failed. The count stops at the last value of a u64.
    ghost faults: { Self → ℕ };

    /// Puts the next bytes into the front of `out`, and answers how many. At the end there are none.
    fn take(&mut self, out: &mut [u8]) -> Result<usize, Failed>
        requires { 0 < length out.old }
        ensures bound { IfOk result (λ n. n ≤ length out.new) }
        ensures bytes { IfOk result (λ n. IfSome (left self.old) (AreNext n out.new)) }
        ensures rest { IfOk result (λ n. left self.new ≡ option_map (drop n) (left self.old)) }
        ensures err { OnErr result (left self.new ≡ left self.old) }
        ensures cause { HasCause (faults self.old) (faults self.new) result };

    /// How many calls have failed.
    fn faults(&self) -> u64
        ensures { result ≡ faults self.now };
}

/// Why bytes could not be read.
#[derive(Clone, Copy, Debug, PartialEq, Eq)]
pub enum ReadError {
    /// Memory ran out.
    Memory,
    /// The source failed.
    Source,
}

impl fmt::Display for ReadError {
    ghost use Rattle.std.specs.Prelude.{Some};
    ghost use Rattle.feeds.specs.ReadError.{words_of};

    ghost output = { λ e. Some (words_of e) };

    fn fmt<W: fmt::Write>(&self, f: &mut fmt::Formatter<W>) -> fmt::Result {
        match self {
            ReadError::Memory => write!(f, "out of memory"),
            ReadError::Source => write!(f, "source fault"),
        }
    }
}

impl Error for ReadError {}

impl From<AllocError> for ReadError {
    ghost use Rattle.std.specs.Prelude.{◌≡◌};
    ghost use Rattle.feeds.specs.declared.source.ReadError.TheVariants.{Memory};

    ghost from_gives = { λ _ e. e ≡ Memory };

    fn from(_error: AllocError) -> ReadError {
        ReadError::Memory
    }
}

impl<T: Drop> From<AllocFailed<T>> for ReadError {
    ghost use Rattle.std.specs.Prelude.{◌≡◌};
    ghost use Rattle.feeds.specs.declared.source.ReadError.TheVariants.{Memory};

    ghost from_gives = { λ _ e. e ≡ Memory };

    fn from(_failed: AllocFailed<T>) -> ReadError {
        ReadError::Memory
    }
}

impl From<ReadError> for Refusal {
    ghost use Rattle.std.specs.Prelude.{◌≡◌};
    ghost use Rattle.feeds.specs.ReadError.{refusal_of};

    ghost from_gives = { λ e r. r ≡ refusal_of e };

    fn from(error: ReadError) -> Refusal {
        match error {
            ReadError::Memory => Refusal::OutOfMemory,
            ReadError::Source => Refusal::SourceFault,
        }
    }
}

// The most bytes that are taken at once.
const PIECE: usize = 4096;

/// Reads to the end, or until `limit` bytes were read: the source never gives more than `limit`.
/// After an error the bytes that were read till then are lost.
pub fn read_front<S: Source>(
    alloc: Global,
    source: &mut S,
    limit: usize,
) -> Result<Vec<u8>, ReadError>
    ensures bytes { IfOk result (λ v. IfSome (S.left source.old) (λ bytes. v.items ≡ take limit bytes)) }
    ensures bound { IfOk result (λ v. length v.items ≤ limit) }
    ensures rest { IfOk result (λ v. S.left source.new ≡ option_map (drop (length v.items)) (S.left source.old)) }
    ensures lost { OnErr result ((n : ℕ) × (n ≤ limit) ×
        (S.left source.new ≡ option_map (drop n) (S.left source.old))) }

    ensures later { S.faults source.old ≤ S.faults source.new }
    ensures steady { OnOk result (S.faults source.new ≡ S.faults source.old) }
    ensures failed { result ≡ Err ReadError.Source → Rose (S.faults source.old) (S.faults source.new) }
    ensures memory { result ≡ Err ReadError.Memory → S.faults source.new ≡ S.faults source.old }
{
    let mut read = Vec::new(alloc);
    let mut piece = [0u8; PIECE];
    'pieces: while read.len() < limit {
        let most = PIECE.min(limit - read.len());
        match source.take(&mut piece[..most]) {
            Ok(0) => break,
            Ok(n) => read.extend_from_slice(&piece[..n])?,
            Err(Failed) => return Err(ReadError::Source),
        }
    }
    Ok(read)
}
