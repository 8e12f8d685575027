//! The log of a store, as a value.

ghost use Rattle.std.specs.Prelude.{◌≡◌};
ghost use Rattle.history.specs.Log.{version_number};

use crate::entry::{Base, Change};
use values::Seq;

/// The version of a log's records: a page's number takes two bytes in the first, four in the second.
#[derive(Clone, Copy, Debug, PartialEq, Eq)]
pub enum Version {
    One,
    Two,
}

impl Version {
    /// The number by which records tell their version.
    pub fn number(self) -> u16
        ensures { result ≡ version_number self }
    {
        match self {
            Version::One => 1,
            Version::Two => 2,
        }
    }
}

/// What the log lists: in records of a version a base, and the changes behind it.
#[derive(Debug, Drop)]
pub struct Log {
    pub version: Version,
    pub base: Base,
    pub changes: Seq<Change>,
}
