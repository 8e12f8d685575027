//! The records of the Maplog.

use values::Seq;

/// The most pages of a run.
pub const RUN_PAGES: u32 = 4096;

/// A record of the Maplog.
#[derive(Debug, Drop)]
pub enum MapEntry {
    /// No mapping is kept; the first will have this number.
    Start { low: u64, capacity: u32 },
    /// Mappings of these pages, numbered from `first` on.
    Run { first: u64, pages: Seq<u32> },
    /// The mappings below this number are forgotten.
    Low { low: u64 },
}
