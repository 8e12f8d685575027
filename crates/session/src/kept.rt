//! What is kept of the items of a run until its end.

use values::Seq;

/// What is kept of an item.
#[derive(Debug, Drop)]
pub enum Kept {
    /// Its reply lines.
    Told(Seq<u8>),
    /// It was cut short; how long the journal is at its end tells the cause.
    CutShort,
    /// It was not run.
    NotRun,
}
