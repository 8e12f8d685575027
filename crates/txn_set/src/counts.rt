//! What a commit is measured by.

/// What the limits of a commit are tested on: numbers of the base, and how many of its pages the commit captures.
#[derive(Clone, Copy, Debug, PartialEq, Eq)]
pub struct Counts {
    /// Page images that the archive holds.
    pub capacity: u32,
    /// Captures before the commit.
    pub captures: u64,
    /// Pages that the commit captures.
    pub captured: u64,
    /// Snapshots that are retained.
    pub retained: u32,
    /// The number of the newest snapshot, or 0.
    pub newest: u32,
    /// The start of the oldest snapshot, or 0.
    pub oldest_start: u64,
}
