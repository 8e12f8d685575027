//! What the log says of a store, and the changes of a store.

ghost use Rattle.std.specs.Prelude.{◌≡◌, List};
ghost use Rattle.history.specs.Marks.{oldest, newest, oldest_start, newest_start};

use crate::label::Label;
use crate::writes::Writes;
use std::alloc::{AllocError, Global};
use values::{Duplicate, Seq};

/// A retained snapshot: its number, its label, and how many captures there were when it was declared,
/// those of the commit that declared it among them.
#[derive(Debug, Drop)]
pub struct Mark {
    pub number: u32,
    pub label: Label,
    pub start: u64,
}

impl Duplicate for Mark {
    fn copy(&self, alloc: Global) -> Result<Mark, AllocError> {
        Ok(Mark {
            number: self.number,
            label: self.label.copy(alloc)?,
            start: self.start,
        })
    }
}

/// The number of the oldest retained snapshot, or 1 where none was declared.
pub fn oldest(marks: &[Mark]) -> u32
    ensures { result ≡ oldest marks.now }
{
    match marks {
        [] => 1,
        [first, ..] => first.number,
    }
}

/// The number of the newest snapshot, or 0 where none was declared.
pub fn newest(marks: &[Mark]) -> u32
    ensures { result ≡ newest marks.now }
{
    match marks {
        [] => 0,
        [.., last] => last.number,
    }
}

/// The start of the oldest retained snapshot, or 0 where none was declared.
pub fn oldest_start(marks: &[Mark]) -> u64
    ensures { result ≡ oldest_start marks.now }
{
    match marks {
        [] => 0,
        [first, ..] => first.start,
    }
}

/// The start of the newest snapshot, or 0 where none was declared.
pub fn newest_start(marks: &[Mark]) -> u64
    ensures { result ≡ newest_start marks.now }
{
    match marks {
        [] => 0,
        [.., last] => last.start,
    }
}

/// What the log says of a store at one place of its history.
#[derive(Debug, Drop)]
pub struct Base {
    /// Pages of the store.
    pub page_count: u32,
    /// Page images that the archive holds.
    pub capacity: u32,
    /// Changes before this place, modulo 2^64.
    pub changes: u64,
    /// Captures before this place.
    pub captures: u64,
    /// The retained snapshots, in rising number.
    pub marks: Seq<Mark>,
    /// The pages that were captured since the newest snapshot was declared, in strictly rising number.
    pub captured: Seq<u32>,
}

impl Duplicate for Base {
    fn copy(&self, alloc: Global) -> Result<Base, AllocError> {
        Ok(Base {
            page_count: self.page_count,
            capacity: self.capacity,
            changes: self.changes,
            captures: self.captures,
            marks: self.marks.copy(alloc)?,
            captured: Seq::from(Vec::from_slice(alloc, self.captured.as_slice())?),
        })
    }
}

/// What changes a store: a commit, which declares a snapshot where it has a label, or a drop of the
/// snapshots below a number.
#[derive(Debug, Drop)]
pub enum Change {
    Commit {
        label: Option<Label>,
        writes: Writes,
    },
    Drop {
        below: u32,
    },
}
