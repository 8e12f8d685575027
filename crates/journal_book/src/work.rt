//! What a session has open.

use history::Writes;
use retro_base::{Refusal, Who};
use std::collections::BTreeSet;
use values::Seq;

/// An open transaction.
#[derive(Drop)]
pub struct Transaction {
    pub who: Who,
    /// The place of its Began line, which is the number of the lines before it.
    pub began: usize,
    /// Its edits, in rising page.
    pub edits: Writes,
    /// The pages that it has read.
    pub reads: BTreeSet<u32>,
    /// The refusal that it keeps.
    pub kept: Option<Refusal>,
}

/// An open look.
#[derive(Drop)]
pub struct Look {
    pub who: Who,
    /// The place of its line.
    pub began: usize,
    /// The snapshots that it pins, in rising number.
    pub pins: Seq<u32>,
}

/// What a session has open, or keeps.
#[derive(Drop)]
pub enum Work {
    Open(Transaction),
    Looking(Look),
    /// The line of a drop that found no room, kept for the session's next drop in that phase.
    KeptDrop(Who),
}
