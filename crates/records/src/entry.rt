//! The records of the log.

use history::{Base, Change};

/// A record of the log.
#[derive(Debug, Drop)]
pub enum Entry {
    Base(Base),
    Change(Change),
}
