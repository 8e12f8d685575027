//! Whose a line of the journal is.

/// Whose a line is: the phase, the session in it, and the item of that session.
#[derive(Clone, Copy, Debug, PartialEq, Eq)]
pub struct Who {
    pub phase: u16,
    pub session: u16,
    pub item: u32,
}

/// A call of an object of the outside failed.
#[derive(Clone, Copy, Debug, PartialEq, Eq)]
pub struct Failed;
