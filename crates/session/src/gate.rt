//! Where a run may be held.

/// A place in the run of an item: outside the store's calls, and behind a look's beginning or beside a commit.
#[derive(Clone, Copy, Debug, PartialEq, Eq)]
pub enum Point {
    AfterLook,
    BeforeCommit,
    AfterCommit,
}

/// What is called at each point. It answers nothing and changes nothing.
pub trait Gate {
    fn at(&self, point: Point, session: u16, item: u32);
}

/// No gate: each call returns at once.
#[derive(Clone, Copy, Debug)]
pub struct NoGate;

impl Gate for NoGate {
    fn at(&self, _point: Point, _session: u16, _item: u32) {}
}
