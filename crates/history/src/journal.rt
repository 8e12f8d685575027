//! The journal: what became of each item of a run, in order.

ghost use Rattle.std.specs.Prelude.{◌≡◌};
ghost use Rattle.history.specs.Lines.{is_write};

use crate::entry::Change;
use crate::label::Label;
use crate::writes::Writes;
use retro_base::{Device, Refusal, Who};
use values::Seq;

/// What a call of a device that failed was to do.
#[derive(Debug, Drop)]
pub enum FailedCall {
    /// A read.
    Read,
    /// A write or a sync.
    Write,
    /// The append of a change's record to the log, which a crash may find there or not.
    Append(Change),
}

impl FailedCall {
    /// Whether it was to write, to sync or to append.
    pub fn is_write(&self) -> bool
        ensures { result ≡ is_write self.now }
    {
        !matches!(self, FailedCall::Read)
    }
}

/// What a line of the journal says.
#[derive(Debug, Drop)]
pub enum What {
    /// A transaction began.
    Began,
    /// It was committed; with a label it declared a snapshot.
    Done {
        label: Option<Label>,
        writes: Writes,
    },
    /// It ended because it overlapped an item of another session.
    Overlapped {
        session: u16,
        item: u32,
    },
    /// It was rolled back.
    RolledBack,
    /// A look at a snapshot began.
    Looked {
        snapshot: u32,
    },
    /// A look at all retained snapshots began.
    LookedAll,
    /// A look ended with its answer.
    Unlooked,
    /// The snapshots below this number were dropped.
    Dropped {
        below: u32,
    },
    /// A transaction, a look or a drop was refused.
    Refused {
        why: Refusal,
    },
    /// A call of a device failed.
    Fault {
        device: Device,
        count: u64,
        call: FailedCall,
    },
}

/// A line of the journal: whose it is, and what it says.
#[derive(Debug, Drop)]
pub struct Line {
    pub who: Who,
    pub what: What,
}

/// The lines so far.
pub type Journal = Seq<Line>;
