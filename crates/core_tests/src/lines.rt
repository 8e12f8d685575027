//! The lines of a journal as data.

use history::{FailedCall, Line, What};
use retro_base::{Device, Refusal, Who};

/// What a line of the journal says.
#[derive(Clone, Copy, Debug, PartialEq, Eq)]
pub enum Said {
    Began,
    /// A commit, with the bytes of its label, if it has one, and how many pages it wrote.
    Done(Option<usize>, usize),
    Overlapped(u16, u32),
    RolledBack,
    Looked(u32),
    LookedAll,
    Unlooked,
    Dropped(u32),
    Refused(Refusal),
    /// A fault, and whether the call was to write.
    Fault(Device, u64, bool),
    /// A fault of the append of a change.
    InDoubt(Device, u64),
}

fn told_by(what: &What) -> Said {
    match what {
        What::Began => Said::Began,
        What::Done { label, writes } => Said::Done(
            label.as_ref().map(|label| label.bytes().len()),
            writes.images().len(),
        ),
        What::Overlapped { session, item } => Said::Overlapped(*session, *item),
        What::RolledBack => Said::RolledBack,
        What::Looked { snapshot } => Said::Looked(*snapshot),
        What::LookedAll => Said::LookedAll,
        What::Unlooked => Said::Unlooked,
        What::Dropped { below } => Said::Dropped(*below),
        What::Refused { why } => Said::Refused(*why),
        What::Fault {
            device,
            count,
            call: FailedCall::Append(_),
        } => Said::InDoubt(*device, *count),
        What::Fault {
            device,
            count,
            call,
        } => Said::Fault(*device, *count, call.is_write()),
    }
}

/// Whether the lines are these, each with whose it is.
pub fn are_lines(lines: &[Line], want: &[(Who, Said)]) -> bool {
    for (line, (who, what)) in lines.iter().zip(want) {
        if line.who != *who || told_by(&line.what) != *what {
            return false;
        }
    }
    lines.len() == want.len()
}

/// The first line that tells a fault, with whose it is.
pub fn first_fault(lines: &[Line]) -> Option<(Who, Said)> {
    for line in lines {
        let said = told_by(&line.what);
        if matches!(said, Said::Fault(..) | Said::InDoubt(..)) {
            return Some((line.who, said));
        }
    }
    None
}
