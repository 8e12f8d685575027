//! What a statement replies.

use sql_select::Answer;

/// The reply of a statement that was not refused.
#[derive(Debug, Drop)]
pub enum Reply {
    /// It is done, and there is no more to say.
    Plain,
    /// So many rows were added, changed or taken out.
    Count(u64),
    /// The answer of a select.
    Rows(Answer),
}
