//! The ways to combine two numbers.

/// How two numbers are combined.
#[derive(Clone, Copy, Debug, PartialEq, Eq)]
pub enum How {
    /// The lesser of them.
    Min,
    /// The greater of them.
    Max,
    /// Their sum.
    Add,
}
