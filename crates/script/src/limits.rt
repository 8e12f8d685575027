//! The bound of what is read.

/// The most bytes of a script.
pub const SCRIPT_BYTES: usize = 4_194_304;
