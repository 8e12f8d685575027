//! The log of the desk: a base, and the changes behind it, each a body of a log over the two halves of a device.
#![tactic(auto)]

mod fits;
mod log;
mod side;

pub use fits::{change_fits, fitting_bases_stay};
pub use log::RedoLog;
pub use side::LogSide;
