//! Runs a plan over the plain store, a list of pages and a list as journal, for the tests of a session: a plan and a
//! transcript written out by hand, and the points at which a run may be held.
#![tactic(auto)]

mod driving;
#[cfg(test)]
mod gates;
mod laws;
#[cfg(test)]
mod seats;
#[cfg(test)]
mod tests;

pub use driving::{Finished, run_plan};
pub use laws::turns_make_runs;
