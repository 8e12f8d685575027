//! The desk of a store without its journal: the log and the pages on their devices, the captures on their way to the
//! archive, what the log says now, and the first fault at which it stopped.
#![tactic(auto)]

mod change;
mod copying;
mod desk;
mod fetch;
mod laws;
mod reading;
mod telling;
mod writing;

pub use desk::RunningDesk;
pub use fetch::Unopened;
pub use laws::desk_bytes_open;
