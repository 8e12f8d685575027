//! A log over the two halves of a device, of which one counts. A rewrite fills the other half under the next
//! generation, so that a crash leaves the old list or the new one whole.
#![tactic(auto)]

mod header;
mod laws;
mod listing;
mod log;
mod rewrite;

pub use laws::device_is_read_one_way;
pub use listing::listed;
pub use log::AreaLog;
