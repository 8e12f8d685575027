//! What a device is to the store: a fixed number of bytes, what a read returns, what a crash may leave; the
//! four devices of a store with their sizes, and a cabinet that keeps stores by name. The crate stands on no other.
#![tactic(auto)]

mod cabinet;
mod disk;
mod four;

pub use cabinet::Cabinet;
pub use disk::{Disk, Failed};
pub use four::{Four, Sizes};
