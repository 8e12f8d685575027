//! What the four devices of a store open to, computed plainly: the store, or the first device that breaks and where.
//! Contracts and tests cite it; a run opens its store by `store`.
#![tactic(auto)]

mod devices;
mod laws;
mod store;

pub use laws::devices_are_read_one_way;
pub use store::open_devices;
