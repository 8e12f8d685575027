//! Two ticket locks, round the desk and the vault of a store, that threads with a seat each enter in turn.
#![tactic(auto)]

mod desk_lock;
pub mod locked;
mod plays;
pub mod seat;
mod sharing;
pub mod turn;
mod vault_lock;
pub mod view;
mod words;
