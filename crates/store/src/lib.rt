//! The store: the desk and the vault in their locks, as seats of threads use them.
#![tactic(auto)]

mod carrying;
mod closing;
mod copier_rounds;
mod desk_calls;
mod desk_side;
mod ending;
mod fetching;
mod flusher_rounds;
mod held;
mod kept;
mod laws;
mod pace;
mod past;
mod recall;
mod room;
mod rounds;
mod seeing;
mod sessions;
mod shared;
mod start;
mod told;
mod vault_side;
mod worker;

pub use closing::Closed;
pub use copier_rounds::copier;
pub use desk_side::DeskSide;
pub use fetching::{Shown, show};
pub use flusher_rounds::flusher;
pub use held::Held;
pub use laws::{laws_of_crashes, laws_of_visits, laws_of_worlds};
pub use pace::{Done, Ended, IDLE_ROUNDS, Worker};
pub use shared::{Seat, Store};
pub use start::Start;
