//! What the contents of a store's devices stand for: the rule by which the log and the Maplog belong together, and
//! the store that they open to.
#![tactic(auto)]

mod joining;
mod laws;
mod opened;

pub use joining::{holds_base, holds_changes};
pub use laws::laws_of_the_opened;
pub use opened::{Opened, join};
