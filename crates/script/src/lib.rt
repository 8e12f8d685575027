//! Scripts: phases of sessions of items, read from their bytes.
#![tactic(auto)]

mod class;
mod draft;
mod laws;
mod limits;
mod line;
mod name;
mod reading;
mod structure;
mod text;

pub use laws::{front_law, script_law};
pub use limits::SCRIPT_BYTES;
pub use line::Line;
pub use name::{SessionName, is_session_name};
pub use reading::read;
pub use structure::{End, Item, Phase, Reading, Script, Session, Single, Transaction};
