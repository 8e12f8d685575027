//! Runs scripts, and says in a journal and a transcript what became of each item.
#![tactic(auto)]

mod asking;
mod attempt;
mod beside;
mod calling;
mod combining;
mod dropping;
mod ending;
mod gate;
mod item;
mod items;
mod kept;
mod laws;
mod listing;
mod looking;
mod nothing;
mod numbers;
mod passing;
mod plan;
mod printing;
mod result_table;
mod rows;
mod shown;
mod statements;
mod texts;
mod transacting;
mod wording;

pub use gate::{Gate, NoGate, Point};
pub use item::{Done, RunItems};
pub use items::Items;
pub use kept::Kept;
pub use laws::law_of_runs;
pub use passing::run_session;
pub use plan::{Plan, SessionPlan, Task, names_of, plan_of};
pub use printing::print;
pub use result_table::{ResultTable, ResultTables};
