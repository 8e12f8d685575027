//! What lies between the grammar and the building of trees: what a line of the SQL says, what its sentence puts out,
//! and the parts that are not put together yet.
#![tactic(auto)]

mod action;
mod apart;
mod parsed;
mod part;

pub use action::{
    Action, LineAction, ListAction, Op, OutputAction, QueryAction, RowAction, StepAction,
    TableAction, TermAction, UpdateAction,
};
pub use apart::Apart;
pub use parsed::{AsOf, Mechanism, Parsed, RqlCall};
pub use part::{Part, Parts};
