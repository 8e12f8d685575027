//! Values of expressions and truths of conditions at rows, with names that are bound to places once.
#![tactic(auto)]

mod condition;
mod expression;
mod joined_row;
mod source;
mod stack;
mod worked;

pub use condition::BoundCondition;
pub use expression::BoundExpression;
pub use joined_row::JoinedRow;
pub use source::Source;
pub use stack::Stack;
pub use worked::Worked;
