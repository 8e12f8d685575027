//! The statements of the SQL as trees.
#![tactic(auto)]

mod condition;
mod expression;
mod name;
mod rows;
mod schema;
mod scope;
mod select;
mod statement;

pub use condition::{Comparison, Condition, ConditionStep, Operand};
pub use expression::{Expression, ExpressionStep, Operator};
pub use name::ColumnName;
pub use rows::fits;
pub use schema::{IndexSchema, Schema, TableSchema};
pub use scope::{Scope, column_place, side_by_side};
pub use select::{Aggregate, Direction, OrderKey, Output, OutputValue, Select, SelectList};
pub use statement::{
    Assignment, Column, CreateIndex, CreateTable, Delete, Insert, Statement, Update,
};
