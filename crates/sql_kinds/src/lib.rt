//! The kinds of expressions, what compares INT with TEXT, and names that stand for nothing.
#![tactic(auto)]

mod expressions;
mod laws;

pub use expressions::{
    agree, compares_apart, has_unknown, has_unknown_operand, is_unknown, kind_of,
    output_has_unknown, output_kind,
};
pub use laws::{conditions_are_decided, expressions_keep_their_kind};
