//! Splits a line of the SQL into tokens, each with its place.
#![tactic(auto)]

mod keyword;
mod lexer;
mod sign;
mod token;

pub use lexer::{lex, one_reading};
pub use token::{Ending, Keyword, Lexed, Placed, Sign, Token};
