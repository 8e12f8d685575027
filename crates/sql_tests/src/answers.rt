//! Answers of selects, worked out by hand from the rules.

mod grouped;
mod plain;
mod rows;
