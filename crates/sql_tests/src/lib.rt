//! The SQL over tables in memory, worked out by hand from the rules: the values and truths of trees, the names and
//! types of statements, and the answers of selects.
#![tactic(auto)]

#[cfg(test)]
mod answers;
#[cfg(test)]
mod building;
#[cfg(test)]
mod checks;
#[cfg(test)]
mod trees;
