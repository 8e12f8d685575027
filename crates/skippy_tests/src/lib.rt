//! Numbered mappings, worked by hand: the tables of small ranges, and that the calls succeed.
#![tactic(auto)]

#[cfg(test)]
mod page_tables;
#[cfg(test)]
mod support;
#[cfg(test)]
mod tests;
