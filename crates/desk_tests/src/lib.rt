//! The stages of a small store on its desk, worked by hand.
#![tactic(auto)]

#[cfg(test)]
mod log;
#[cfg(test)]
mod pool;
#[cfg(test)]
mod queue;
#[cfg(test)]
mod tests;
