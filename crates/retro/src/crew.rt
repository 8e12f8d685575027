//! What runs a plan.

/// The runtime, in at most how many of its threads the sessions of a phase run, and what runs their items.
#[derive(Drop)]
pub struct Crew<'a, R, I> {
    pub rt: &'a R,
    pub threads: usize,
    pub runner: &'a I,
}
