//! Scripts read, and those of a load made; sources read in pieces, and sources and sinks that fail: worked out by hand.
#![tactic(auto)]

#[cfg(test)]
mod loads;
#[cfg(test)]
mod sources;
#[cfg(test)]
mod tests;
