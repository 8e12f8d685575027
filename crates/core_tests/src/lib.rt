//! Tests of the desk: transactions, looks, captures and drops of a small store, stores at their limits, the pool of a
//! large one, and stores over devices that fail and stop.
#![tactic(auto)]

#[cfg(test)]
mod faults;
#[cfg(test)]
mod full;
#[cfg(test)]
mod lines;
#[cfg(test)]
mod openings;
#[cfg(test)]
mod pool;
#[cfg(test)]
mod rows;
#[cfg(test)]
mod stops;
