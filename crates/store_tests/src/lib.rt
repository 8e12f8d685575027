//! Tests of the store over devices in memory and in files.
#![tactic(auto)]

#[cfg(test)]
mod copied;
#[cfg(test)]
mod cuts;
#[cfg(test)]
mod files;
#[cfg(test)]
mod full;
#[cfg(test)]
mod left;
#[cfg(test)]
mod plays;
#[cfg(test)]
mod rows;
#[cfg(test)]
mod steps;
#[cfg(test)]
mod stops;
