//! Devices in memory and in files, cabinets of stores, and the making of a store: calls worked by hand.
#![tactic(auto)]

#[cfg(test)]
mod cabinets;
#[cfg(test)]
mod formats;
#[cfg(test)]
mod in_files;
#[cfg(test)]
mod in_memory;
