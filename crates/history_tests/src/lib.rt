//! The history of a store, worked by hand: what short journals capture, and the bytes of records with what lists of
//! them stand for.
#![tactic(auto)]

#[cfg(test)]
mod batches;
#[cfg(test)]
mod captures;
#[cfg(test)]
mod record_bytes;
#[cfg(test)]
mod replays;
