//! A test of the desk beside an archive: a page as of snapshots while its captures are copied, and behind a stop.
#![tactic(auto)]

#[cfg(test)]
mod past;
