//! Tables on pages: pages byte for byte by hand, which pages each call edits, and that the calls succeed. Each call
//! stands in a function without clauses of its own, so that the tests stay cheap to prove.
#![tactic(auto)]

#[cfg(test)]
mod catalogs;
#[cfg(test)]
mod chains;
#[cfg(test)]
mod changes;
#[cfg(test)]
mod index_pages;
#[cfg(test)]
mod indexes;
#[cfg(test)]
mod many_rows;
#[cfg(test)]
mod pages;
#[cfg(test)]
mod row_bytes;
#[cfg(test)]
mod support;
#[cfg(test)]
mod whole_rows;
#[cfg(test)]
mod wide;
