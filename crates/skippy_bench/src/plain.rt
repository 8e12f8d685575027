//! What a plain scan finds.

use indexmap::IndexMap;
use std::alloc::{AllocError, Global};

/// The number of each page's first mapping from `start` on, by reading each mapping.
pub fn first_numbers(
    alloc: Global,
    pages: &[u32],
    start: usize,
) -> Result<IndexMap<u32, u64>, AllocError> {
    let mut numbers = IndexMap::new(alloc);
    for (number, page) in pages.iter().enumerate().skip(start) {
        if !numbers.contains_key(page) {
            numbers
                .insert(*page, number as u64)
                .map_err(|_| AllocError)?;
        }
    }
    Ok(numbers)
}
