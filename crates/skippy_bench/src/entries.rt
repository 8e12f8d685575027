//! What a scan reads by the rule of the levels, counted apart from them: steps take no bytes, so no program can read
//! them.

use std::alloc::{AllocError, Global};
use std::collections::HashSet;

const SIZES: [usize; 5] = [262_144, 32_768, 4_096, 512, 1];

/// The entries that a scan of these mappings from `from` on reads: the different pages of the greatest segments that
/// cover it, and each mapping outside.
pub fn entries_read(alloc: Global, pages: &[u32], from: usize) -> Result<usize, AllocError> {
    let mut read = 0usize;
    let mut at = from;
    for _ in 0..pages.len() {
        let Some(segment) = greatest(pages, at) else {
            break;
        };
        read = read.saturating_add(different(alloc, segment)?);
        at = at.saturating_add(segment.len());
    }
    Ok(read)
}

/// The greatest segment that begins there.
fn greatest(pages: &[u32], at: usize) -> Option<&[u32]> {
    let rest = pages.get(at..)?;
    for size in SIZES {
        if at.checked_rem(size) == Some(0) && size <= rest.len() {
            return rest.get(..size);
        }
    }
    None
}

fn different(alloc: Global, pages: &[u32]) -> Result<usize, AllocError> {
    let mut met = HashSet::new(alloc);
    for page in pages {
        met.insert(*page).map_err(|_| AllocError)?;
    }
    Ok(met.len())
}
