//! What it costs to keep mappings, apart from what a scan reads of them.

use retro_base::Refusal;
use skippy::Levels;
use std::alloc::Global;

fn push(levels: &mut Levels, pages: &[u32]) -> Result<(), Refusal> {
    if levels.end() > 1 << 32 || pages.len() > 1 << 32 {
        return Err(Refusal::BadSizes);
    }
    levels.push(pages)
}

fn forget_one(levels: &mut Levels) {
    let low = levels.low().saturating_add(1);
    if levels.low() <= low && low <= levels.end() {
        levels.trim(low);
    }
}

/// The lowest mapping and the end of levels that map two pages for each mapping that they forget, until they keep so
/// many. Were those that are kept moved each time, this would not end within the time that a program has.
pub fn two_for_one(alloc: Global, kept: u32) -> Result<(u64, u64), Refusal> {
    let mut levels = Levels::new(alloc, 0);
    for number in 0..kept {
        push(&mut levels, &[number % 4, number % 4])?;
        forget_one(&mut levels);
    }
    Ok((levels.low(), levels.end()))
}
