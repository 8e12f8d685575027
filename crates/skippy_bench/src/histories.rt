//! The histories: which pages are captured, in order.

use std::alloc::{AllocError, Global};

/// How captures spread over the pages.
#[derive(Clone, Copy, Drop)]
pub enum History {
    /// 65,536 pages in turn, the most that a store has: those of each segment of three levels differ.
    Different,
    /// Four pages in turn.
    Repeated,
    /// A hundredth as many pages as captures, in turn.
    Hundredfold,
    /// 90 in 100 on 64 pages, the others anywhere in 65,536.
    Skewed,
}

impl History {
    /// The history of this name.
    pub fn named(name: &str) -> Option<History> {
        match name {
            "different" => Some(History::Different),
            "repeated" => Some(History::Repeated),
            "hundredfold" => Some(History::Hundredfold),
            "skewed" => Some(History::Skewed),
            _ => None,
        }
    }
}

/// The pages of so many captures.
pub fn pages_of(alloc: Global, history: History, length: u32) -> Result<Vec<u32>, AllocError> {
    let mut pages = Vec::new(alloc);
    let mut random = 7u64;
    for number in 0..length {
        random = random
            .wrapping_mul(6_364_136_223_846_793_005)
            .wrapping_add(1_442_695_040_888_963_407);
        pages.push(match history {
            History::Different => number % 65_536,
            History::Repeated => number % 4,
            History::Hundredfold => number % (length / 100 + 1),
            History::Skewed => skewed(random >> 32),
        })?;
    }
    Ok(pages)
}

fn skewed(random: u64) -> u32 {
    let pages = if random % 100 < 90 { 64 } else { 65_536 };
    (random / 100 % pages) as u32
}
