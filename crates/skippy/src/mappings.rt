//! The mappings that are kept, as a plain list.

ghost use Rattle.std.specs.Prelude.{◌≡◌, ◌≤◌, ◌+◌, [], OnOk, OnErr, length};
ghost use Rattle.retro_base.specs.declared.limits.TheConstants.{MAX_CAPTURES};
ghost use Rattle.skippy.specs.Mappings.{end_of, push, trim};

use std::alloc::{AllocError, Global};
use std::marker::Model;

/// The mappings numbered from a lowest one on, each told by its page.
#[derive(Debug, Drop)]
pub struct Mappings {
    low: u64,
    pages: Vec<u32>,
    // How many of the pages are those of forgotten mappings; these stand first.
    forgotten: usize,
}

impl Model for Mappings {
    ghost use Rattle.std.specs.Prelude.{◌+◌, ◌≤◌, drop, length};
    ghost use Rattle.retro_base.specs.declared.limits.TheConstants.{MAX_CAPTURES};
    ghost use Rattle.skippy.specs.Mappings as ghosts;

    ghost Value = { ghosts.Mappings };

    ghost view = { λ m. record { low = m.low; pages = drop m.forgotten m.pages.items } };

    ghost invariant = { λ m. (m.forgotten ≤ length m.pages.items)
        × (m.low + length m.pages.items ≤ MAX_CAPTURES + m.forgotten) };
}

impl Mappings {
    /// No mapping yet; the first will have the number `low`.
    pub fn new(alloc: Global, low: u64) -> Mappings
        requires { low ≤ MAX_CAPTURES }
        ensures { result ≡ record { low = low; pages = [] } }
    {
        Mappings {
            low,
            pages: Vec::new(alloc),
            forgotten: 0,
        }
    }

    /// The lowest number that is kept.
    pub fn low(&self) -> u64
        ensures { result ≡ self.now.low }
    {
        self.low
    }

    /// The number of the next mapping.
    pub fn end(&self) -> u64
        ensures same { result ≡ end_of self.now }
        ensures small { result ≤ MAX_CAPTURES }
    {
        self.low + self.pages().len() as u64
    }

    /// The page of each mapping, from the lowest on.
    pub fn pages(&self) -> &[u32]
        ensures { result.now ≡ self.now.pages }
    {
        &self.pages[self.forgotten..]
    }

    /// Maps these pages, in order, behind the last: all of them, or none where memory runs out.
    pub fn push(&mut self, pages: &[u32]) -> Result<(), AllocError>
        requires { end_of self.old + length pages.now ≤ MAX_CAPTURES }
        ensures ok { OnOk result (self.new ≡ push self.old pages.now) }
        ensures err { OnErr result (self.new ≡ self.old) }
    {
        self.pages.extend_from_slice(pages)
    }

    /// Keeps the mappings from `low` on. Those that are kept are moved to the front where they are fewer than those
    /// forgotten since the last move, so over all calls each forgotten mapping costs at most one move.
    pub fn trim(&mut self, low: u64)
        requires kept { self.old.low ≤ low }
        requires known { low ≤ end_of self.old }
        ensures { self.new ≡ trim self.old low }
    {
        self.forgotten += (low - self.low) as usize;
        self.low = low;
        if self.forgotten > self.pages.len() / 2 {
            self.pages.drain(..self.forgotten);
            self.forgotten = 0;
        }
    }
}
