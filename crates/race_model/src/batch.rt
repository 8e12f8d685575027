//! Captures on their way from the desk to the vault.

ghost use Rattle.std.specs.Prelude.{◌≡◌, ◌==◌, ◌<◌, ◌++◌, ◌∷◌, [], IfErr, IfOk, length, get_or};
ghost use Rattle.retro_base.specs.declared.limits.TheConstants.{BATCH};
ghost use Rattle.retro_base.specs.declared.refusal.Refusal.TheVariants.{OutOfMemory};
ghost use Rattle.history.specs.Writes.{pages_of};
ghost use Rattle.replay.specs.Opened.{forgotten};

use retro_base::{BATCH, Page, Refusal};
use std::alloc::Global;
use std::marker::Model;

/// Up to 64 captures with consecutive numbers. Mappings below `low` may be forgotten when they are entered. Contracts
/// see the two numbers and the list of page images.
#[derive(Debug, Drop)]
pub struct Batch {
    first: u64,
    low: u64,
    pages: Vec<u32>,
    bytes: Vec<Page>,
}

impl Model for Batch {
    ghost use Rattle.std.specs.Prelude.{◌≡◌, ◌≤◌, length, vec_capacity};
    ghost use Rattle.retro_base.specs.declared.limits.TheConstants.{BATCH};
    ghost use Rattle.race_model.specs.Vault as vault;

    ghost Value = { vault.Batch };

    ghost view = { λ b. record { first = b.first; low = b.low; images = vault.images_of b.pages.items b.bytes.items } };

    ghost invariant = { λ b. (length b.bytes.items ≡ length b.pages.items)
        × (BATCH ≤ vec_capacity b.pages) × (BATCH ≤ vec_capacity b.bytes) };
}

impl Batch {
    /// An empty batch from number 0 on, with room for 64 captures. Refused for want of memory alone.
    pub fn new(alloc: Global) -> Result<Batch, Refusal>
        ensures batch { IfOk result (λ batch. batch ≡ record { first = 0; low = 0; images = [] }) }
        ensures memory { IfErr result (λ why. why ≡ OutOfMemory) }
    {
        Ok(Batch {
            first: 0,
            low: 0,
            pages: Vec::with_capacity(alloc, BATCH)?,
            bytes: Vec::with_capacity(alloc, BATCH)?,
        })
    }

    /// Makes it an empty batch with these numbers; takes no memory.
    pub fn restart(&mut self, first: u64, low: u64)
        ensures { self.new ≡ record { first = first; low = low; images = [] } }
    {
        self.first = first;
        self.low = low;
        self.pages.clear();
        self.bytes.clear();
    }

    /// Adds a capture behind the others; takes no memory.
    #[tactic(auto, using(crate::proofs::Batches::images_more, crate::proofs::Batches::images_length))]
    pub fn add(&mut self, page: u32, bytes: &Page)
        requires room { length self.old.images < BATCH }
        ensures { self.new ≡ record {
          first = self.old.first;
          low = self.old.low;
          images = self.old.images ++ record { page = page; bytes = bytes.now } ∷ [];
        } }
    {
        let (Ok(()), Ok(())) = (self.pages.push(page), self.bytes.push(*bytes)) else {
            unreachable!()
        };
    }

    /// The number of the first capture.
    pub fn first(&self) -> u64
        ensures { result ≡ self.now.first }
    {
        self.first
    }

    /// The number below which mappings may be forgotten.
    pub fn low(&self) -> u64
        ensures { result ≡ self.now.low }
    {
        self.low
    }

    /// How many captures it has.
    #[tactic(auto, using(crate::proofs::Batches::images_length))]
    pub fn len(&self) -> usize
        ensures { result ≡ length self.now.images }
    {
        self.pages.len()
    }

    /// Whether it has none.
    #[tactic(auto, using(crate::proofs::Batches::images_length))]
    pub fn is_empty(&self) -> bool
        ensures { result ≡ (length self.now.images == 0) }
    {
        self.pages.is_empty()
    }

    /// The page of each capture.
    #[tactic(auto, using(crate::proofs::Batches::images_pages))]
    pub fn pages(&self) -> &[u32]
        ensures { result.now ≡ pages_of self.now.images }
    {
        &self.pages
    }

    /// The bytes of the capture at that place, counted from 0.
    #[tactic(auto, using(crate::proofs::Batches::images_length, crate::proofs::Batches::images_bytes))]
    pub fn bytes(&self, place: usize) -> &Page
        requires there { place < length self.now.images }
        ensures { result.now ≡ (get_or self.now.images place forgotten).bytes }
    {
        &self.bytes[place]
    }
}
