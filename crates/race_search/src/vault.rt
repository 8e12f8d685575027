//! The vault as plain data. A step tells whether it could be made.

use crate::desk::{Batch, Fate, Told};
use crate::world::{at, put};
use std::alloc::{AllocError, Global};

/// Mappings from a lowest number on, each told by its page.
#[derive(Clone, Drop)]
pub struct Mappings {
    pub low: usize,
    pub pages: Vec<usize>,
}

impl Mappings {
    pub fn end(&self) -> usize {
        self.low.saturating_add(self.pages.len())
    }

    // The mappings from a number on, where that is above their lowest.
    fn trim_to(&self, alloc: Global, low: usize) -> Result<Mappings, AllocError> {
        let low = low.max(self.low);
        let kept = self.pages.iter().copied().skip(low - self.low);
        let pages = kept.collect(alloc)?;
        Ok(Mappings { low, pages })
    }
}

/// The Maplog lists `mappings`, or one of `others` since a call failed. Below `laid` the slots hold their captures;
/// `loose` ones were written since the Pagelog was settled.
#[derive(Clone, Drop)]
pub struct Vault {
    pub mappings: Mappings,
    pub others: Vec<Mappings>,
    pub laid: usize,
    pub slots: [u8; 64],
    pub loose: [bool; 64],
    pub stopped: bool,
}

impl Vault {
    fn goes_on(&self, batch: &Batch) -> bool {
        !self.stopped && batch.first == self.mappings.end()
    }

    /// Writes the batch's captures into their slots.
    pub fn lay(&mut self, batch: &Batch, fate: Fate) -> bool {
        let may = self.goes_on(batch);
        for (place, image) in batch.images.iter().enumerate() {
            let slot = batch.first.saturating_add(place) % 64;
            let left = fate.of(at(&self.slots, slot), image.fill);
            put(&mut self.slots, slot, left);
            put(&mut self.loose, slot, fate != Fate::Done);
        }
        self.stopped = fate != Fate::Done;
        self.laid = if self.stopped {
            self.mappings.end()
        } else {
            self.laid.max(batch.end())
        };
        may
    }

    /// Trims the mappings, and maps the batch behind them.
    pub fn enter(&mut self, alloc: Global, batch: &Batch, fate: Fate) -> Result<bool, AllocError> {
        let may = self.goes_on(batch) && batch.end() <= self.laid;
        let trimmed = self.mappings.trim_to(alloc, batch.low)?;
        let mut entered = trimmed.clone()?;
        for image in &batch.images {
            entered.pages.push(image.page)?;
        }
        if fate == Fate::Done {
            self.mappings = entered;
        } else {
            self.others = vec![in alloc; trimmed, entered]?;
            self.stopped = true;
        }
        Ok(may)
    }

    /// What an opening makes of the list, or of the last that a failed call may have left.
    pub fn open(&mut self, left: bool) {
        if left && let Some(other) = self.others.pop() {
            self.mappings = other;
        }
        self.others.clear();
        self.laid = self.mappings.end();
        self.loose = [false; 64];
        self.stopped = false;
    }

    /// The byte in the slot of the page's first mapping below the count that was told, else the byte that was told.
    pub fn found(&self, told: &Told) -> u8 {
        let mappings = &self.mappings;
        let low = mappings.low;
        let mut numbers = told.start.max(low)..told.upto.min(mappings.end());
        match numbers.find(|number| at(&mappings.pages, number.saturating_sub(low)) == told.page) {
            Some(number) => at(&self.slots, number % 64),
            None => told.fill,
        }
    }
}
