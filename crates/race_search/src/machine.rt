//! A desk and a vault with what goes between them, and the steps of all.

use crate::desk::{Batch, Desk, Doubt, Fate, Told};
use crate::vault::{Mappings, Vault};
use crate::world::{Change, WRITTEN, World, at};
use std::alloc::{AllocError, Global};

/// A step of the machine. A batch and a receipt are told by their places, the newest at 0.
#[derive(Clone, Copy, Debug)]
pub enum Step {
    Make(Change),
    Take(usize),
    Receive(usize),
    Write(usize),
    Settle,
    Stop,
    Cut,
    Lay(usize),
    Enter(usize),
    Trim,
    /// Pins so many of the newest snapshots.
    Look(usize),
    Unlook,
    /// Opens the store again once a side has stopped.
    Open,
}

impl Step {
    /// How the step's call may end.
    pub fn fates(self) -> &'static [Fate] {
        match self {
            Step::Write(_) | Step::Lay(_) => &[Fate::Done, Fate::Old, Fate::New, Fate::Other],
            Step::Make(_) | Step::Cut | Step::Enter(_) | Step::Trim => &[Fate::Done, Fate::Old],
            Step::Open => &[Fate::Done, Fate::New],
            _ => &[Fate::Done],
        }
    }
}

#[derive(Clone, Drop)]
pub struct Machine {
    pub desk: Desk,
    pub vault: Vault,
    pub batches: Vec<Batch>,
    pub receipts: Vec<usize>,
    pub pins: Vec<usize>,
    pub told: Vec<Told>,
}

impl Machine {
    /// The machine of a store that was just made, its slots filled with a byte that no page has.
    pub fn made(alloc: Global, hasty: bool) -> Result<Machine, AllocError> {
        let world = World {
            changes: 0,
            pages: [0; 16],
            captures: Vec::new(alloc),
            snapshots: Vec::new(alloc),
        };
        let pages = Vec::new(alloc);
        Ok(Machine {
            desk: Desk {
                past: world.clone()?,
                history: world,
                rest: Vec::new(alloc),
                need: 0,
                acked: 0,
                pages: [0; 16],
                loose: [false; 16],
                dirty: [false; 16],
                doubt: Doubt::Sure,
                stopped: false,
                hasty,
            },
            vault: Vault {
                mappings: Mappings { low: 0, pages },
                others: Vec::new(alloc),
                laid: 0,
                slots: [0xFE; 64],
                loose: [false; 64],
                stopped: false,
            },
            batches: Vec::new(alloc),
            receipts: Vec::new(alloc),
            pins: Vec::new(alloc),
            told: Vec::new(alloc),
        })
    }

    fn take(&mut self, alloc: Global, count: usize) -> Result<bool, AllocError> {
        let batch = self.desk.batch_of(alloc, count)?;
        let may = batch.images.len() == count;
        self.batches.insert(0, batch)?;
        Ok(may)
    }

    fn receive(&mut self, place: usize) -> bool {
        let count = at(&self.receipts, place);
        let may = self.desk.acked < count && count <= self.desk.history.captures.len();
        self.desk.acked = count;
        may
    }

    fn enter(&mut self, alloc: Global, place: usize, fate: Fate) -> Result<bool, AllocError> {
        let Some(batch) = self.batches.get(place) else {
            return Ok(false);
        };
        if fate == Fate::Done {
            self.receipts.insert(0, batch.end())?;
        }
        self.vault.enter(alloc, batch, fate)
    }

    // Forgets the mappings that no retained snapshot needs.
    fn trim(&mut self, alloc: Global, fate: Fate) -> Result<bool, AllocError> {
        let first = self.vault.mappings.end();
        let low = self.desk.history.oldest().start.min(first);
        let may = self.vault.mappings.low < low;
        let images = Vec::new(alloc);
        let none = Batch { first, low, images };
        Ok(self.vault.enter(alloc, &none, fate)? && may)
    }

    fn look(&mut self, count: usize) -> Result<bool, AllocError> {
        let may = !self.pins.contains(&self.desk.history.newest().number);
        for snapshot in self.desk.history.snapshots.iter().rev().take(count) {
            self.pins.push(snapshot.number)?;
        }
        Ok(may && !self.pins.is_empty())
    }

    fn unlook(&mut self) -> bool {
        let may = !self.pins.is_empty();
        self.pins.clear();
        may
    }

    // An opening of what the devices list, or of what a failed call left.
    fn open(&mut self, fate: Fate) -> Result<bool, AllocError> {
        let left = fate != Fate::Done;
        let stopped = self.desk.stopped || self.vault.stopped;
        let other = self.desk.is_in_doubt() || !self.vault.others.is_empty();
        self.vault.open(left);
        self.desk.open(left, self.vault.mappings.end())?;
        self.batches.clear();
        self.receipts.clear();
        self.pins.clear();
        self.told.clear();
        Ok(stopped && (other || !left))
    }

    // Whether the step could be made, and was no quiet one.
    fn make(&mut self, alloc: Global, step: Step, fate: Fate) -> Result<bool, AllocError> {
        match step {
            Step::Make(change) => self.desk.change(change, fate, &self.pins),
            Step::Take(count) => self.take(alloc, count),
            Step::Receive(place) => Ok(self.receive(place)),
            Step::Write(page) => Ok(self.desk.write(page, fate)),
            Step::Settle => Ok(self.desk.settle()),
            Step::Stop => Ok(self.desk.stop()),
            Step::Cut => self.desk.cut(fate),
            Step::Lay(place) => match self.batches.get(place) {
                Some(batch) => Ok(self.vault.lay(batch, fate)),
                None => Ok(false),
            },
            Step::Enter(place) => self.enter(alloc, place, fate),
            Step::Trim => self.trim(alloc, fate),
            Step::Look(count) => self.look(count),
            Step::Unlook => Ok(self.unlook()),
            Step::Open => self.open(fate),
        }
    }

    fn peek(&mut self) -> Result<(), AllocError> {
        for pin in &self.pins {
            for page in WRITTEN {
                self.told.push(self.desk.told_of(*pin, page))?;
            }
        }
        Ok(())
    }

    /// The machine behind a step, if it may be made. With it goes a peek at each page as of each pinned snapshot.
    pub fn after(
        &self,
        alloc: Global,
        step: Step,
        fate: Fate,
    ) -> Result<Option<Machine>, AllocError> {
        let mut machine = self.clone()?;
        if !machine.make(alloc, step, fate)? {
            return Ok(None);
        }
        machine.peek()?;
        Ok(Some(machine))
    }
}
