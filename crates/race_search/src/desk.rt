//! The desk as plain data. A step tells whether it could be made.

use crate::world::{Change, Image, Pages, World, at, put};
use std::alloc::{AllocError, Global};

/// How a call ends: it is done, or it fails, and where it wrote bytes leaves old, new or other ones.
#[derive(Clone, Copy, Debug, PartialEq, Eq)]
pub enum Fate {
    Done,
    Old,
    New,
    Other,
}

impl Fate {
    pub fn of(self, old: u8, new: u8) -> u8 {
        match self {
            Fate::Done | Fate::New => new,
            Fate::Old => old,
            Fate::Other => 0xFF,
        }
    }
}

/// What a failed call may have left of the log beside its list: nothing; one change more; a new base alone.
#[derive(Clone, Copy)]
pub enum Doubt {
    Sure,
    OneMore(Change),
    NewBase,
}

/// The log has its base where the history stood at `past`, and lists `rest`. The devices open beside an archive that
/// holds `need` captures; `acked` are known to stand in it. Pages are `loose` from their write until the device is
/// settled, and `dirty` from their change until they are written. A `hasty` one is planted: it does not wait with a
/// write until the page's captures are acknowledged.
#[derive(Clone, Drop)]
pub struct Desk {
    pub history: World,
    pub past: World,
    pub rest: Vec<Change>,
    pub need: usize,
    pub acked: usize,
    pub pages: Pages,
    pub loose: [bool; 16],
    pub dirty: [bool; 16],
    pub doubt: Doubt,
    pub stopped: bool,
    pub hasty: bool,
}

/// Captures on their way to the vault, numbered from `first` on; mappings below `low` may be forgotten.
#[derive(Clone, Drop)]
pub struct Batch {
    pub first: usize,
    pub low: usize,
    pub images: Vec<Image>,
}

impl Batch {
    pub fn end(&self) -> usize {
        self.first.saturating_add(self.images.len())
    }
}

/// What a reader of a page as of a snapshot was told: the byte to take where the vault finds nothing from `start` up
/// to `upto`.
#[derive(Clone, Copy)]
pub struct Told {
    pub snapshot: usize,
    pub page: usize,
    pub start: usize,
    pub upto: usize,
    pub fill: u8,
}

impl Desk {
    pub fn change(
        &mut self,
        change: Change,
        fate: Fate,
        pins: &[usize],
    ) -> Result<bool, AllocError> {
        let (oldest, newest) = (self.history.oldest().number, self.history.newest().number);
        let drops = oldest < newest && pins.iter().all(|pin| newest <= *pin);
        if self.stopped || change == Change::Drop && !drops {
            return Ok(false);
        }
        if fate != Fate::Done {
            self.doubt = Doubt::OneMore(change);
            self.stopped = true;
            return Ok(true);
        }
        self.history = self.history.after(change)?;
        self.rest.push(change)?;
        for page in change.pages() {
            put(&mut self.dirty, *page, true);
        }
        Ok(true)
    }

    /// So many of the captures that are not yet acknowledged; fewer where there are fewer.
    pub fn batch_of(&self, alloc: Global, count: usize) -> Result<Batch, AllocError> {
        let captures = self.history.captures.iter().copied();
        Ok(Batch {
            first: self.acked,
            low: self.history.oldest().start.min(self.acked),
            images: captures.skip(self.acked).take(count).collect(alloc)?,
        })
    }

    /// Writes a page back, with the least need that it may have.
    pub fn write(&mut self, page: usize, fate: Fate) -> bool {
        let mut captures = self.history.captures.iter();
        let last = captures.rposition(|image| image.page == page);
        let need = self
            .need
            .max(last.map_or(0, |number| number.saturating_add(1)));
        let may = !self.stopped && at(&self.dirty, page) && (need <= self.acked || self.hasty);
        let left = fate.of(at(&self.pages, page), at(&self.history.pages, page));
        put(&mut self.pages, page, left);
        put(&mut self.loose, page, true);
        put(&mut self.dirty, page, fate != Fate::Done);
        self.need = need;
        self.stopped = fate != Fate::Done;
        may
    }

    pub fn settle(&mut self) -> bool {
        let may = !self.stopped && self.loose.contains(&true);
        self.loose = [false; 16];
        may
    }

    pub fn stop(&mut self) -> bool {
        let may = !self.stopped;
        self.stopped = true;
        may
    }

    pub fn cut(&mut self, fate: Fate) -> Result<bool, AllocError> {
        let unsettled = self.dirty.contains(&true) || self.loose.contains(&true);
        let may = !self.stopped && !unsettled && self.acked == self.history.captures.len();
        self.need = self.history.captures.len();
        if fate == Fate::Done {
            self.past = self.history.clone()?;
            self.rest.clear();
        } else {
            self.doubt = Doubt::NewBase;
            self.stopped = true;
        }
        Ok(may)
    }

    pub fn is_in_doubt(&self) -> bool {
        !matches!(self.doubt, Doubt::Sure)
    }

    /// What an opening makes of the list, or of what a failed call left of it, beside an archive that holds so many
    /// captures.
    pub fn open(&mut self, left: bool, held: usize) -> Result<(), AllocError> {
        match self.doubt {
            Doubt::OneMore(change) if left => {
                self.history = self.history.after(change)?;
                self.rest.push(change)?;
            }
            Doubt::NewBase if left => {
                self.past = self.history.clone()?;
                self.rest.clear();
            }
            _ => {}
        }
        (self.need, self.acked) = (held, held);
        (self.loose, self.dirty) = ([false; 16], [false; 16]);
        for page in self.rest.iter().flat_map(|change| change.pages()) {
            put(&mut self.dirty, *page, true);
        }
        (self.doubt, self.stopped) = (Doubt::Sure, false);
        Ok(())
    }

    /// The page's first capture from the start on that is not yet acknowledged, else the page as it is.
    pub fn told_of(&self, snapshot: usize, page: usize) -> Told {
        let start = self.history.snapshot(snapshot).start;
        let mut behind = self.history.captures.iter().skip(start.max(self.acked));
        let first = behind.find(|image| image.page == page);
        let now = at(&self.history.pages, page);
        Told {
            snapshot,
            page,
            start,
            upto: self.acked,
            fill: first.map_or(now, |image| image.fill),
        }
    }
}
