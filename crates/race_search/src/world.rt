//! What a store holds behind changes, by the plain rule. A page is told by the byte that fills it.

use std::alloc::AllocError;

pub type Pages = [u8; 16];

/// The pages that commits write.
pub const WRITTEN: [usize; 2] = [2, 3];

/// Puts a value into its place, where there is one.
pub fn put<T: Copy>(list: &mut [T], place: usize, value: T) {
    if let Some(item) = list.get_mut(place) {
        *item = value;
    }
}

/// What stands at a place, or the default where nothing does.
pub fn at<T: Copy + Default>(list: &[T], place: usize) -> T {
    list.get(place).copied().unwrap_or_default()
}

/// A commit of page 2; of pages 2 and 3; of page 2, declaring a snapshot; of none, declaring one; a drop of all
/// snapshots but the newest.
#[derive(Clone, Copy, Debug, PartialEq, Eq)]
pub enum Change {
    One,
    Two,
    Both,
    Mark,
    Drop,
}

impl Change {
    pub fn pages(self) -> &'static [usize] {
        match self {
            Change::One | Change::Both => &[2],
            Change::Two => &[2, 3],
            Change::Mark | Change::Drop => &[],
        }
    }

    pub fn declares(self) -> bool {
        matches!(self, Change::Both | Change::Mark)
    }
}

/// A page, and the byte that filled it.
#[derive(Clone, Copy)]
pub struct Image {
    pub page: usize,
    pub fill: u8,
}

/// A snapshot, with the pages as they were just behind the commit that declared it.
#[derive(Clone, Copy, Default)]
pub struct Snapshot {
    pub number: usize,
    pub start: usize,
    pub pages: Pages,
}

/// A place in a history: how many changes there were, the pages, all captures, and the retained snapshots.
#[derive(Clone, Drop)]
pub struct World {
    pub changes: usize,
    pub pages: Pages,
    pub captures: Vec<Image>,
    pub snapshots: Vec<Snapshot>,
}

impl World {
    /// The byte that the next commit fills its pages with: it counts the changes.
    pub fn fill(&self) -> u8 {
        (self.changes & 0x3f) as u8 + 1
    }

    pub fn oldest(&self) -> Snapshot {
        self.snapshots.first().copied().unwrap_or_default()
    }

    pub fn newest(&self) -> Snapshot {
        self.snapshots.last().copied().unwrap_or_default()
    }

    pub fn snapshot(&self, number: usize) -> Snapshot {
        let mut snapshots = self.snapshots.iter().copied();
        let found = snapshots.find(|each| each.number == number);
        found.unwrap_or_default()
    }

    /// Whether the page was captured since the newest snapshot was declared.
    pub fn is_captured(&self, page: usize) -> bool {
        let mut since = self.captures.iter().skip(self.newest().start);
        since.any(|image| image.page == page)
    }

    fn write(&mut self, page: usize) -> Result<(), AllocError> {
        if !self.snapshots.is_empty() && !self.is_captured(page) {
            let fill = at(&self.pages, page);
            self.captures.push(Image { page, fill })?;
        }
        let fill = self.fill();
        put(&mut self.pages, page, fill);
        Ok(())
    }

    /// The place behind one more change.
    pub fn after(&self, change: Change) -> Result<World, AllocError> {
        let mut world = self.clone()?;
        let newest = self.newest().number;
        for page in change.pages() {
            world.write(*page)?;
        }
        if change.declares() {
            let (start, pages) = (world.captures.len(), world.pages);
            let number = newest.saturating_add(1);
            world.snapshots.push(Snapshot {
                number,
                start,
                pages,
            })?;
        }
        if change == Change::Drop {
            world.snapshots.retain(|each| each.number == newest);
        }
        world.changes = self.changes.saturating_add(1);
        Ok(world)
    }
}
