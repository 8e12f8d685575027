//! The captures that the archive is not known to hold, in order and by page.

ghost use Rattle.std.specs.Prelude.{◌≡◌, ◌==◌, ◌≤◌, ◌<◌, ◌+◌, ◌-◌, ◌++◌, ◌∷◌, [], max};
ghost use Rattle.std.specs.Prelude.{length, take, drop, slice_index_or, OnOk, OnErr, IfErr};
ghost use Rattle.retro_base.specs.FirstMet.{first_met};
ghost use Rattle.retro_base.specs.declared.limits.TheConstants.{MAX_CAPTURES};
ghost use Rattle.retro_base.specs.declared.refusal.Refusal.TheVariants.{OutOfMemory};
ghost use Rattle.history.specs.Writes.{is_among, pages_of};
ghost use Rattle.copy_queue.specs.Pending.{IsFirstPast};

use history::PageImage;
use retro_base::Refusal;
use std::alloc::Global;
use std::collections::{BTreeSet, VecDeque};
use std::marker::Model;

/// Captures with consecutive numbers, from the first that the archive is not known to hold. Contracts see that number
/// and the list.
#[derive(Drop)]
pub struct CopyQueue {
    first: u64,
    images: VecDeque<PageImage>,
    // the page and the number of each
    places: BTreeSet<(u32, u64)>,
}

impl Model for CopyQueue {
    ghost use Rattle.copy_queue.specs.Pending.{IsIndex, Pending};

    ghost Value = { Pending };

    ghost view = { λ q. record { first = q.first; images = q.images.items } };

    ghost invariant = { λ q. IsIndex q.first q.images.items q.places };
}

impl CopyQueue {
    /// No captures, from that number on; takes no memory.
    pub fn new(alloc: Global, first: u64) -> CopyQueue
        requires { first ≤ MAX_CAPTURES }
        ensures { result ≡ record { first = first; images = [] } }
    {
        CopyQueue {
            first,
            images: VecDeque::new(alloc),
            places: BTreeSet::new(alloc),
        }
    }

    /// The number of the first.
    pub fn first(&self) -> u64
        ensures { result ≡ self.now.first }
    {
        self.first
    }

    /// How many there are.
    pub fn len(&self) -> usize
        ensures { result ≡ length self.now.images }
    {
        self.images.len()
    }

    /// Whether there are none.
    pub fn is_empty(&self) -> bool
        ensures { result ≡ (length self.now.images == 0) }
    {
        self.images.is_empty()
    }

    /// The capture at that place, counted from 0.
    pub fn image(&self, place: usize) -> &PageImage
        requires { place < length self.now.images }
        ensures { result.now ≡ slice_index_or self.now.images place result.now }
    {
        &self.images[place]
    }

    /// The place of the page's first capture at or past that number.
    pub fn find(&self, page: u32, from: u64) -> Option<usize>
        ensures { result
            ≡ first_met (pages_of self.now.images) (from - self.now.first) (length self.now.images) page }
    {
        match first_past(&self.places, page, from) {
            Some(number) => Some((number - self.first) as usize),
            None => None,
        }
    }

    /// Whether one is of that page.
    pub fn pends(&self, page: u32) -> bool
        ensures { result ≡ is_among page (pages_of self.now.images) }
    {
        self.find(page, self.first).is_some()
    }

    /// Adds captures behind the others. The only refusal is want of memory, and then none is added.
    pub fn add(&mut self, images: &[PageImage]) -> Result<(), Refusal>
        requires { self.old.first + length self.old.images + length images.now ≤ MAX_CAPTURES }
        ensures done { OnOk result (self.new
            ≡ record { first = self.old.first; images = self.old.images ++ images.now }) }
        ensures memory { IfErr result (λ why. why ≡ OutOfMemory) }
        ensures untouched { OnErr result (self.new ≡ self.old) }
    {
        let count = self.images.len();
        for image in images {
            if let Err(why) = self.push(*image) {
                self.keep(count);
                return Err(why);
            }
        }
        Ok(())
    }

    // Adds one behind the others, or leaves them as they are.
    fn push(&mut self, image: PageImage) -> Result<(), Refusal>
        requires { self.old.first + length self.old.images < MAX_CAPTURES }
        ensures done { OnOk result (self.new
            ≡ record { first = self.old.first; images = self.old.images ++ image ∷ [] }) }
        ensures memory { IfErr result (λ why. why ≡ OutOfMemory) }
        ensures untouched { OnErr result (self.new ≡ self.old) }
    {
        self.images.reserve(1)?;
        let number = self.first + self.images.len() as u64;
        self.places.insert((image.page, number))?;
        let Ok(()) = self.images.push_back(image) else {
            unreachable!()
        };
        Ok(())
    }

    /// Keeps that many and takes the others back; takes no memory.
    pub fn keep(&mut self, count: usize)
        ensures { self.new ≡ record { first = self.old.first; images = take count self.old.images } }
    {
        for _ in count..self.images.len() {
            self.take_back();
        }
    }

    // Takes the last one back.
    fn take_back(&mut self)
        ensures { self.new ≡ record {
          first = self.old.first;
          images = take (length self.old.images - 1) self.old.images;
        } }
    {
        let Some(image) = self.images.pop_back() else {
            return;
        };
        let number = self.first + self.images.len() as u64;
        self.places.remove(&(image.page, number));
    }

    /// Lets those go that the archive holds once it holds that many; takes no memory.
    pub fn ack(&mut self, count: u64)
        requires { count ≤ self.old.first + length self.old.images }
        ensures { self.new ≡ record {
          first = max self.old.first count;
          images = drop (count - self.old.first) self.old.images;
        } }
    {
        for _ in self.first..count {
            self.let_go();
        }
    }

    // Lets the first one go.
    fn let_go(&mut self)
        requires { 0 < length self.old.images }
        ensures { self.new ≡ record { first = self.old.first + 1; images = drop 1 self.old.images } }
    {
        let Some(image) = self.images.pop_front() else {
            return;
        };
        self.places.remove(&(image.page, self.first));
        self.first += 1;
    }
}

// The least number of the page at or past that one.
fn first_past(places: &BTreeSet<(u32, u64)>, page: u32, from: u64) -> Option<u64>
    ensures { IsFirstPast places.now page from result }
{
    match places.range((page, from)..).next() {
        Some((found, number)) if *found == page => Some(*number),
        _ => None,
    }
}
