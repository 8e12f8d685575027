//! The store that the contents of its devices open to.

ghost use Rattle.std.specs.Prelude.{◌≡◌, ◌++◌, ◌≤◌, ◌<◌, ◌↔◌, [], length, drop, IfOk, IfSome, IsSome};
ghost use Rattle.history.specs.History.{run, captures_of};
ghost use Rattle.history.specs.Replayed.{page_in, state_of};
ghost use Rattle.history.specs.Right.{IsBase, AreRight};
ghost use Rattle.history.specs.Writes.{pages_of};
ghost use Rattle.replay.specs.Joined.{AreJoined};
ghost use Rattle.replay.specs.Opened.{contents_of, slot_images, Opens};

use crate::joining::{holds_base, holds_changes};
use history::{Base, Change, Log, PageImage, Replayed, RunningBase};
use retro_base::Page;
use skippy::Mappings;
use std::alloc::{AllocError, Global};
use values::Seq;

/// A store as its devices open.
#[derive(Debug, Drop)]
pub struct Opened {
    /// What the log says behind its last record.
    pub base: Base,
    /// The pages as they are.
    pub pages: Seq<Page>,
    /// The number of the lowest capture that is kept.
    pub low: u64,
    /// How many captures the archive holds.
    pub held: u64,
    /// The captures from the lowest that is kept on, whether the archive holds them or not.
    pub captures: Seq<PageImage>,
}

// The store where the log begins.
fn begun(alloc: Global, base: Base, pages: Seq<Page>) -> Result<Replayed, AllocError>
    requires { IsBase base }
    ensures { IfOk result (λ store. store ≡ record { base = base; pages = pages; captures = [] }) }
{
    Ok(Replayed {
        base: RunningBase::new(alloc, base)?,
        pages,
        captures: Seq::new(alloc),
    })
}

// The store behind all these changes, which are right in turn.
fn replayed(alloc: Global, store: Replayed, changes: &[Change]) -> Result<Replayed, AllocError>
    requires whole { length store.pages ≡ store.base.page_count }
    requires right { AreRight store.base changes.now }
    ensures state { IfOk result (λ behind. state_of behind ≡ run (state_of store) changes.now) }
    ensures captures { IfOk result (λ behind.
        behind.captures ≡ store.captures ++ captures_of (state_of store) changes.now) }
    ensures whole { IfOk result (λ behind. length behind.pages ≡ behind.base.page_count) }
{
    let mut place = store;
    for change in changes {
        place = match place.apply(alloc, change)? {
            Some(store) => store,
            None => unreachable!(),
        };
    }
    Ok(place)
}

// The captures that the mappings tell, each with the bytes in its slot.
fn images_of(
    alloc: Global,
    mappings: &Mappings,
    slots: &[Page],
) -> Result<Vec<PageImage>, AllocError>
    requires { 0 < length slots.now }
    ensures { IfOk result (λ images. images.items ≡
        slot_images (page_in slots.now) (length slots.now) mappings.now.low mappings.now.pages) }
{
    let low = mappings.low();
    let pages = mappings.pages();
    let mut images = Vec::new(alloc);
    for number in low..mappings.end() {
        let slot = (number % slots.len() as u64) as usize;
        images.push(PageImage {
            page: pages[(number - low) as usize],
            bytes: slots[slot],
        })?;
    }
    Ok(images)
}

fn captured_pages(alloc: Global, captures: &[PageImage]) -> Result<Vec<u32>, AllocError>
    ensures { IfOk result (λ pages. pages.items ≡ pages_of captures.now) }
{
    captures.iter().map(|image| image.page).collect(alloc)
}

// The captures from that place on.
fn from_place(captures: &[PageImage], place: usize) -> &[PageImage]
    requires { place ≤ length captures.now }
    ensures { result.now ≡ drop place captures.now }
{
    &captures[place..]
}

/// The store that these contents open to: the log over the pages as their device has them, with the captures that
/// the mappings tell in the slots. None exactly where the log and the mappings do not belong together.
pub fn join(
    alloc: Global,
    log: Log,
    pages: Seq<Page>,
    mappings: &Mappings,
    slots: &[Page],
) -> Result<Option<Opened>, AllocError>
    requires base { IsBase log.base }
    requires right { AreRight log.base log.changes }
    requires pages { length pages ≡ log.base.page_count }
    requires slots { length slots.now ≡ log.base.capacity }
    ensures opens { IfOk result (λ found. IfSome found (Opens (contents_of log pages mappings.now slots.now))) }
    ensures joined { IfOk result (λ found. IsSome found ↔ AreJoined (contents_of log pages mappings.now slots.now)) }
{
    if !holds_base(alloc, &log.base, mappings)? {
        return Ok(None);
    }
    let captures = log.base.captures;
    let Log { base, changes, .. } = log;
    let first = begun(alloc, base, pages)?;
    let store = replayed(alloc, first, changes.as_slice())?;
    let captured = captured_pages(alloc, store.captures.as_slice())?;
    if !holds_changes(captures, &store.base, &captured, mappings) {
        return Ok(None);
    }
    let mut images = images_of(alloc, mappings, slots)?;
    let held = mappings.end();
    let behind = (held - captures) as usize;
    images.extend_from_slice(from_place(store.captures.as_slice(), behind))?;
    Ok(Some(Opened {
        base: store.base.to_base(alloc)?,
        pages: store.pages,
        low: mappings.low(),
        held,
        captures: Seq::from(images),
    }))
}
