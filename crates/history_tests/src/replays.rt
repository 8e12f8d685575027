//! What no clause says: stores that short logs and Maplogs open to, worked by hand.

ghost use Rattle.std.specs.Prelude.{IsTrue, IfOk};
ghost use Rattle.history.specs.Right.{IsBase, AreRight};

use history::{Base, Change, Label, Log, PageImage, RunningBase, Version, Writes, is_base};
use replay::{Opened, join};
use retro_base::{PAGE_BYTES, Page};
use skippy::Mappings;
use std::alloc::{AllocError, Global};
use std::test::Fail;
use values::{Duplicate, Seq};

// What the log says of a store of sixteen pages where nothing was declared.
fn made_base(alloc: Global) -> Base {
    Base {
        page_count: 16,
        capacity: 64,
        changes: 0,
        captures: 0,
        marks: Seq::new(alloc),
        captured: Seq::new(alloc),
    }
}

// The commit that declares a snapshot and writes nothing.
fn declares(alloc: Global) -> Change {
    Change::Commit {
        label: Some(Label::new(Vec::new(alloc))),
        writes: Writes::new(Vec::new(alloc)),
    }
}

// The commit that sets one page to this byte.
fn sets(alloc: Global, page: u32, byte: u8) -> Result<Change, AllocError> {
    let image = PageImage {
        page,
        bytes: Page::of([byte; PAGE_BYTES]),
    };
    Ok(Change::Commit {
        label: None,
        writes: Writes::new(vec![in alloc; image]?),
    })
}

fn are_right(alloc: Global, base: Base, changes: &[Change]) -> Result<bool, AllocError>
    requires { IsBase base }
    ensures { IfOk result (λ right. IsTrue right → AreRight base changes.now) }
{
    let mut place = RunningBase::new(alloc, base)?;
    for change in changes {
        if !place.is_right(change) {
            return Ok(false);
        }
        place.apply(alloc, change)?;
    }
    Ok(true)
}

// The store of these changes and mappings over zero pages, each slot of the page images filled with 9.
fn joined(
    alloc: Global,
    changes: Seq<Change>,
    mappings: &Mappings,
) -> Result<Option<Opened>, Fail> {
    let base = made_base(alloc);
    if !is_base(&base) || !are_right(alloc, base.copy(alloc)?, changes.as_slice())? {
        return Err(Fail::new("not right"));
    }
    let pages = Seq::from(vec![in alloc; Page::zero(); 16]?);
    let slots = vec![in alloc; Page::of([9; PAGE_BYTES]); 64]?;
    if pages.len() != base.page_count as usize || slots.len() != base.capacity as usize {
        return Err(Fail::new("other sizes"));
    }
    let log = Log {
        version: Version::One,
        base,
        changes,
    };
    Ok(join(alloc, log, pages, mappings, &slots)?)
}

// Mappings of these pages from 0 on, cut at this number.
fn mapped(alloc: Global, pages: &[u32], low: u64) -> Result<Mappings, Fail> {
    let mut mappings = Mappings::new(alloc, 0);
    if pages.len() > 64 || low > pages.len() as u64 {
        return Err(Fail::new("other mappings"));
    }
    mappings.push(pages)?;
    mappings.trim(low);
    Ok(mappings)
}

// Whether the capture at that place is of page 7, with this byte.
fn captured(store: &Opened, place: usize, byte: u8) -> bool {
    match store.captures.as_slice().get(place) {
        Some(image) => image.page == 7 && image.bytes == Page::of([byte; PAGE_BYTES]),
        None => false,
    }
}

// A declaration, and then five commits of page 7.
fn five_commits(alloc: Global) -> Result<Seq<Change>, Fail> {
    let mut changes = vec![in alloc; declares(alloc)]?;
    for byte in 1..6 {
        changes.push(sets(alloc, 7, byte)?)?;
    }
    Ok(Seq::from(changes))
}

#[test]
fn five_commits_capture_once(rt: HostRuntime) -> Result<(), Fail> {
    let alloc = rt.alloc();
    let store = joined(alloc, five_commits(alloc)?, &mapped(alloc, &[], 0)?)?.ok_or("not joined")?;
    assert_eq!(rt; (store.low, store.held, store.captures.len()), (0, 0, 1));
    assert!(rt; captured(&store, 0, 0));
    assert!(rt; store.pages.as_slice().get(7) == Some(&Page::of([5; PAGE_BYTES])));
    Ok(())
}

#[test]
fn a_capture_that_is_held_has_the_bytes_of_its_slot(rt: HostRuntime) -> Result<(), Fail> {
    let alloc = rt.alloc();
    let store = joined(alloc, five_commits(alloc)?, &mapped(alloc, &[7], 0)?)?.ok_or("not joined")?;
    assert_eq!(rt; (store.low, store.held, store.captures.len()), (0, 1, 1));
    assert!(rt; captured(&store, 0, 9));
    Ok(())
}

#[test]
fn three_snapshots_start_at_three_captures(rt: HostRuntime) -> Result<(), Fail> {
    let alloc = rt.alloc();
    let mut changes = vec![in alloc; sets(alloc, 7, 1)?]?;
    for byte in 2..5 {
        changes.push(declares(alloc))?;
        changes.push(sets(alloc, 7, byte)?)?;
    }
    let store = joined(alloc, Seq::from(changes), &mapped(alloc, &[], 0)?)?.ok_or("not joined")?;
    assert_eq!(rt; store.captures.len(), 3);
    assert!(rt; captured(&store, 0, 1) && captured(&store, 1, 2) && captured(&store, 2, 3));
    for (place, mark) in store.base.marks.as_slice().iter().enumerate() {
        assert!(rt; u64::from(mark.number) == place as u64 + 1 && mark.start == place as u64);
    }
    Ok(())
}

// A declaration, commits of four pages, and where it is told another declaration and a drop of the first snapshot.
fn four_commits(alloc: Global, drops: bool) -> Result<Seq<Change>, Fail> {
    let mut changes = vec![in alloc; declares(alloc)]?;
    for page in [7, 8, 8, 9] {
        changes.push(sets(alloc, page, 1)?)?;
    }
    if drops {
        changes.push(declares(alloc))?;
        changes.push(Change::Drop { below: 2 })?;
    }
    Ok(Seq::from(changes))
}

#[test]
fn the_maplog_belongs_to_the_log(rt: HostRuntime) -> Result<(), Fail> {
    let alloc = rt.alloc();
    let table: [(&[u32], u64, bool, bool); 8] = [
        (&[7], 0, false, true),
        (&[7, 8], 0, false, true),
        (&[7, 8, 9], 0, false, true),
        (&[8], 0, false, false),
        (&[7, 9], 0, false, false),
        (&[7, 8, 9, 10], 0, false, false),
        // A retained snapshot needs the mappings from its start on.
        (&[7, 8], 1, false, false),
        (&[7, 8], 1, true, true),
    ];
    for (pages, low, drops, want) in table {
        let mappings = mapped(alloc, pages, low)?;
        assert_eq!(rt;
            joined(alloc, four_commits(alloc, drops)?, &mappings)?.is_some(),
            want
        );
    }
    Ok(())
}
