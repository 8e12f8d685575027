//! What no clause says: the captures of short journals, worked by hand.

use history::{
    Base, Change, Label, PageImage, Replayed, RunningBase, Writes, is_base, newest, oldest,
};
use retro_base::{PAGE_BYTES, Page};
use std::alloc::{AllocError, Global};
use std::test::Fail;
use values::Seq;

// What the log says of a store of sixteen pages where nothing was declared.
fn made_base(alloc: Global) -> Base {
    Base {
        page_count: 16,
        capacity: 64,
        changes: 0,
        captures: 0,
        marks: Seq::new(alloc),
        captured: Seq::new(alloc),
    }
}

fn running(alloc: Global, base: Base) -> Result<RunningBase, Fail> {
    if !is_base(&base) {
        return Err(Fail::new("not right"));
    }
    Ok(RunningBase::new(alloc, base)?)
}

// Such a store, its pages zero.
fn made(alloc: Global) -> Result<Replayed, Fail> {
    let pages = vec![in alloc; Page::zero(); 16]?;
    Ok(Replayed {
        base: running(alloc, made_base(alloc))?,
        pages: Seq::from(pages),
        captures: Seq::new(alloc),
    })
}

// The commit that sets a page to this byte.
fn sets(alloc: Global, page: u32, byte: u8) -> Result<Change, AllocError> {
    let image = PageImage {
        page,
        bytes: Page::of([byte; PAGE_BYTES]),
    };
    Ok(Change::Commit {
        label: None,
        writes: Writes::new(vec![in alloc; image]?),
    })
}

// The commit that declares a snapshot and writes nothing.
fn declares(alloc: Global) -> Change {
    Change::Commit {
        label: Some(Label::new(Vec::new(alloc))),
        writes: Writes::new(Vec::new(alloc)),
    }
}

fn after(alloc: Global, store: Replayed, change: Change) -> Result<Replayed, Fail> {
    if store.pages.len() != store.base.page_count() as usize {
        return Err(Fail::new("other pages"));
    }
    match store.apply(alloc, &change)? {
        Some(store) => Ok(store),
        None => Err(Fail::new("not right")),
    }
}

// Makes a change that is right there.
fn change(alloc: Global, base: &mut RunningBase, change: &Change) -> Result<(), Fail> {
    if !base.is_right(change) {
        return Err(Fail::new("not right"));
    }
    Ok(base.apply(alloc, change)?)
}

// Whether the capture of that number is of page 7, with this byte.
fn captured(store: &Replayed, number: usize, byte: u8) -> bool {
    match store.captures.as_slice().get(number) {
        Some(image) => image.page == 7 && image.bytes == Page::of([byte; PAGE_BYTES]),
        None => false,
    }
}

// Whether the mark at that place has this number and this start.
fn marked(store: &Replayed, place: usize, number: u32, start: u64) -> bool {
    match store.base.marks().get(place) {
        Some(mark) => mark.number == number && mark.start == start,
        None => false,
    }
}

#[test]
fn five_commits_capture_once(rt: HostRuntime) -> Result<(), Fail> {
    let alloc = rt.alloc();
    let mut store = after(alloc, made(alloc)?, declares(alloc))?;
    for byte in 1..6 {
        store = after(alloc, store, sets(alloc, 7, byte)?)?;
    }
    assert_eq!(rt; store.captures.len(), 1);
    assert!(rt; captured(&store, 0, 0));
    Ok(())
}

#[test]
fn three_snapshots_capture_three_times(rt: HostRuntime) -> Result<(), Fail> {
    let alloc = rt.alloc();
    let mut store = after(alloc, made(alloc)?, sets(alloc, 7, 1)?)?;
    for byte in 2..5 {
        store = after(alloc, store, declares(alloc))?;
        store = after(alloc, store, sets(alloc, 7, byte)?)?;
    }
    assert_eq!(rt; store.captures.len(), 3);
    assert!(rt; captured(&store, 0, 1) && captured(&store, 1, 2) && captured(&store, 2, 3));
    assert!(rt; marked(&store, 0, 1, 0) && marked(&store, 1, 2, 1) && marked(&store, 2, 3, 2));
    Ok(())
}

#[test]
fn drops_keep_the_newest(rt: HostRuntime) -> Result<(), Fail> {
    let alloc = rt.alloc();
    let mut base = running(alloc, made_base(alloc))?;
    for _ in 0..3 {
        change(alloc, &mut base, &declares(alloc))?;
    }
    assert!(rt; !base.is_right(&Change::Drop { below: 1 }));
    assert!(rt; !base.is_right(&Change::Drop { below: 4 }));
    change(alloc, &mut base, &Change::Drop { below: 3 })?;
    assert!(rt; base.captures_page(7));
    assert_eq!(rt; (oldest(base.marks()), newest(base.marks())), (3, 3));
    Ok(())
}

#[test]
fn snapshots_roll_on(rt: HostRuntime) -> Result<(), Fail> {
    let alloc = rt.alloc();
    let mut base = running(alloc, made_base(alloc))?;
    for _ in 0..1000 {
        change(alloc, &mut base, &declares(alloc))?;
    }
    for below in 2..10_002 {
        change(alloc, &mut base, &Change::Drop { below })?;
        change(alloc, &mut base, &declares(alloc))?;
    }
    let numbers = (oldest(base.marks()), newest(base.marks()));
    assert_eq!(rt;
        (base.marks().len(), numbers, base.changes()),
        (1000, (10_001, 11_000), 21_000)
    );
    Ok(())
}

#[test]
fn each_page_is_captured_once(rt: HostRuntime) -> Result<(), Fail> {
    let alloc = rt.alloc();
    let mut plain = made_base(alloc);
    plain.page_count = 4096;
    plain.capacity = 4096;
    let mut base = running(alloc, plain)?;
    change(alloc, &mut base, &declares(alloc))?;
    for byte in 1..3 {
        for page in 0..4096 {
            change(alloc, &mut base, &sets(alloc, 4095 - page, byte)?)?;
        }
    }
    let again = running(alloc, base.to_base(alloc)?)?.to_base(alloc)?;
    let pages: Vec<u32> = (0..4096).collect(alloc)?;
    assert!(rt; again.captured.as_slice() == pages.as_slice());
    assert_eq!(rt;
        (again.captures, again.changes, again.marks.len()),
        (4096, 8193, 1)
    );
    Ok(())
}
