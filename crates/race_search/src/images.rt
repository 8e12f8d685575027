//! What the devices of a machine may hold, and whether that opens to what the machine has done.

use crate::desk::{Desk, Doubt};
use crate::vault::{Mappings, Vault};
use crate::world::{Change, WRITTEN, World, at, put};
use history::{Base, Version};
use records::{read_log, read_maplog};
use replay::{Opened, join};
use retro_base::{PAGE_BYTES, Page};
use std::alloc::{AllocError, Global};
use values::Seq;

// Puts numbers, each with its width in bytes.
fn put_numbers(out: &mut Vec<u8>, numbers: &[(usize, usize)]) -> Result<(), AllocError> {
    for (width, number) in numbers {
        let bytes = (*number as u64).to_be_bytes();
        out.extend_from_slice(&bytes[8 - (*width).min(8)..])?;
    }
    Ok(())
}

fn captured(alloc: Global, world: &World) -> Result<Vec<usize>, AllocError> {
    let written = WRITTEN.iter().copied();
    written
        .filter(|page| world.is_captured(*page))
        .collect(alloc)
}

fn base_body(alloc: Global, world: &World) -> Result<Vec<u8>, AllocError> {
    let captured = captured(alloc, world)?;
    let mut out = Vec::new(alloc);
    put_numbers(&mut out, &[(1, 1), (2, 1), (4, 16), (4, 64)])?;
    put_numbers(&mut out, &[(8, world.changes), (8, world.captures.len())])?;
    let (oldest, newest) = (world.oldest().number.max(1), world.newest().number);
    put_numbers(&mut out, &[(4, oldest), (4, newest), (4, captured.len())])?;
    for snapshot in &world.snapshots {
        put_numbers(&mut out, &[(8, snapshot.start), (1, 0)])?;
    }
    for page in &captured {
        put_numbers(&mut out, &[(2, *page)])?;
    }
    Ok(out)
}

// The body of the next change.
fn change_body(alloc: Global, world: &World, change: Change) -> Result<Vec<u8>, AllocError> {
    let mut out = Vec::new(alloc);
    if change == Change::Drop {
        put_numbers(&mut out, &[(1, 3), (4, world.newest().number)])?;
        return Ok(out);
    }
    put_numbers(&mut out, &[(1, 2), (1, usize::from(change.declares()))])?;
    if change.declares() {
        out.push(0)?;
    }
    put_numbers(&mut out, &[(2, change.pages().len())])?;
    for page in change.pages() {
        put_numbers(&mut out, &[(2, *page)])?;
        out.extend_from_slice(&[world.fill(); PAGE_BYTES])?;
    }
    Ok(out)
}

fn log_of(alloc: Global, past: &World, rest: &[Change]) -> Result<Vec<Vec<u8>>, AllocError> {
    let mut world = past.clone()?;
    let mut bodies = vec![in alloc; base_body(alloc, past)?]?;
    for change in rest {
        bodies.push(change_body(alloc, &world, *change)?)?;
        world = world.after(*change)?;
    }
    Ok(bodies)
}

/// The bodies of each log that an image may list, and the store that it opens to.
pub fn logs_of(alloc: Global, desk: &Desk) -> Result<Vec<(Vec<Vec<u8>>, World)>, AllocError> {
    let log = log_of(alloc, &desk.past, &desk.rest)?;
    let mut logs = vec![in alloc; (log, desk.history.clone()?)]?;
    match desk.doubt {
        Doubt::Sure => {}
        Doubt::OneMore(change) => {
            let mut rest = desk.rest.clone()?;
            rest.push(change)?;
            let log = log_of(alloc, &desk.past, &rest)?;
            logs.push((log, desk.history.after(change)?))?;
        }
        Doubt::NewBase => {
            let log = log_of(alloc, &desk.history, &[])?;
            logs.push((log, desk.history.clone()?))?;
        }
    }
    Ok(logs)
}

fn maplog_of(alloc: Global, mappings: &Mappings) -> Result<Vec<Vec<u8>>, AllocError> {
    let mut start = Vec::new(alloc);
    put_numbers(&mut start, &[(1, 1), (2, 1), (8, mappings.low), (4, 64)])?;
    let mut run = Vec::new(alloc);
    put_numbers(
        &mut run,
        &[(1, 2), (8, mappings.low), (4, mappings.pages.len())],
    )?;
    for page in &mappings.pages {
        put_numbers(&mut run, &[(2, *page)])?;
    }
    let mut bodies = vec![in alloc; start]?;
    if !mappings.pages.is_empty() {
        bodies.push(run)?;
    }
    Ok(bodies)
}

/// The Maplogs that an image may have, by their bodies.
pub fn maplogs_of(alloc: Global, vault: &Vault) -> Result<Vec<Vec<Vec<u8>>>, AllocError> {
    let mut maplogs = vec![in alloc; maplog_of(alloc, &vault.mappings)?]?;
    for other in &vault.others {
        maplogs.push(maplog_of(alloc, other)?)?;
    }
    Ok(maplogs)
}

/// The bytes that an image may have: where they are loose, as they read, as they were, or others.
pub fn fills_of<const N: usize>(
    alloc: Global,
    fills: [u8; N],
    loose: [bool; N],
    were: &[u8],
) -> Result<Vec<[u8; N]>, AllocError> {
    let mut images = vec![in alloc; fills]?;
    for (place, loose) in loose.iter().enumerate() {
        if *loose {
            for mut image in images.clone()? {
                put(&mut image, place, at(were, place));
                images.push(image)?;
                put(&mut image, place, 0xFF);
                images.push(image)?;
            }
        }
    }
    Ok(images)
}

/// Pages filled with these bytes.
pub fn filled(alloc: Global, fills: &[u8]) -> Result<Vec<Page>, AllocError> {
    let mut pages = Vec::with_capacity(alloc, fills.len())?;
    for fill in fills {
        pages.push(Page::of([*fill; PAGE_BYTES]))?;
    }
    Ok(pages)
}

fn is_base(alloc: Global, base: &Base, world: &World) -> Result<bool, AllocError> {
    let captured = captured(alloc, world)?;
    let mut marks = base.marks.as_slice().iter().zip(&world.snapshots);
    let mut pages = base.captured.as_slice().iter().zip(&captured);
    Ok(
        (base.page_count, base.capacity) == (16, 64)
            && base.changes == world.changes as u64
            && base.captures == world.captures.len() as u64
            && base.marks.len() == world.snapshots.len()
            && marks.all(|(mark, each)| {
                (mark.number as usize, mark.start) == (each.number, each.start as u64)
            })
            && base.captured.len() == captured.len()
            && pages.all(|(page, other)| *page as usize == *other),
    )
}

// Whether the captures that a retained snapshot may need are those.
fn holds_captures(store: &Opened, world: &World) -> bool {
    let low = store.low as usize;
    let needed = world.oldest().start;
    let captures = store.captures.as_slice();
    let images = captures.iter().skip(needed.saturating_sub(low));
    let mut pairs = images.zip(world.captures.iter().skip(needed));
    low <= needed
        && low.saturating_add(captures.len()) == world.captures.len()
        && pairs.all(|(image, other)| {
            image.page as usize == other.page && image.bytes == Page::of([other.fill; PAGE_BYTES])
        })
}

/// Whether an image of the devices opens to the store that its log tells of.
pub fn opens(
    alloc: Global,
    (log, world): &(Vec<Vec<u8>>, World),
    pages: &[u8],
    maplog: &[Vec<u8>],
    slots: &[Page],
) -> Result<bool, AllocError> {
    let pages = filled(alloc, pages)?;
    let Ok(list) = read_log(alloc, Version::One, log) else {
        return Ok(false);
    };
    let Ok(mappings) = read_maplog(alloc, Version::One, 16, 64, maplog) else {
        return Ok(false);
    };
    let sizes = (list.base.page_count, list.base.capacity);
    if sizes != (16, 64) || (pages.len(), slots.len()) != (16, 64) {
        return Ok(false);
    }
    let Some(store) = join(alloc, list, Seq::from(pages), &mappings, slots)? else {
        return Ok(false);
    };
    let want = filled(alloc, &world.pages)?;
    Ok(
        is_base(alloc, &store.base, world)?
            && store.pages.as_slice() == want.as_slice()
            && holds_captures(&store, world),
    )
}
