//! The log's records from their bytes.

ghost use Rattle.std.specs.Prelude.{◌≡◌, ◌≤◌, ◌+◌, ◌^◌, length, IfOk, Some};
ghost use Rattle.records.specs.declared.encoding.TheConstants.{BASE_HEAD_BYTES};
ghost use Rattle.records.specs.declared.entry.Entry.{Entry};
ghost use Rattle.records.specs.Entries.{page_width, entry_bytes, EntryFits};
ghost use Rattle.records.specs.Reading.{Decodes, take_number, take_label, take_declaration, take_mark, take_page};
ghost use Rattle.records.specs.Reading.{take_image, take_list, take_marks, base_from, take_base, take_commit};
ghost use Rattle.records.specs.Reading.{take_drop, take_entry, whole_entry, after_mark, after_page, after_image};

use crate::encoding::BASE_HEAD_BYTES;
use crate::entry::Entry;
use history::{Base, Change, Label, Mark, PageImage, Version, Writes, is_label};
use retro_base::{EDITED_PAGES, PAGE_BYTES, Page, get_u16, get_u32, get_u64};
use std::alloc::{AllocError, AllocFailed, Global};
use values::Seq;

/// Why bytes are not decoded.
#[derive(Clone, Copy, Debug, PartialEq, Eq)]
pub enum DecodeError {
    /// Memory ran out.
    OutOfMemory,
    /// They are the bytes of no entry.
    Malformed,
}

impl From<AllocError> for DecodeError {
    ghost use Rattle.std.specs.Prelude.{◌≡◌};
    ghost use Rattle.records.specs.declared.decoding.DecodeError.TheVariants.{OutOfMemory};

    ghost from_gives = { λ _ e. e ≡ OutOfMemory };

    fn from(_error: AllocError) -> DecodeError {
        DecodeError::OutOfMemory
    }
}

impl<T: Drop> From<AllocFailed<T>> for DecodeError {
    ghost use Rattle.std.specs.Prelude.{◌≡◌};
    ghost use Rattle.records.specs.declared.decoding.DecodeError.TheVariants.{OutOfMemory};

    ghost from_gives = { λ _ e. e ≡ OutOfMemory };

    fn from(_failed: AllocFailed<T>) -> DecodeError {
        DecodeError::OutOfMemory
    }
}

fn byte_of(bytes: &[u8]) -> Result<(u8, &[u8]), DecodeError>
    ensures { Decodes (λ x. (x.0, x.1.now)) result (take_number 1 bytes.now) }
{
    if bytes.is_empty() {
        return Err(DecodeError::Malformed);
    }
    Ok((bytes[0], &bytes[1..]))
}

pub(crate) fn u16_of(bytes: &[u8]) -> Result<(u16, &[u8]), DecodeError>
    ensures { Decodes (λ x. (x.0, x.1.now)) result (take_number 2 bytes.now) }
{
    if bytes.len() < 2 {
        return Err(DecodeError::Malformed);
    }
    Ok((get_u16(bytes, 0), &bytes[2..]))
}

pub(crate) fn u32_of(bytes: &[u8]) -> Result<(u32, &[u8]), DecodeError>
    ensures { Decodes (λ x. (x.0, x.1.now)) result (take_number 4 bytes.now) }
{
    if bytes.len() < 4 {
        return Err(DecodeError::Malformed);
    }
    Ok((get_u32(bytes, 0), &bytes[4..]))
}

pub(crate) fn u64_of(bytes: &[u8]) -> Result<(u64, &[u8]), DecodeError>
    ensures { Decodes (λ x. (x.0, x.1.now)) result (take_number 8 bytes.now) }
{
    if bytes.len() < 8 {
        return Err(DecodeError::Malformed);
    }
    Ok((get_u64(bytes, 0), &bytes[8..]))
}

#[tactic(auto, unfolding(crate::specs::Reading::take_label))]
fn label_of(alloc: Global, bytes: &[u8]) -> Result<(Label, &[u8]), DecodeError>
    ensures { Decodes (λ x. (x.0, x.1.now)) result (take_label bytes.now) }
{
    let (count, rest) = byte_of(bytes)?;
    let count = usize::from(count);
    if rest.len() < count {
        return Err(DecodeError::Malformed);
    }
    let (text, rest) = rest.split_at(count);
    if !is_label(text) {
        return Err(DecodeError::Malformed);
    }
    Ok((Label::new(Vec::from_slice(alloc, text)?), rest))
}

#[tactic(auto, unfolding(crate::specs::Reading::take_declaration))]
fn declaration_of(alloc: Global, bytes: &[u8]) -> Result<(Option<Label>, &[u8]), DecodeError>
    ensures { Decodes (λ x. (x.0, x.1.now)) result (take_declaration bytes.now) }
{
    match bytes {
        [] => Err(DecodeError::Malformed),
        [0, rest @ ..] => Ok((None, rest)),
        [1, rest @ ..] => {
            let (label, rest) = label_of(alloc, rest)?;
            Ok((Some(label), rest))
        }
        [_, ..] => Err(DecodeError::Malformed),
    }
}

#[tactic(auto, unfolding(crate::specs::Reading::take_mark))]
fn mark_of(alloc: Global, number: u32, bytes: &[u8]) -> Result<(Mark, &[u8]), DecodeError>
    ensures { Decodes (λ x. (x.0, x.1.now)) result (take_mark number bytes.now) }
{
    let (start, rest) = u64_of(bytes)?;
    let (label, rest) = label_of(alloc, rest)?;
    Ok((
        Mark {
            number,
            label,
            start,
        },
        rest,
    ))
}

pub(crate) fn page_number_of(version: Version, bytes: &[u8]) -> Result<(u32, &[u8]), DecodeError>
    ensures { Decodes (λ x. (x.0, x.1.now)) result (take_number (page_width version) bytes.now) }
{
    match version {
        Version::One => {
            let (page, rest) = u16_of(bytes)?;
            Ok((u32::from(page), rest))
        }
        Version::Two => u32_of(bytes),
    }
}

#[tactic(auto, unfolding(crate::specs::Reading::take_page))]
fn page_of(version: Version, least: u64, bytes: &[u8]) -> Result<(u32, &[u8]), DecodeError>
    ensures { Decodes (λ x. (x.0, x.1.now)) result (take_page version least bytes.now) }
{
    let (page, rest) = page_number_of(version, bytes)?;
    if u64::from(page) < least {
        return Err(DecodeError::Malformed);
    }
    Ok((page, rest))
}

// The page of these bytes.
fn page_from(bytes: &[u8]) -> Page
    requires { length bytes.now ≡ PAGE_BYTES }
    ensures { result ≡ bytes.now }
{
    let mut page = Page::zero();
    page.put_bytes(0, bytes);
    page
}

#[tactic(auto, unfolding(crate::specs::Reading::take_image))]
fn image_of(version: Version, least: u64, bytes: &[u8]) -> Result<(PageImage, &[u8]), DecodeError>
    ensures { Decodes (λ x. (x.0, x.1.now)) result (take_image version least bytes.now) }
{
    let (page, rest) = page_of(version, least, bytes)?;
    if rest.len() < PAGE_BYTES {
        return Err(DecodeError::Malformed);
    }
    let (image, rest) = rest.split_at(PAGE_BYTES);
    Ok((
        PageImage {
            page,
            bytes: page_from(image),
        },
        rest,
    ))
}

// The marks numbered from the oldest on.
fn marks_of(
    alloc: Global,
    count: u64,
    oldest: u32,
    bytes: &[u8],
) -> Result<(Seq<Mark>, &[u8]), DecodeError>
    requires { oldest + count ≤ 2 ^ 32 }
    ensures { Decodes (λ x. (x.0, x.1.now)) result (take_list take_mark after_mark count oldest bytes.now) }
{
    let mut marks = Vec::new(alloc);
    let mut rest = bytes;
    for i in 0..count {
        let number = u64::from(oldest) + i;
        let (mark, after) = mark_of(alloc, number as u32, rest)?;
        marks.push(mark)?;
        rest = after;
    }
    Ok((Seq::from(marks), rest))
}

#[tactic(auto, unfolding(crate::specs::Reading::take_marks))]
fn marks_between(
    alloc: Global,
    oldest: u32,
    newest: u32,
    bytes: &[u8],
) -> Result<(Seq<Mark>, &[u8]), DecodeError>
    ensures { Decodes (λ x. (x.0, x.1.now)) result (take_marks oldest newest bytes.now) }
{
    if newest < oldest {
        if oldest != 1 || newest != 0 {
            return Err(DecodeError::Malformed);
        }
        return Ok((Seq::new(alloc), bytes));
    }
    marks_of(
        alloc,
        u64::from(newest) + 1 - u64::from(oldest),
        oldest,
        bytes,
    )
}

fn pages_of(
    alloc: Global,
    version: Version,
    count: u32,
    bytes: &[u8],
) -> Result<(Seq<u32>, &[u8]), DecodeError>
    ensures { Decodes (λ x. (x.0, x.1.now)) result (take_list (take_page version) after_page count 0 bytes.now) }
{
    let mut pages = Vec::new(alloc);
    let mut least = 0;
    let mut rest = bytes;
    for _ in 0..count {
        let (page, after) = page_of(version, least, rest)?;
        pages.push(page)?;
        least = u64::from(page) + 1;
        rest = after;
    }
    Ok((Seq::from(pages), rest))
}

fn images_of(
    alloc: Global,
    version: Version,
    count: u16,
    bytes: &[u8],
) -> Result<(Vec<PageImage>, &[u8]), DecodeError>
    ensures { Decodes (λ x. (x.0.items, x.1.now)) result
        (take_list (take_image version) after_image count 0 bytes.now) }
{
    let mut images = Vec::new(alloc);
    let mut least = 0;
    let mut rest = bytes;
    for _ in 0..count {
        match image_of(version, least, rest) {
            Err(error) => return Err(error),
            Ok((image, after)) => {
                least = u64::from(image.page) + 1;
                images.push(image)?;
                rest = after;
            }
        }
    }
    Ok((images, rest))
}

// The places of a base's fields, behind which the snapshots and the captured pages stand.
const PAGE_COUNT: usize = 3;

const CAPACITY: usize = 7;

const CHANGES: usize = 11;

const CAPTURES: usize = 19;

const OLDEST: usize = 27;

const NEWEST: usize = 31;

const CAPTURED_COUNT: usize = 35;

// A base whose version is right.
#[tactic(auto, unfolding(crate::specs::Reading::base_from))]
fn base_behind_head(
    alloc: Global,
    version: Version,
    bytes: &[u8],
) -> Result<(Base, &[u8]), DecodeError>
    requires { BASE_HEAD_BYTES ≤ length bytes.now }
    ensures { Decodes (λ x. (x.0, x.1.now)) result (base_from version bytes.now) }
{
    let (_, rest) = bytes.split_at(BASE_HEAD_BYTES);
    let (marks, rest) = marks_between(alloc, get_u32(bytes, OLDEST), get_u32(bytes, NEWEST), rest)?;
    let (captured, rest) = pages_of(alloc, version, get_u32(bytes, CAPTURED_COUNT), rest)?;
    let base = Base {
        page_count: get_u32(bytes, PAGE_COUNT),
        capacity: get_u32(bytes, CAPACITY),
        changes: get_u64(bytes, CHANGES),
        captures: get_u64(bytes, CAPTURES),
        marks,
        captured,
    };
    Ok((base, rest))
}

#[tactic(auto, unfolding(crate::specs::Reading::take_base))]
fn base_of(alloc: Global, version: Version, bytes: &[u8]) -> Result<(Base, &[u8]), DecodeError>
    ensures { Decodes (λ x. (x.0, x.1.now)) result (take_base version bytes.now) }
{
    if bytes.len() < BASE_HEAD_BYTES || get_u16(bytes, 1) != version.number() {
        return Err(DecodeError::Malformed);
    }
    base_behind_head(alloc, version, bytes)
}

#[tactic(auto, unfolding(crate::specs::Reading::take_commit))]
fn commit_of(alloc: Global, version: Version, bytes: &[u8]) -> Result<(Change, &[u8]), DecodeError>
    ensures { Decodes (λ x. (x.0, x.1.now)) result (take_commit version bytes.now) }
{
    let (label, rest) = declaration_of(alloc, bytes)?;
    let (count, rest) = u16_of(rest)?;
    if u32::from(count) > EDITED_PAGES {
        return Err(DecodeError::Malformed);
    }
    let (images, rest) = images_of(alloc, version, count, rest)?;
    let writes = Writes::new(images);
    Ok((Change::Commit { label, writes }, rest))
}

#[tactic(auto, unfolding(crate::specs::Reading::take_drop))]
fn drop_of(bytes: &[u8]) -> Result<(Change, &[u8]), DecodeError>
    ensures { Decodes (λ x. (x.0, x.1.now)) result (take_drop bytes.now) }
{
    let (below, rest) = u32_of(bytes)?;
    Ok((Change::Drop { below }, rest))
}

#[tactic(auto, unfolding(crate::specs::Reading::take_entry))]
fn entry_of(alloc: Global, version: Version, bytes: &[u8]) -> Result<(Entry, &[u8]), DecodeError>
    ensures { Decodes (λ x. (x.0, x.1.now)) result (take_entry version bytes.now) }
{
    match bytes {
        [1, ..] => {
            let (base, rest) = base_of(alloc, version, bytes)?;
            Ok((Entry::Base(base), rest))
        }
        [2, rest @ ..] => {
            let (change, rest) = commit_of(alloc, version, rest)?;
            Ok((Entry::Change(change), rest))
        }
        [3, rest @ ..] => {
            let (change, rest) = drop_of(rest)?;
            Ok((Entry::Change(change), rest))
        }
        _ => Err(DecodeError::Malformed),
    }
}

#[tactic(auto, unfolding(crate::specs::Reading::whole_entry))]
fn whole(alloc: Global, version: Version, bytes: &[u8]) -> Result<Entry, DecodeError>
    ensures { Decodes (λ e. e) result (whole_entry version bytes.now) }
{
    let (entry, rest) = entry_of(alloc, version, bytes)?;
    if !rest.is_empty() {
        return Err(DecodeError::Malformed);
    }
    Ok(entry)
}

/// The entry that has these bytes, all of them. Malformed exactly where no entry whose fields fit theirs has them;
/// that the entry is right at its place is not looked at.
pub fn decode(alloc: Global, version: Version, bytes: &[u8]) -> Result<Entry, DecodeError>
    ensures found { IfOk result (λ entry. EntryFits version entry × (bytes.now ≡ entry_bytes version entry)) }
    ensures only { (entry : Entry) → EntryFits version entry → bytes.now ≡ entry_bytes version entry →
        Decodes (λ e. e) result (Some entry) }
{
    whole(alloc, version, bytes)
}
