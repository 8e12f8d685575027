//! The bytes of the log's records.

ghost use Rattle.std.specs.Prelude.{◌≡◌, ◌<◌, ◌+◌, ◌*◌, ◌^◌, ◌++◌, length, OnOk, IfOk, IfErr};
ghost use Rattle.std.specs.List.{AllByRecursion, flat_map};
ghost use Rattle.retro_base.specs.Fields.{field_bytes};
ghost use Rattle.retro_base.specs.declared.refusal.Refusal.TheVariants.{OutOfMemory};
ghost use Rattle.records.specs.Entries.{page_width, label_bytes, mark_bytes, write_bytes, declaration_bytes};
ghost use Rattle.records.specs.Entries.{sizes_bytes, counts_bytes, base_bytes, change_bytes};
ghost use Rattle.records.specs.Entries.{entry_bytes, BaseFits, WriteFits, ChangeFits, EntryFits};
ghost use Rattle.records.specs.Laws.{IsRightBase};
ghost use Rattle.history.specs.Right.{IsBase};
ghost use Rattle.history.specs.declared.entry.Change.TheVariants.{Commit};

use crate::entry::Entry;
use gate_log::{Framed, FramedBuilder};
use history::{Base, Change, Label, Mark, PageImage, Version, Writes, newest, oldest};
use retro_base::{LABEL_BYTES, PAGE_BYTES, Refusal};
use std::alloc::Global;

// The bytes of a base before its snapshots.
pub(crate) const BASE_HEAD_BYTES: usize = 39;

// The most bytes of a commit before its page images, of a snapshot, and of a page image with its page.
const COMMIT_HEAD_BYTES: usize = 5 + LABEL_BYTES;

const MARK_BYTES: usize = 9 + LABEL_BYTES;

const WRITE_BYTES: usize = 4 + PAGE_BYTES;

fn put_page(version: Version, page: u32, out: &mut FramedBuilder) -> Result<(), Refusal>
    requires { page < 256 ^ page_width version }
    ensures bytes { OnOk result (out.new ≡ out.old ++ field_bytes (page_width version) page) }
    ensures count { OnOk result (length out.new ≡ length out.old + page_width version) }
    ensures memory { IfErr result (λ why. why ≡ OutOfMemory) }
{
    match version {
        Version::One => out.put_u16(page as u16),
        Version::Two => out.put_u32(page),
    }
}

fn put_label(label: &Label, out: &mut FramedBuilder) -> Result<(), Refusal>
    ensures bytes { OnOk result (out.new ≡ out.old ++ label_bytes label.now) }
    ensures memory { IfErr result (λ why. why ≡ OutOfMemory) }
{
    let bytes = label.bytes();
    out.push(bytes.len() as u8)?;
    out.extend_from_slice(bytes)
}

fn put_mark(mark: &Mark, out: &mut FramedBuilder) -> Result<(), Refusal>
    ensures bytes { OnOk result (out.new ≡ out.old ++ mark_bytes mark.now) }
    ensures memory { IfErr result (λ why. why ≡ OutOfMemory) }
{
    out.put_u64(mark.start)?;
    put_label(&mark.label, out)
}

fn put_write(version: Version, write: &PageImage, out: &mut FramedBuilder) -> Result<(), Refusal>
    requires { WriteFits version write.now }
    ensures bytes { OnOk result (out.new ≡ out.old ++ write_bytes version write.now) }
    ensures memory { IfErr result (λ why. why ≡ OutOfMemory) }
{
    put_page(version, write.page, out)?;
    out.extend_from_slice(write.bytes.bytes())
}

fn put_marks(marks: &[Mark], out: &mut FramedBuilder) -> Result<(), Refusal>
    ensures bytes { OnOk result (out.new ≡ out.old ++ flat_map mark_bytes marks.now) }
    ensures memory { IfErr result (λ why. why ≡ OutOfMemory) }
{
    for mark in marks {
        put_mark(mark, out)?;
    }
    Ok(())
}

pub(crate) fn put_pages(
    version: Version,
    pages: &[u32],
    out: &mut FramedBuilder,
) -> Result<(), Refusal>
    requires { AllByRecursion (λ page. page < 256 ^ page_width version) pages.now }
    ensures bytes { OnOk result (out.new ≡ out.old ++ flat_map (field_bytes (page_width version)) pages.now) }
    ensures count { OnOk result (length out.new ≡ length out.old + page_width version * length pages.now) }
    ensures memory { IfErr result (λ why. why ≡ OutOfMemory) }
{
    for page in pages {
        put_page(version, *page, out)?;
    }
    Ok(())
}

fn put_writes(
    version: Version,
    writes: &[PageImage],
    out: &mut FramedBuilder,
) -> Result<(), Refusal>
    requires { AllByRecursion (WriteFits version) writes.now }
    ensures bytes { OnOk result (out.new ≡ out.old ++ flat_map (write_bytes version) writes.now) }
    ensures memory { IfErr result (λ why. why ≡ OutOfMemory) }
{
    for write in writes {
        put_write(version, write, out)?;
    }
    Ok(())
}

// A base up to its sizes.
fn put_sizes(version: Version, base: &Base, out: &mut FramedBuilder) -> Result<(), Refusal>
    ensures bytes { OnOk result (out.new ≡ out.old ++ sizes_bytes version base.now) }
    ensures memory { IfErr result (λ why. why ≡ OutOfMemory) }
{
    out.push(1)?;
    out.put_u16(version.number())?;
    out.put_u32(base.page_count)?;
    out.put_u32(base.capacity)
}

// The counts of a base.
fn put_counts(base: &Base, out: &mut FramedBuilder) -> Result<(), Refusal>
    requires { length base.now.captured < 2 ^ 32 }
    ensures bytes { OnOk result (out.new ≡ out.old ++ counts_bytes base.now) }
    ensures memory { IfErr result (λ why. why ≡ OutOfMemory) }
{
    let marks = base.marks.as_slice();
    out.put_u64(base.changes)?;
    out.put_u64(base.captures)?;
    out.put_u32(oldest(marks))?;
    out.put_u32(newest(marks))?;
    out.put_u32(base.captured.len() as u32)
}

fn put_declaration(label: &Option<Label>, out: &mut FramedBuilder) -> Result<(), Refusal>
    ensures bytes { OnOk result (out.new ≡ out.old ++ declaration_bytes label.now) }
    ensures memory { IfErr result (λ why. why ≡ OutOfMemory) }
{
    match label {
        None => out.push(0)?,
        Some(label) => {
            out.push(1)?;
            put_label(label, out)?;
        }
    }
    Ok(())
}

/// The bytes of a right base whose fields fit theirs, framed for an append. They are at most 5,046,311. The only
/// refusal is want of memory.
pub fn encode_base(alloc: Global, version: Version, base: &Base) -> Result<Framed, Refusal>
    requires fits { BaseFits version base.now }
    requires right { IsBase base.now }
    ensures bytes { IfOk result (λ framed. framed ≡ base_bytes version base.now) }
    ensures memory { IfErr result (λ why. why ≡ OutOfMemory) }
{
    let marks = base.marks.as_slice();
    let captured = base.captured.as_slice();
    let room = BASE_HEAD_BYTES + MARK_BYTES * marks.len() + 4 * captured.len();
    let mut out = FramedBuilder::with_capacity(alloc, room)?;
    put_sizes(version, base, &mut out)?;
    put_counts(base, &mut out)?;
    put_marks(marks, &mut out)?;
    put_pages(version, captured, &mut out)?;
    out.finish()
}

fn encode_commit(
    alloc: Global,
    version: Version,
    label: &Option<Label>,
    writes: &Writes,
) -> Result<Framed, Refusal>
    requires { ChangeFits version (Commit label.now writes.now) }
    ensures bytes { IfOk result (λ framed. framed ≡ change_bytes version (Commit label.now writes.now)) }
    ensures memory { IfErr result (λ why. why ≡ OutOfMemory) }
{
    let images = writes.images();
    let mut out = FramedBuilder::with_capacity(
        alloc,
        COMMIT_HEAD_BYTES + WRITE_BYTES * images.len(),
    )?;
    out.push(2)?;
    put_declaration(label, &mut out)?;
    out.put_u16(images.len() as u16)?;
    put_writes(version, images, &mut out)?;
    out.finish()
}

/// The bytes of an entry whose fields fit theirs, and which is right where it is a base, framed for an append. The
/// only refusal is want of memory.
pub fn encode(alloc: Global, version: Version, entry: &Entry) -> Result<Framed, Refusal>
    requires fits { EntryFits version entry.now }
    requires right { IsRightBase entry.now }
    ensures bytes { IfOk result (λ framed. framed ≡ entry_bytes version entry.now) }
    ensures memory { IfErr result (λ why. why ≡ OutOfMemory) }
{
    match entry {
        Entry::Base(base) => encode_base(alloc, version, base),
        Entry::Change(Change::Commit { label, writes }) => {
            encode_commit(alloc, version, label, writes)
        }
        Entry::Change(Change::Drop { below }) => {
            let mut out = FramedBuilder::with_capacity(alloc, 5)?;
            out.push(3)?;
            out.put_u32(*below)?;
            out.finish()
        }
    }
}
