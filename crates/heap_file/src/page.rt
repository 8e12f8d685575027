//! Heap pages and their bytes.

ghost use Rattle.std.specs.Prelude.{◌≡◌, ◌≤◌, ◌++◌, ◌∷◌, [], IfErr, IfOk, IfSome, OnOk, length};
ghost use Rattle.retro_base.specs.declared.refusal.Refusal.TheVariants.{OutOfMemory};
ghost use Rattle.heap_file.specs.HeapPage.{have_room, HaveRoom, IsEntry, IsHeapPage, IsHeld};
ghost use Rattle.heap_file.specs.HeapPage.{IsNarrow, IsShort, entry_bytes, entry_code, page_bytes};
ghost use Rattle.std.specs.List.{AllByRecursion};
ghost use Rattle.row_codec.specs.RowCode.{IsRow};

use crate::entries::first_entries;
use retro_base::{PAGE_BYTES, Page, Refusal, get_u16, get_u32, get_u64};
use row_codec::{encode, encoded_length};
use std::alloc::Global;
use values::{Row, Seq};

/// Where the entries of a page begin.
pub const HEADER_BYTES: usize = 20;
/// The bytes of a page that its entries can take.
pub const ENTRY_BYTES: usize = PAGE_BYTES - HEADER_BYTES;
/// Byte 0 of a heap page.
pub(crate) const HEAP_PAGE: u8 = 1;
/// Where a page tells how many entries it has, in two bytes.
pub(crate) const COUNT_AT: usize = 2;
/// Where it names the next page of the chain, in four bytes.
pub(crate) const NEXT_AT: usize = 4;
/// Where it tells the next row number, in eight bytes.
pub(crate) const NEXT_NUMBER_AT: usize = 8;
/// Where it names the last page of the chain, in four bytes.
pub(crate) const LAST_AT: usize = 16;
/// The bytes of an entry before its encoded row: the row's length.
pub(crate) const LENGTH_BYTES: usize = 2;

/// A row under its number.
#[derive(Debug, Drop)]
pub struct Entry {
    pub number: u64,
    pub row: Row,
}

/// What a heap page holds: the next page of the chain (0 is none), the next row number and the last page of the chain
/// (0 is this page), both of a table's first page alone, and the entries.
#[derive(Debug, Drop)]
pub struct HeapPage {
    pub next: u32,
    pub next_number: u64,
    pub last: u32,
    pub entries: Seq<Entry>,
}

/// What the page holds. None where it is no heap page.
pub fn held(alloc: Global, page: &Page) -> Result<Option<HeapPage>, Refusal>
    ensures held { IfOk result (IsHeld page.now) }
    ensures lawful { IfOk result (λ found. IfSome found IsHeapPage) }
    ensures narrow { IfOk result (λ found. IfSome found IsNarrow) }
    ensures memory { IfErr result (λ why. why ≡ OutOfMemory) }
{
    let bytes = page.bytes();
    if bytes[0] > HEAP_PAGE {
        return Ok(None);
    }
    let count = usize::from(get_u16(bytes, COUNT_AT));
    let Some(entries) = first_entries(alloc, &bytes[HEADER_BYTES..], count)? else {
        return Ok(None);
    };
    Ok(Some(HeapPage {
        next: get_u32(bytes, NEXT_AT),
        next_number: get_u64(bytes, NEXT_NUMBER_AT),
        last: get_u32(bytes, LAST_AT),
        entries,
    }))
}

/// The page that holds this.
pub fn page_of(alloc: Global, held: &HeapPage) -> Result<Page, Refusal>
    requires { IsHeapPage held.now }
    ensures page { IfOk result (λ page. page ≡ page_bytes held.now) }
    ensures memory { IfErr result (λ why. why ≡ OutOfMemory) }
{
    let entries = entry_bytes(alloc, held.entries.as_slice())?;
    let mut page = Page::zero();
    page.put_bytes(0, &[HEAP_PAGE]);
    page.put_u16(COUNT_AT, held.entries.len() as u16);
    page.put_u32(NEXT_AT, held.next);
    page.put_u64(NEXT_NUMBER_AT, held.next_number);
    page.put_u32(LAST_AT, held.last);
    page.put_bytes(HEADER_BYTES, &entries);
    Ok(page)
}

/// Whether one more entry fits in a page with these.
pub fn has_room(entries: &[Entry], entry: &Entry) -> bool
    requires entries { AllByRecursion IsEntry entries.now }
    requires fits { HaveRoom entries.now }
    requires short { IsShort entry.now.row }
    ensures room { result ≡ have_room (entries.now ++ entry.now ∷ []) }
    ensures row { IsRow entry.now.row }
{
    entries_length(entries) + entry_length(entry) <= ENTRY_BYTES
}

/// How many bytes entries take.
pub(crate) fn entries_length(entries: &[Entry]) -> usize
    requires entries { AllByRecursion IsEntry entries.now }
    requires fits { HaveRoom entries.now }
    ensures { length (entry_bytes entries.now) ≡ result }
{
    let mut length = 0;
    for entry in entries {
        length += entry_length(entry);
    }
    length
}

/// How many bytes an entry takes.
pub(crate) fn entry_length(entry: &Entry) -> usize
    requires { IsShort entry.now.row }
    ensures length { length (entry_code entry.now) ≡ result }
    ensures short { result ≤ 902 }
    ensures row { IsRow entry.now.row }
{
    LENGTH_BYTES + encoded_length(&entry.row)
}

// The bytes that entries take.
fn entry_bytes(alloc: Global, entries: &[Entry]) -> Result<Vec<u8>, Refusal>
    requires { AllByRecursion IsEntry entries.now }
    ensures bytes { IfOk result (λ bytes. bytes.items ≡ entry_bytes entries.now) }
    ensures memory { IfErr result (λ why. why ≡ OutOfMemory) }
{
    let mut bytes = Vec::with_capacity(alloc, PAGE_BYTES)?;
    for entry in entries {
        push_entry(alloc, entry, &mut bytes)?;
    }
    Ok(bytes)
}

// Appends an entry's bytes.
fn push_entry(alloc: Global, entry: &Entry, bytes: &mut Vec<u8>) -> Result<(), Refusal>
    requires { IsShort entry.now.row }
    ensures pushed { OnOk result (bytes.new.items ≡ bytes.old.items ++ entry_code entry.now) }
    ensures lawful { OnOk result (IsEntry entry.now) }
    ensures memory { IfErr result (λ why. why ≡ OutOfMemory) }
{
    let code = encode(alloc, entry.number, &entry.row)?;
    bytes.extend_from_slice(&(code.len() as u16).to_be_bytes())?;
    bytes.extend_from_slice(&code)?;
    Ok(())
}
