//! Index pages and their bytes.

ghost use Rattle.std.specs.Prelude.{◌≡◌, ◌≤◌, ◌<◌, ◌^◌, ◌++◌, ◌∷◌, [], IfErr, IfOk, OnOk, drop, length, take};
ghost use Rattle.std.specs.List.{AllByRecursion};
ghost use Rattle.retro_base.specs.declared.refusal.Refusal.TheVariants.{OutOfMemory};
ghost use Rattle.pager.specs.Index.{IsFound, IsIndexed};
ghost use Rattle.row_codec.specs.RowCode.{value_code};
ghost use Rattle.index_page.specs.IndexPage.{IsPageForm, IsHeldIndex, AreWritable, entry_bytes, entry_code};
ghost use Rattle.index_page.specs.IndexPage.{form_byte, half, more_for_half, page_bytes, width};

use crate::entries::copy_of;
use crate::reading::first_entries;
use pager::Found;
use retro_base::{PAGE_BYTES, Page, Refusal, get_u16, get_u32};
use row_codec::encode;
use std::alloc::{AllocError, Global};
use values::{Duplicate, Row, Seq, Value};

/// Where the entries of a page begin.
const HEADER_BYTES: usize = 8;
/// The bytes of a page that its entries can take.
pub const ENTRY_BYTES: usize = PAGE_BYTES - HEADER_BYTES;

/// The form of an index page: one of a chain, or an inner page or a leaf of a tree.
#[derive(Clone, Copy, Debug, PartialEq, Eq)]
pub enum Form {
    Run,
    Inner,
    Leaf,
}

impl Form {
    // The form that a first byte tells.
    fn of(byte: u8) -> Option<Form>
        ensures { IsPageForm byte result }
    {
        match byte {
            4 => Some(Form::Run),
            5 => Some(Form::Inner),
            6 => Some(Form::Leaf),
            _ => None,
        }
    }

    // The first byte of its pages.
    fn byte(self) -> u8
        ensures { result ≡ form_byte self }
    {
        match self {
            Form::Run => 4,
            Form::Inner => 5,
            Form::Leaf => 6,
        }
    }
}

/// What an index page holds: the page that it names, or 0, and its entries.
#[derive(Debug, Drop)]
pub struct IndexPage {
    pub form: Form,
    pub link: u32,
    pub entries: Seq<Found>,
}

/// What the page holds. None where it is no index page.
pub fn held(alloc: Global, page: &Page) -> Result<Option<IndexPage>, Refusal>
    ensures held { IfOk result (IsHeldIndex page.now) }
    ensures memory { IfErr result (λ why. why ≡ OutOfMemory) }
{
    let bytes = page.bytes();
    let Some(form) = Form::of(bytes[0]) else {
        return Ok(None);
    };
    let count = usize::from(get_u16(bytes, 2));
    let Some(entries) = first_entries(alloc, &bytes[HEADER_BYTES..], count)? else {
        return Ok(None);
    };
    let link = get_u32(bytes, 4);
    Ok(Some(IndexPage {
        form,
        link,
        entries,
    }))
}

/// The page that holds this.
pub fn page_of(alloc: Global, held: &IndexPage) -> Result<Page, Refusal>
    requires { AreWritable held.now.entries }
    ensures page { IfOk result (λ page. page ≡ page_bytes held.now) }
    ensures memory { IfErr result (λ why. why ≡ OutOfMemory) }
{
    let entries = entry_bytes(alloc, held.entries.as_slice())?;
    let mut page = Page::zero();
    page.put_bytes(0, &[held.form.byte()]);
    page.put_u16(2, held.entries.len() as u16);
    page.put_u32(4, held.link);
    page.put_bytes(HEADER_BYTES, &entries);
    Ok(page)
}

// The bytes that entries take.
fn entry_bytes(alloc: Global, entries: &[Found]) -> Result<Vec<u8>, Refusal>
    requires { AllByRecursion IsFound entries.now }
    ensures bytes { IfOk result (λ bytes. bytes.items ≡ entry_bytes entries.now) }
    ensures memory { IfErr result (λ why. why ≡ OutOfMemory) }
{
    let mut bytes = Vec::with_capacity(alloc, PAGE_BYTES)?;
    for entry in entries {
        push_entry(alloc, entry, &mut bytes)?;
    }
    Ok(bytes)
}

// Appends an entry's bytes.
fn push_entry(alloc: Global, entry: &Found, bytes: &mut Vec<u8>) -> Result<(), Refusal>
    requires { IsFound entry.now }
    ensures pushed { OnOk result (bytes.new.items ≡ bytes.old.items ++ entry_code entry.now) }
    ensures memory { IfErr result (λ why. why ≡ OutOfMemory) }
{
    let row = one_value(alloc, &entry.value)?;
    let code = encode(alloc, entry.number, &row)?;
    bytes.extend_from_slice(&(code.len() as u16).to_be_bytes())?;
    bytes.extend_from_slice(&entry.page.to_be_bytes())?;
    bytes.extend_from_slice(&code)?;
    Ok(())
}

// The row of one value.
fn one_value(alloc: Global, value: &Value) -> Result<Row, AllocError>
    ensures { IfOk result (λ row. row ≡ value.now ∷ []) }
{
    let mut row = Seq::new(alloc);
    row.push(value.copy(alloc)?)?;
    Ok(row)
}

/// How many bytes entries take.
pub fn width(entries: &[Found]) -> usize
    requires { length entries.now < 2 ^ 16 }
    ensures width { result ≡ width entries.now }
    ensures lawful { AllByRecursion IsFound entries.now }
{
    let mut width = 0;
    for entry in entries {
        width += entry_width(&entry.value, entry.number, entry.page);
    }
    width
}

// How many bytes an entry of this value, row number and page takes.
fn entry_width(value: &Value, number: u64, page: u32) -> usize
    ensures width { result ≡ length (entry_code (record { value = value.now; number = number; page = page })) }
    ensures short { result ≤ 217 }
    ensures lawful { IsFound (record { value = value.now; number = number; page = page }) }
{
    2 + page.to_be_bytes().len() + number.to_be_bytes().len() + 1 + value_width(value)
}

// How many bytes a value takes.
#[tactic(auto, unfolding(retro_base::specs::Fields::field_bytes))]
fn value_width(value: &Value) -> usize
    ensures width { result ≡ length (value_code value.now) }
    ensures short { result ≤ 202 }
    ensures lawful { IsIndexed value.now }
{
    match value {
        Value::Int(number) => 1 + number.to_be_bytes().len(),
        Value::Text(text) => 2 + text.bytes().len(),
    }
}

// The least number of first entries that fill half of the bytes of all.
fn half(entries: &[Found]) -> usize
    requires { length entries.now < 2 ^ 16 }
    ensures half { result ≡ half entries.now }
    ensures some { result ≤ length entries.now }
{
    let total = width(entries);
    let mut filled = 0;
    let mut count = 0;
    for entry in entries {
        if total <= 2 * filled {
            return count;
        }
        filled += entry_width(&entry.value, entry.number, entry.page);
        count += 1;
    }
    count
}

/// The entries in two parts, of which the first fills half of the bytes of all.
pub fn halves(alloc: Global, entries: Seq<Found>) -> Result<(Seq<Found>, Seq<Found>), AllocError>
    requires { length entries < 2 ^ 16 }
    ensures { IfOk result
        (λ parts. (parts.0 ≡ take (half entries) entries) × (parts.1 ≡ drop (half entries) entries)) }
{
    let count = half(entries.as_slice());
    let mut back = Seq::new(alloc);
    for found in &entries.as_slice()[count..] {
        back.push(copy_of(alloc, found)?)?;
    }
    let mut front = entries;
    front.truncate(count);
    Ok((front, back))
}
