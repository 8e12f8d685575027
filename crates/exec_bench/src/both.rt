//! Statements over pages, and over plain tables.

ghost use Rattle.std.specs.Prelude.{IfOk};
ghost use Rattle.sql_text.specs.Line.{HasLimits};

use crate::texts::text_of;
use pager::{EditPager, MemPager, Pager, Stop};
use retro_base::{Page, Refusal};
use sql_text::{Parsed, parse};
use sql_tree::Select;
use std::alloc::{AllocError, Global};
use tables::{Reply, Tables};

/// The number of `current_snapshot()` in each `SELECT AS OF`.
const SNAPSHOT: Option<u32> = Some(7);

/// Tables on pages, and plain ones.
#[derive(Drop)]
pub struct Both {
    pub pages: MemPager,
    pub plain: Tables,
}

/// The reply of a line over pages, and over plain tables.
#[derive(Drop)]
pub struct Replies {
    pub pages: String,
    pub plain: String,
}

/// Pages of zeros, of whose calls the listed ones fail.
pub fn zero_pages(alloc: Global, count: u16) -> Result<MemPager, AllocError> {
    let pages = vec![in alloc; Page::zero(); usize::from(count)]?;
    Ok(MemPager::new(alloc, pages, Vec::new(alloc)))
}

/// A store of so many pages, and plain tables, both empty.
pub fn nothing(alloc: Global, count: u16) -> Result<Both, AllocError> {
    let pages = zero_pages(alloc, count)?;
    let plain = Tables::new(alloc);
    Ok(Both { pages, plain })
}

// The line with `~` spelled out as a hundred letters, `%` as eighty, `^` as a hundred of the greatest byte and `#` as
// thirty-one letters.
fn spelled(alloc: Global, line: &str) -> Result<Vec<u8>, AllocError> {
    let mut bytes = Vec::new(alloc);
    for byte in line.as_bytes() {
        let (letter, count) = match *byte {
            b'~' => (b'p', 100),
            b'%' => (b'p', 80),
            b'^' => (b'~', 100),
            b'#' => (b'x', 31),
            other => (other, 1),
        };
        for _ in 0..count {
            bytes.push(letter)?;
        }
    }
    Ok(bytes)
}

// What a line says.
fn parsed(alloc: Global, line: &str) -> Result<Parsed, Refusal>
    ensures { IfOk result HasLimits }
{
    let bytes = spelled(alloc, line)?;
    if bytes.len() > u32::MAX as usize {
        return Err(Refusal::BadWords);
    }
    parse(alloc, &bytes)
}

/// The reply of a line over pages.
#[inline(never)]
pub fn over_pages<P: EditPager>(
    alloc: Global,
    parsed: &Parsed,
    pager: &mut P,
) -> Result<Reply, Stop<P::Fault>>
    requires { HasLimits parsed.now }
{
    match parsed {
        Parsed::Plain(statement) => sql_exec::run(alloc, statement, pager, None),
        Parsed::AsOf(as_of) => ask(alloc, &as_of.query, pager),
        _ => Err(Stop::Refused(Refusal::BadWords)),
    }
}

fn ask<P: Pager>(alloc: Global, query: &Select, pager: &mut P) -> Result<Reply, Stop<P::Fault>> {
    Ok(Reply::Rows(sql_exec::ask(alloc, query, pager, SNAPSHOT)?))
}

/// The reply of a line over plain tables.
#[inline(never)]
pub fn over_plain(alloc: Global, parsed: &Parsed, plain: &mut Tables) -> Result<Reply, Refusal>
    requires { HasLimits parsed.now }
{
    match parsed {
        Parsed::Plain(statement) => tables::does(alloc, statement, None, plain),
        Parsed::AsOf(as_of) => Ok(Reply::Rows(tables::ask(alloc, &as_of.query, SNAPSHOT, plain)?)),
        _ => Err(Refusal::BadWords),
    }
}

/// The text of a line's reply over pages.
pub fn pages_text(alloc: Global, line: &str, pages: &mut MemPager) -> Result<String, Refusal> {
    let parsed = parsed(alloc, line)?;
    Ok(text_of(alloc, &over_pages(alloc, &parsed, pages))?)
}

/// The text of a line's reply over plain tables.
pub fn plain_text(alloc: Global, line: &str, plain: &mut Tables) -> Result<String, Refusal> {
    let parsed = parsed(alloc, line)?;
    let reply = over_plain(alloc, &parsed, plain).map_err(Stop::Refused);
    Ok(text_of(alloc, &reply)?)
}

/// The replies of a line over both.
pub fn reply_twice(alloc: Global, line: &str, both: &mut Both) -> Result<Replies, Refusal> {
    Ok(Replies {
        pages: pages_text(alloc, line, &mut both.pages)?,
        plain: plain_text(alloc, line, &mut both.plain)?,
    })
}
