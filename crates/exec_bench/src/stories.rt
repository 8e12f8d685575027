//! What the statements tell, as text.

use crate::both::{Both, Replies, nothing, pages_text, plain_text, reply_twice, zero_pages};
use crate::lines::{
    BIG, COMPARED, INDEXES, KEY, KEYED, KINDS, LARGE, LAST_NUMBERS, LOOK_UPS, MANY, PAIRS, TEXTS,
    TWO_PAGES, WALKS, WIDE,
};
use pager::{MemPager, Pager};
use retro_base::{Page, Refusal};
use std::alloc::{AllocError, Global};
use tables::Tables;

/// How many rows a large table has.
const ROWS: u32 = 10_000;
/// How many of them one statement inserts.
const TUPLES: u32 = 250;

/// Where a table's first page has its next row number.
const NEXT_NUMBER_PLACE: usize = 8;

// The tables of so many rows.
#[derive(Clone, Copy)]
enum Table {
    Big,
    Pairs,
}

// Runs a line that is not refused.
fn done(alloc: Global, line: &str, pager: &mut MemPager) -> Result<(), Refusal> {
    let reply = pages_text(alloc, line, pager)?;
    if reply.as_str().starts_with("refused") || reply.as_str() == "fault" {
        return Err(Refusal::BadWords);
    }
    Ok(())
}

/// Each line with its reply over a store of sixteen pages; of a refused one also how many pages it edited.
pub fn replies_of(alloc: Global, lines: &[&str], out: &mut String) -> Result<(), Refusal> {
    replies_over(alloc, zero_pages(alloc, 16)?, lines, out)
}

// The same over these pages.
fn replies_over(
    alloc: Global,
    mut pager: MemPager,
    lines: &[&str],
    out: &mut String,
) -> Result<(), Refusal> {
    for line in lines {
        let before = pager.edits().len();
        let mut reply = pages_text(alloc, line, &mut pager)?;
        if reply.as_str().starts_with("refused") {
            let edits = pager.edits().len().saturating_sub(before);
            reply.push_str(format!(in alloc; ", {edits} edits")?.as_str())?;
        }
        tell(out, line, reply.as_str())?;
    }
    Ok(())
}

/// The lines over a table whose next row number is the last but two.
pub fn last_numbers(alloc: Global, out: &mut String) -> Result<(), Refusal> {
    let mut pager = zero_pages(alloc, 16)?;
    done(alloc, "CREATE TABLE t(k INT)", &mut pager)?;
    let mut pages = pager.pages().to_vec(alloc)?;
    if let Some(first_of_t) = pages.get_mut(2) {
        first_of_t.put_u64(NEXT_NUMBER_PLACE, u64::MAX - 2);
    }
    replies_over(alloc, failing_at(alloc, &pages, 0)?, &LAST_NUMBERS, out)
}

/// How many of the statements of all kinds there are, were refused, and were answered otherwise by plain tables.
pub fn many(alloc: Global, out: &mut String) -> Result<(), Refusal> {
    let mut both = nothing(alloc, 128)?;
    let (mut refused, mut different) = (0_u32, 0_u32);
    for line in MANY {
        let replies = reply_twice(alloc, line, &mut both)?;
        if replies.pages.as_str().starts_with("refused") {
            refused = refused.saturating_add(1);
        }
        if replies.pages.as_str() != replies.plain.as_str() {
            different = different.saturating_add(1);
            tell(out, line, replies.pages.as_str())?;
        }
    }
    let count = MANY.len();
    let text = format!(in alloc; "statements {count}, refused {refused}, different {different}\n")?;
    out.push_str(text.as_str())?;
    Ok(())
}

fn tell(out: &mut String, line: &str, reply: &str) -> Result<(), AllocError> {
    out.push_str(line)?;
    out.push_str(": ")?;
    out.push_str(reply)?;
    out.push_str("\n")
}

// Each line with its reply, where plain tables reply the same.
fn agreed(alloc: Global, lines: &[&str], both: &mut Both, out: &mut String) -> Result<(), Refusal> {
    for line in lines {
        let replies = reply_twice(alloc, line, both)?;
        tell_alike(out, line, &replies)?;
    }
    Ok(())
}

fn tell_alike(out: &mut String, line: &str, replies: &Replies) -> Result<(), AllocError> {
    if replies.pages.as_str() == replies.plain.as_str() {
        tell(out, line, replies.pages.as_str())
    } else {
        tell(out, line, "different")
    }
}

/// The wide table.
pub fn wide(alloc: Global, out: &mut String) -> Result<(), Refusal> {
    let mut both = nothing(alloc, 16)?;
    agreed(alloc, &WIDE, &mut both, out)
}

/// The index over texts.
pub fn texts_indexed(alloc: Global, out: &mut String) -> Result<(), Refusal> {
    let mut both = nothing(alloc, 64)?;
    agreed(alloc, &TEXTS, &mut both, out)
}

// The tuple of that number: of the large table a row of sixty bytes, of the other a pair of which a hundred differ in
// the first.
fn tuple(alloc: Global, table: Table, number: u32) -> Result<String, AllocError> {
    match table {
        Table::Big => {
            let parity = number % 2;
            format!(in alloc; "({number},{parity},'a text that has thirty-one bytes')")
        }
        Table::Pairs => {
            let group = number % 100;
            format!(in alloc; "({group},{number})")
        }
    }
}

// The statement that inserts the tuples of these numbers.
fn insert_line(alloc: Global, table: Table, first: u32) -> Result<String, AllocError> {
    let head = match table {
        Table::Big => "INSERT INTO big VALUES ",
        Table::Pairs => "INSERT INTO pairs VALUES ",
    };
    let mut line = String::from_str(alloc, head)?;
    for place in 0..TUPLES {
        if place > 0 {
            line.push_str(",")?;
        }
        let tuple = tuple(alloc, table, first.saturating_add(place))?;
        line.push_str(tuple.as_str())?;
    }
    Ok(line)
}

// How many statements inserted the table's rows alike.
fn inserts(alloc: Global, table: Table, both: &mut Both) -> Result<u32, Refusal> {
    let mut inserted = 0_u32;
    for statement in 0..ROWS / TUPLES {
        let line = insert_line(alloc, table, statement.saturating_mul(TUPLES))?;
        let replies = reply_twice(alloc, line.as_str(), both)?;
        if replies.pages.as_str() == "ok 250" && replies.plain.as_str() == "ok 250" {
            inserted = inserted.saturating_add(1);
        }
    }
    Ok(inserted)
}

// A store of so many pages with the table, and how many statements inserted its rows alike.
fn filled(
    alloc: Global,
    count: u16,
    table: Table,
    lines: &[&str],
    out: &mut String,
) -> Result<Both, Refusal> {
    let mut both = nothing(alloc, count)?;
    agreed(alloc, lines, &mut both, out)?;
    let inserted = inserts(alloc, table, &mut both)?;
    let text = format!(in alloc; "inserts of 250 rows: {inserted}\n")?;
    out.push_str(text.as_str())?;
    Ok(both)
}

/// The statements whose costs are compared: first all over plain tables, so that none of those has to tidy memory that
/// one over pages gave back.
pub fn compared(alloc: Global, out: &mut String) -> Result<(), Refusal> {
    let mut both = filled(alloc, 500, Table::Pairs, &PAIRS, out)?;
    let plain = plain_replies(alloc, &mut both.plain)?;
    beside_plain(alloc, &mut both.pages, plain, out)
}

// The replies of those over plain tables.
fn plain_replies(alloc: Global, tables: &mut Tables) -> Result<Vec<String>, Refusal> {
    let mut replies = Vec::new(alloc);
    for line in COMPARED {
        replies.push(plain_text(alloc, line, tables)?)?;
    }
    Ok(replies)
}

// Each of them with its reply over pages, where that is the same.
fn beside_plain(
    alloc: Global,
    pager: &mut MemPager,
    replies: Vec<String>,
    out: &mut String,
) -> Result<(), Refusal> {
    for (line, plain) in COMPARED.iter().zip(replies) {
        let pages = pages_text(alloc, line, pager)?;
        tell_alike(out, line, &Replies { pages, plain })?;
    }
    Ok(())
}

// Selects over the large table, and whether they read few pages.
fn selects(
    alloc: Global,
    lines: &[&str],
    both: &mut Both,
    out: &mut String,
) -> Result<(), Refusal> {
    agreed(alloc, lines, both, out)?;
    reads(alloc, both.pages.pages(), lines, out)
}

/// The large table: how many statements inserted its rows alike, what its indexes find, and what then became of it.
pub fn large(alloc: Global, out: &mut String) -> Result<(), Refusal> {
    let mut both = filled(alloc, 4000, Table::Big, &BIG, out)?;
    agreed(alloc, &INDEXES, &mut both, out)?;
    selects(alloc, &LOOK_UPS, &mut both, out)?;
    selects(alloc, &WALKS, &mut both, out)?;
    agreed(alloc, &LARGE, &mut both, out)?;
    Ok(())
}

// Whether each select reads at most eight pages: whether there is a ninth read, whose fault comes out.
fn reads(alloc: Global, pages: &[Page], lines: &[&str], out: &mut String) -> Result<(), Refusal> {
    for line in lines {
        let more = fault_comes_out(alloc, pages, line, 9)?;
        let reply = if more {
            "more than 8 reads"
        } else {
            "8 reads or fewer"
        };
        tell(out, line, reply)?;
    }
    Ok(())
}

// The pages of a table of two pages, behind these lines.
fn two_pages(alloc: Global, lines: &[&str]) -> Result<Vec<Page>, Refusal> {
    let mut pager = zero_pages(alloc, 16)?;
    for line in TWO_PAGES {
        done(alloc, line, &mut pager)?;
    }
    for line in lines {
        done(alloc, line, &mut pager)?;
    }
    Ok(pager.pages().to_vec(alloc)?)
}

// A pager of these pages whose call of that number fails; call 0 never comes.
fn failing_at(alloc: Global, pages: &[Page], call: u64) -> Result<MemPager, Refusal> {
    if pages.len() > 4096 {
        return Err(Refusal::BadSizes);
    }
    let failing = vec![in alloc; call; 1]?;
    Ok(MemPager::new(alloc, pages.to_vec(alloc)?, failing))
}

// How many edits a statement makes on a pager that never fails.
fn edits_of(alloc: Global, pages: &[Page], line: &str) -> Result<usize, Refusal> {
    let mut pager = failing_at(alloc, pages, 0)?;
    done(alloc, line, &mut pager)?;
    Ok(pager.edits().len())
}

// Whether the call of that number comes, fails, and its fault is what the statement ends by; false where the statement
// succeeds.
fn fault_comes_out(alloc: Global, pages: &[Page], line: &str, call: u64) -> Result<bool, Refusal> {
    let mut pager = failing_at(alloc, pages, call)?;
    let reply = pages_text(alloc, line, &mut pager)?;
    let failed = reply.as_str() == "fault";
    if reply.as_str().starts_with("refused") || failed != (pager.faults() == 1) {
        return Err(Refusal::BadWords);
    }
    Ok(failed)
}

// How many calls a statement makes, where the fault of each comes out, and the statement then succeeds on a fresh
// pager.
fn calls_of(alloc: Global, pages: &[Page], line: &str) -> Result<usize, Refusal> {
    let mut calls = 0_usize;
    for call in 1..1000 {
        if !fault_comes_out(alloc, pages, line, call)? {
            return Ok(calls);
        }
        edits_of(alloc, pages, line)?;
        calls = calls.saturating_add(1);
    }
    Err(Refusal::BadSizes)
}

/// For each kind of statement: how many edits it makes, and whether the fault of each edit and of two reads or more
/// came out.
pub fn faults(alloc: Global, out: &mut String) -> Result<(), Refusal> {
    kinds(alloc, &two_pages(alloc, &[])?, &KINDS, out)?;
    kinds(alloc, &two_pages(alloc, &[KEY])?, &KEYED, out)
}

fn kinds(alloc: Global, pages: &[Page], lines: &[&str], out: &mut String) -> Result<(), Refusal> {
    for line in lines {
        let edits = edits_of(alloc, pages, line)?;
        let reads = calls_of(alloc, pages, line)?.saturating_sub(edits);
        let every = if reads < 2 { "too few" } else { "all" };
        let reply = format!(in alloc; "{edits} edits, {every} faults came out")?;
        tell(out, line, reply.as_str())?;
    }
    Ok(())
}
