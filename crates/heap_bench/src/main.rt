//! A heap table of a thousand rows and one of ten thousand, told by the pages that the calls read: an insert, or a
//! change of one row, never walks the chain.
#![tactic(auto)]

ghost use Rattle.std.specs.Prelude.{IfOk};
ghost use Rattle.heap_file.specs.HeapPage.{IsShort};

mod counting;
mod work;

use counting::Counting;
use pager::{MemPager, Stop};
use retro_base::{Failed, Page, Refusal};
use std::alloc::Global;
use std::process::ExitCode;
use values::{Row, Seq, Text, Value};
use work::{delete_half, insert, scanned, update_all, update_one};

const PAGES: usize = 1000;

// What a table of so many rows took: the most pages that one insert read, and the pages that each of the others read.
struct Cost {
    insert: u64,
    scan: u64,
    one: u64,
    all: u64,
    half: u64,
    left: usize,
}

// A row of 60 encoded bytes: with its length it takes 62 of the 1,004 bytes of a page, so sixteen stand in one.
fn sixty_bytes(alloc: Global) -> Result<Row, Refusal>
    ensures { IfOk result IsShort }
{
    let letters = vec![in alloc; b'x'; 49]?;
    let mut row = Seq::new(alloc);
    row.push(Value::Text(Text::new(Seq::from(letters))))?;
    if row_codec::encoded_length(&row) == 60 {
        Ok(row)
    } else {
        Err(Refusal::BadSizes)
    }
}

// The most pages that one of so many inserts reads.
fn insert_all(
    alloc: Global,
    pager: &mut Counting,
    first: u32,
    inserts: u64,
) -> Result<u64, Stop<Failed>> {
    let row = sixty_bytes(alloc)?;
    let mut most = 0;
    for _ in 0..inserts {
        let before = pager.reads();
        insert(alloc, pager, first, &row)?;
        most = most.max(pager.reads().saturating_sub(before));
    }
    Ok(most)
}

fn cost_of(alloc: Global, inserts: u64) -> Result<Cost, Stop<Failed>> {
    let pages = vec![in alloc; Page::zero(); PAGES].map_err(Refusal::from)?;
    let mut pager = Counting::new(MemPager::new(alloc, pages, Vec::new(alloc)));
    let first = heap_file::make(alloc, &mut pager)?;
    let insert = insert_all(alloc, &mut pager, first, inserts)?;
    let row = sixty_bytes(alloc)?;
    let start = pager.reads();
    let rows = scanned(alloc, &mut pager, first)?;
    let scan = pager.reads();
    update_one(alloc, &mut pager, first, &rows, &row)?;
    let one = pager.reads();
    update_all(alloc, &mut pager, first, &rows, &row)?;
    let all = pager.reads();
    delete_half(alloc, &mut pager, first, &rows)?;
    let half = pager.reads();
    let left = scanned(alloc, &mut pager, first)?.len();
    Ok(Cost {
        insert,
        scan: scan.saturating_sub(start),
        one: one.saturating_sub(scan),
        all: all.saturating_sub(one),
        half: half.saturating_sub(all),
        left,
    })
}

fn main(rt: HostRuntime) -> ExitCode {
    for inserts in [1000, 10_000] {
        let Ok(cost) = cost_of(rt.alloc(), inserts) else {
            return ExitCode::FAILURE;
        };
        let Cost {
            insert,
            scan,
            one,
            all,
            half,
            left,
        } = cost;
        let told = println!(rt;
            "{inserts} rows: at most {insert} pages read by an insert, {scan} by the scan, {one} by a change of one row, \
             {all} by one of all, {half} by a delete of half; {left} rows are left"
        );
        if told.is_err() {
            return ExitCode::FAILURE;
        }
    }
    ExitCode::SUCCESS
}
