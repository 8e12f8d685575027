//! The way along a chain.

ghost use Rattle.std.specs.Prelude.{◌≡◌, ◌<◌, IfOk, OnOk};
ghost use Rattle.values.specs.Value.{kind_of};
ghost use Rattle.pager.specs.Draft.{Reads};
ghost use Rattle.pager.specs.Stop.{OnlyReads};
ghost use Rattle.index_page.specs.Entries.{is_past, reaches};
ghost use Rattle.index_page.specs.IndexPage.{AreWritable};
ghost use Rattle.run_index.specs.Walk.{is_end, met_at, run_page};
ghost use Rattle.run_index.specs.Work.{ranged};

use index_page::{Form, IndexPage, is_past, load, place_of, select};
use pager::{Draft, Found, Pager, Stop, broken};
use std::alloc::Global;
use values::{Kind, Value};

/// A page met on the way along a chain, and what it holds.
#[derive(Debug, Drop)]
pub struct Met {
    pub page: u32,
    pub held: IndexPage,
}

// What the page of a chain holds.
fn load_run<P: Pager>(
    alloc: Global,
    pager: &mut P,
    draft: &Draft,
    page: u32,
    kind: Kind,
) -> Result<IndexPage, Stop<P::Fault>>
    requires { draft.now.size ≡ P.size pager.old }
    ensures read { Reads (λ held. held) (P.tells pager.new) draft.now.list
        (λ pages. run_page kind draft.now.size pages page) result }
    ensures only_reads { OnlyReads P.tells P.goes P.size P.faults pager.old pager.new result }
    ensures there { OnOk result (page < draft.now.size) }
    ensures writable { IfOk result (λ held. AreWritable held.entries) }
{
    let held = load(alloc, pager, draft, page, kind)?;
    if held.form != Form::Run {
        return Err(Stop::Refused(broken(page)));
    }
    Ok(held)
}

// Whether the way to the place of an entry ends at a page that holds this.
fn ends_at(held: &IndexPage, entry: &Found) -> bool
    ensures { result ≡ is_end (reaches entry.now) held.now }
{
    let entries = held.entries.as_slice();
    held.link == 0 || place_of(entries, entry) < entries.len()
}

// Whether the way along the entries up to a value ends at a page that holds this.
fn ends_past(held: &IndexPage, high: &Value) -> bool
    ensures { result ≡ is_end (is_past high.now) held.now }
{
    held.link == 0 || is_past(held.entries.as_slice(), high)
}

/// The page in which an entry belongs.
pub fn find<P: Pager>(
    alloc: Global,
    pager: &mut P,
    draft: &Draft,
    root: u32,
    entry: &Found,
) -> Result<Met, Stop<P::Fault>>
    requires { draft.now.size ≡ P.size pager.old }
    ensures met { Reads (λ met. met) (P.tells pager.new) draft.now.list
        (λ pages. met_at (reaches entry.now) (kind_of entry.now.value) draft.now.size pages root) result }
    ensures only_reads { OnlyReads P.tells P.goes P.size P.faults pager.old pager.new result }
    ensures there { IfOk result (λ met. met.page < draft.now.size) }
    ensures writable { IfOk result (λ met. AreWritable met.held.entries) }
{
    let kind = entry.value.kind();
    let mut page = root;
    'pages: for _ in 0..draft.size() {
        let held = load_run(alloc, pager, draft, page, kind)?;
        if ends_at(&held, entry) {
            return Ok(Met { page, held });
        }
        page = held.link;
    }
    Err(Stop::Refused(broken(page)))
}

/// The entries whose value is at least `low` and at most `high`, in order.
pub fn range<P: Pager>(
    alloc: Global,
    pager: &mut P,
    draft: &Draft,
    root: u32,
    low: &Value,
    high: &Value,
) -> Result<Vec<Found>, Stop<P::Fault>>
    requires { draft.now.size ≡ P.size pager.old }
    ensures ranged { Reads (λ found. found.items) (P.tells pager.new) draft.now.list
        (ranged draft.now.size root low.now high.now) result }
    ensures only_reads { OnlyReads P.tells P.goes P.size P.faults pager.old pager.new result }
{
    let kind = low.kind();
    let mut found = Vec::new(alloc);
    let mut page = root;
    'pages: for _ in 0..draft.size() {
        let held = load_run(alloc, pager, draft, page, kind)?;
        let next = held.link;
        let ends = ends_past(&held, high);
        select(held.entries, low, high, &mut found)?;
        if ends {
            return Ok(found);
        }
        page = next;
    }
    Err(Stop::Refused(broken(page)))
}
