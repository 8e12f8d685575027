//! The way down a tree.

ghost use Rattle.std.specs.Prelude.{◌≡◌, ◌<◌, IfOk, MatchBool, OnOk};
ghost use Rattle.std.specs.List.{AllByRecursion};
ghost use Rattle.values.specs.Value.{kind_of};
ghost use Rattle.pager.specs.Draft.{Reads};
ghost use Rattle.pager.specs.Stop.{OnlyReads};
ghost use Rattle.index_page.specs.IndexPage.{AreWritable};
ghost use Rattle.tree_index.specs.Walk.{IsOfTree, IsStored, children, tree_page, walked};

use index_page::{Form, IndexPage, are_of_kind, is_below, load_any};
use pager::{Draft, Found, Pager, Stop, broken};
use std::alloc::{AllocError, Global};
use values::Kind;

/// A page of a tree, and what it holds.
#[derive(Debug, Drop)]
pub struct Met {
    pub page: u32,
    pub held: IndexPage,
}

// Whether it is a page of a tree whose entries are of a kind.
fn is_of_tree(held: &IndexPage, kind: Kind) -> bool
    ensures { MatchBool result (IsOfTree kind held.now.form held.now.entries)
        (IsOfTree kind held.now.form held.now.entries → ⊥) }
{
    match held.form {
        Form::Run => false,
        Form::Inner => true,
        Form::Leaf => are_of_kind(held.entries.as_slice(), kind),
    }
}

// What the page of a tree holds.
fn load_tree<P: Pager>(
    alloc: Global,
    pager: &mut P,
    draft: &Draft,
    page: u32,
    kind: Kind,
) -> Result<IndexPage, Stop<P::Fault>>
    requires { draft.now.size ≡ P.size pager.old }
    ensures read { Reads (λ held. held) (P.tells pager.new) draft.now.list
        (λ pages. tree_page kind draft.now.size pages page) result }
    ensures only_reads { OnlyReads P.tells P.goes P.size P.faults pager.old pager.new result }
    ensures there { OnOk result (page < draft.now.size) }
    ensures writable { IfOk result (λ held. AreWritable held.entries) }
{
    let held = load_any(alloc, pager, draft, page)?;
    if !is_of_tree(&held, kind) {
        return Err(Stop::Refused(broken(page)));
    }
    Ok(held)
}

// The children of a page in which entries from `low` up to `high` belong, in order.
fn children(
    alloc: Global,
    held: &IndexPage,
    low: &Found,
    high: &Found,
) -> Result<Vec<u32>, AllocError>
    ensures { IfOk result (λ pages. pages.items ≡ children low.now high.now held.now) }
{
    let mut pages = Vec::new(alloc);
    if held.form != Form::Inner {
        return Ok(pages);
    }
    let mut child = held.link;
    for key in held.entries.as_slice() {
        if is_below(low, key) {
            pages.push(child)?;
        }
        if is_below(high, key) {
            return Ok(pages);
        }
        child = key.page;
    }
    pages.push(child)?;
    Ok(pages)
}

/// The pages in which entries from `low` up to `high` belong, and those above them: each page before its children.
pub fn walk<P: Pager>(
    alloc: Global,
    pager: &mut P,
    draft: &Draft,
    root: u32,
    low: &Found,
    high: &Found,
) -> Result<Vec<Met>, Stop<P::Fault>>
    requires { draft.now.size ≡ P.size pager.old }
    ensures walked { Reads (λ way. way.items) (P.tells pager.new) draft.now.list
        (λ pages. walked low.now high.now (kind_of low.now.value) draft.now.size pages root) result }
    ensures only_reads { OnlyReads P.tells P.goes P.size P.faults pager.old pager.new result }
    ensures stored { IfOk result (λ way. AllByRecursion (IsStored draft.now.size) way.items) }
{
    let kind = low.value.kind();
    let mut way = Vec::new(alloc);
    let mut todo = vec![in alloc; root]?;
    'pages: for _ in 0..draft.size() {
        if todo.is_empty() {
            return Ok(way);
        }
        let page = todo.remove(0);
        let held = load_tree(alloc, pager, draft, page, kind)?;
        let mut next = children(alloc, &held, low, high)?;
        next.append(&mut todo)?;
        todo = next;
        way.push(Met { page, held })?;
    }
    if todo.is_empty() {
        return Ok(way);
    }
    Err(Stop::Refused(broken(todo[0])))
}
