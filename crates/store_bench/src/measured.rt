//! The calls, each in a function of its own, so that its instructions are told apart.

ghost use Rattle.std.specs.Prelude.{◌≡◌, None, IfSome, IsTrue, true};
ghost use Rattle.history.specs.Label.{is_label};
ghost use Rattle.store.specs.Past.{IsPinnedBy, IsTableOf};
ghost use Rattle.store.specs.Seats.{IsOpenIn, IsPage, IsReady, IsSized, IsWhole};
ghost use Rattle.turn.specs.Seats.{IsSame, mine};
ghost use Rattle.turn.specs.Tables.{table_of};

use disk_model::Disk;
use page_table::SnapTable;
use retro_base::{PAGE_BYTES, Page, Who};
use skippy::Steps;
use std::alloc::Global;
use std::marker::Brand;
use std::sync::Wait;
use std::sync::ledger::{Blank, Ledger};
use store::{Seat, Store};
use txn_set::Ending;

/// The phase of all that is done.
pub const PHASE: u16 = 1;

// The item of all that is done, the page that is written and read, and the snapshot as of which it is read.
const ITEM: u32 = 0;

const PAGE: u32 = 1;

const SNAPSHOT: u32 = 1;

// The item of a seat.
fn who_of<D: Disk + Drop>(seat: &Seat<D>) -> Who
    ensures { result.session ≡ seat.now.number }
{
    Who {
        phase: PHASE,
        session: seat.number(),
        item: ITEM,
    }
}

// Whether a page is one of the store's.
fn is_inside<D: Disk + Drop>(store: &Store<D>, seat: &Seat<D>, page: u32) -> bool
    requires { IsSized store.now.pages seat.now }
    ensures { result ≡ true → IsPage seat.now page }
{
    page < store.pages()
}

// Whether a transaction that writes a page was committed, which declares a snapshot where it has a mark.
fn writes<R: Wait, D: Disk + Drop>(
    rt: &R,
    store: &Store<D>,
    seat: &mut Seat<D>,
    page: u32,
    bytes: &Page,
    mark: Option<&[u8]>,
) -> bool
    requires ready { IsReady (table_of store.now.turn) seat.old × IsWhole seat.old }
    requires idle { (mine seat.old).work ≡ None }
    requires inside { IsPage seat.old page }
    requires label { IfSome mark (λ bytes. IsTrue (is_label bytes.now)) }
    ensures ready { IsReady (table_of store.now.turn) seat.new × IsWhole seat.new }
    ensures idle { result ≡ true → (mine seat.new).work ≡ None }
    ensures same { IsSame seat.old seat.new }
{
    let who = who_of(seat);
    let Ok(()) = store.begin(rt, seat, who) else {
        return false;
    };
    if store.edit(rt, seat, who, page, bytes).is_err() {
        return false;
    }
    match store.commit(rt, seat, who, mark) {
        Ok(_) => true,
        Err(_) => false,
    }
}

/// Whether a transaction that fills a page with ones was committed, which declares a snapshot where it has a mark.
pub fn fills<R: Wait, D: Disk + Drop>(
    rt: &R,
    store: &Store<D>,
    seat: &mut Seat<D>,
    page: u32,
    mark: Option<&[u8]>,
) -> bool
    requires ready { IsReady (table_of store.now.turn) seat.old × IsWhole seat.old }
    requires idle { (mine seat.old).work ≡ None }
    requires sized { IsSized store.now.pages seat.old }
    requires label { IfSome mark (λ bytes. IsTrue (is_label bytes.now)) }
    ensures ready { IsReady (table_of store.now.turn) seat.new × IsWhole seat.new }
    ensures idle { result ≡ true → (mine seat.new).work ≡ None }
    ensures same { IsSame seat.old seat.new }
{
    if !is_inside(store, seat, page) {
        return false;
    }
    let bytes = Page::of([1; PAGE_BYTES]);
    writes(rt, store, seat, page, &bytes, mark)
}

#[inline(never)]
fn commit_with_snapshot<R: Wait, D: Disk + Drop>(
    rt: &R,
    store: &Store<D>,
    seat: &mut Seat<D>,
) -> bool
    requires ready { IsReady (table_of store.now.turn) seat.old × IsWhole seat.old }
    requires idle { (mine seat.old).work ≡ None }
    requires sized { IsSized store.now.pages seat.old }
    ensures ready { IsReady (table_of store.now.turn) seat.new × IsWhole seat.new }
    ensures idle { result ≡ true → (mine seat.new).work ≡ None }
    ensures same { IsSame seat.old seat.new }
{
    fills(rt, store, seat, PAGE, Some(b"bench"))
}

#[inline(never)]
fn commit_plain<R: Wait, D: Disk + Drop>(rt: &R, store: &Store<D>, seat: &mut Seat<D>) -> bool
    requires ready { IsReady (table_of store.now.turn) seat.old × IsWhole seat.old }
    requires idle { (mine seat.old).work ≡ None }
    requires sized { IsSized store.now.pages seat.old }
    ensures ready { IsReady (table_of store.now.turn) seat.new × IsWhole seat.new }
    ensures idle { result ≡ true → (mine seat.new).work ≡ None }
    ensures same { IsSame seat.old seat.new }
{
    fills(rt, store, seat, PAGE, None)
}

// An entry to the desk and its leaving.
#[inline(never)]
fn enter<R: Wait, D: Disk + Drop>(rt: &R, store: &Store<D>, seat: &mut Seat<D>) -> bool
    requires ready { IsReady (table_of store.now.turn) seat.old × IsWhole seat.old }
    requires idle { (mine seat.old).work ≡ None }
    ensures ready { IsReady (table_of store.now.turn) seat.new × IsWhole seat.new }
    ensures idle { (mine seat.new).work ≡ None }
    ensures same { IsSame seat.old seat.new }
{
    !store.stopped(rt, seat)
}

// Whether a transaction read a page.
fn reads<R: Wait, D: Disk + Drop>(
    rt: &R,
    store: &Store<D>,
    seat: &mut Seat<D>,
    who: Who,
    page: u32,
    out: &mut Page,
) -> bool
    requires ready { IsReady (table_of store.now.turn) seat.old × IsWhole seat.old }
    requires own { who.session ≡ seat.old.number }
    requires is_open { IsOpenIn seat.old who }
    requires sized { IsSized store.now.pages seat.old }
    ensures ready { IsReady (table_of store.now.turn) seat.new × IsWhole seat.new }
    ensures still { IsOpenIn seat.new who }
    ensures same { IsSame seat.old seat.new }
{
    if !is_inside(store, seat, page) {
        return false;
    }
    store.read(rt, seat, who, page, out).is_ok()
}

#[inline(never)]
fn read<R: Wait, D: Disk + Drop>(
    rt: &R,
    store: &Store<D>,
    seat: &mut Seat<D>,
    who: Who,
    out: &mut Page,
) -> bool
    requires ready { IsReady (table_of store.now.turn) seat.old × IsWhole seat.old }
    requires own { who.session ≡ seat.old.number }
    requires is_open { IsOpenIn seat.old who }
    requires sized { IsSized store.now.pages seat.old }
    ensures ready { IsReady (table_of store.now.turn) seat.new × IsWhole seat.new }
    ensures still { IsOpenIn seat.new who }
    ensures same { IsSame seat.old seat.new }
{
    reads(rt, store, seat, who, PAGE, out)
}

#[inline(never)]
fn fetch<R: Wait, D: Disk + Drop>(
    rt: &R,
    store: &Store<D>,
    seat: &mut Seat<D>,
    who: Who,
    page: u32,
    out: &mut Page,
) -> bool
    requires ready { IsReady (table_of store.now.turn) seat.old × IsWhole seat.old }
    requires own { who.session ≡ seat.old.number }
    requires is_open { IsOpenIn seat.old who }
    requires sized { IsSized store.now.pages seat.old }
    ensures ready { IsReady (table_of store.now.turn) seat.new × IsWhole seat.new }
    ensures still { IsOpenIn seat.new who }
    ensures same { IsSame seat.old seat.new }
{
    reads(rt, store, seat, who, page, out)
}

// Whether a transaction read that page, or the one that is always read.
fn read_next<R: Wait, D: Disk + Drop>(
    rt: &R,
    store: &Store<D>,
    seat: &mut Seat<D>,
    who: Who,
    page: Option<u32>,
    out: &mut Page,
) -> bool
    requires ready { IsReady (table_of store.now.turn) seat.old × IsWhole seat.old }
    requires own { who.session ≡ seat.old.number }
    requires is_open { IsOpenIn seat.old who }
    requires sized { IsSized store.now.pages seat.old }
    ensures ready { IsReady (table_of store.now.turn) seat.new × IsWhole seat.new }
    ensures still { IsOpenIn seat.new who }
    ensures same { IsSame seat.old seat.new }
{
    match page {
        Some(page) => fetch(rt, store, seat, who, page, out),
        None => read(rt, store, seat, who, out),
    }
}

#[inline(never)]
fn recall<R: Wait, D: Disk + Drop, L: Ledger>(
    rt: &R,
    store: &Store<D>,
    seat: &mut Seat<D>,
    table: &mut SnapTable,
    out: &mut Page,
    steps: &mut Steps<L>,
) -> bool
    requires ready { IsReady (table_of store.now.turn) seat.old × IsWhole seat.old }
    requires pinned { IsPinnedBy seat.old SNAPSHOT }
    requires table { IsTableOf D.is_honest D.state seat.old SNAPSHOT table.old }
    requires sized { IsSized store.now.pages seat.old }
    ensures ready { IsReady (table_of store.now.turn) seat.new × IsWhole seat.new }
    ensures pinned { IsPinnedBy seat.new SNAPSHOT }
    ensures work { (mine seat.new).work ≡ (mine seat.old).work }
    ensures table { IsTableOf D.is_honest D.state seat.new SNAPSHOT table.new }
    ensures same { IsSame seat.old seat.new }
{
    if !is_inside(store, seat, PAGE) {
        return false;
    }
    store
        .past(rt, seat, SNAPSHOT, table, PAGE, out, steps)
        .is_ok()
}

/// Whether so many transactions that write a page were committed, each of which declares a snapshot.
pub fn commit_often<R: Wait, D: Disk + Drop>(
    rt: &R,
    store: &Store<D>,
    seat: &mut Seat<D>,
    count: u32,
) -> bool
    requires ready { IsReady (table_of store.now.turn) seat.old × IsWhole seat.old }
    requires idle { (mine seat.old).work ≡ None }
    requires sized { IsSized store.now.pages seat.old }
    ensures ready { IsReady (table_of store.now.turn) seat.new × IsWhole seat.new }
    ensures idle { result ≡ true → (mine seat.new).work ≡ None }
    ensures same { IsSame seat.old seat.new }
{
    'rounds: for _ in 0..count {
        if !commit_with_snapshot(rt, store, seat) {
            return false;
        }
    }
    true
}

/// Whether so many transactions that write a page were committed.
pub fn commit_plain_often<R: Wait, D: Disk + Drop>(
    rt: &R,
    store: &Store<D>,
    seat: &mut Seat<D>,
    count: u32,
) -> bool
    requires ready { IsReady (table_of store.now.turn) seat.old × IsWhole seat.old }
    requires idle { (mine seat.old).work ≡ None }
    requires sized { IsSized store.now.pages seat.old }
    ensures ready { IsReady (table_of store.now.turn) seat.new × IsWhole seat.new }
    ensures idle { result ≡ true → (mine seat.new).work ≡ None }
    ensures same { IsSame seat.old seat.new }
{
    'rounds: for _ in 0..count {
        if !commit_plain(rt, store, seat) {
            return false;
        }
    }
    true
}

/// Whether the desk was entered so often, and had not stopped.
pub fn enter_often<R: Wait, D: Disk + Drop>(
    rt: &R,
    store: &Store<D>,
    seat: &mut Seat<D>,
    count: u32,
) -> bool
    requires ready { IsReady (table_of store.now.turn) seat.old × IsWhole seat.old }
    requires idle { (mine seat.old).work ≡ None }
    ensures ready { IsReady (table_of store.now.turn) seat.new × IsWhole seat.new }
    ensures idle { (mine seat.new).work ≡ None }
    ensures same { IsSame seat.old seat.new }
{
    'rounds: for _ in 0..count {
        if !enter(rt, store, seat) {
            return false;
        }
    }
    true
}

// Whether so many pages were read from that one on, or that one so often.
fn read_each<R: Wait, D: Disk + Drop>(
    rt: &R,
    store: &Store<D>,
    seat: &mut Seat<D>,
    who: Who,
    count: u32,
    first: Option<u32>,
) -> bool
    requires ready { IsReady (table_of store.now.turn) seat.old × IsWhole seat.old }
    requires own { who.session ≡ seat.old.number }
    requires is_open { IsOpenIn seat.old who }
    requires sized { IsSized store.now.pages seat.old }
    ensures ready { IsReady (table_of store.now.turn) seat.new × IsWhole seat.new }
    ensures still { IsOpenIn seat.new who }
    ensures same { IsSame seat.old seat.new }
{
    let mut out = Page::zero();
    'rounds: for round in 0..count {
        let page = first.map(|first| first.saturating_add(round));
        if !read_next(rt, store, seat, who, page, &mut out) {
            return false;
        }
    }
    true
}

/// Whether a transaction read a page so often; or as many different pages, where the first of them is given.
pub fn read_often<R: Wait, D: Disk + Drop>(
    rt: &R,
    store: &Store<D>,
    seat: &mut Seat<D>,
    count: u32,
    first: Option<u32>,
) -> bool
    requires ready { IsReady (table_of store.now.turn) seat.old × IsWhole seat.old }
    requires idle { (mine seat.old).work ≡ None }
    requires sized { IsSized store.now.pages seat.old }
    ensures ready { IsReady (table_of store.now.turn) seat.new × IsWhole seat.new }
    ensures idle { result ≡ true → (mine seat.new).work ≡ None }
    ensures same { IsSame seat.old seat.new }
{
    let who = who_of(seat);
    let Ok(()) = store.begin(rt, seat, who) else {
        return false;
    };
    let all = read_each(rt, store, seat, who, count, first);
    store.rollback(rt, seat, who, Ending::Asked);
    all
}

// Whether the page was read so often as of the snapshot, by one table.
fn recall_each<R: Wait, D: Disk + Drop, L: Ledger>(
    rt: &R,
    blank: Blank,
    store: &Store<D>,
    seat: &mut Seat<D>,
    table: SnapTable,
    count: u32,
) -> bool
    requires name { blank.name ≡ L.name }
    requires parts { blank.parts ≡ L.parts }
    requires one_part { blank.parts ≡ 1 }
    requires ready { IsReady (table_of store.now.turn) seat.old × IsWhole seat.old }
    requires pinned { IsPinnedBy seat.old SNAPSHOT }
    requires table { IsTableOf D.is_honest D.state seat.old SNAPSHOT table }
    requires sized { IsSized store.now.pages seat.old }
    ensures ready { IsReady (table_of store.now.turn) seat.new × IsWhole seat.new }
    ensures work { (mine seat.new).work ≡ (mine seat.old).work }
    ensures same { IsSame seat.old seat.new }
{
    let mut table = table;
    let mut out = Page::zero();
    let mut steps = Steps::<L>::new(blank);
    'rounds: for _ in 0..count {
        if !recall(rt, store, seat, &mut table, &mut out, &mut steps) {
            return false;
        }
    }
    true
}

/// Whether a look read a page so often as of its snapshot.
pub fn recall_often<R: Wait, D: Disk + Drop>(
    rt: &R,
    alloc: Global,
    store: &Store<D>,
    seat: &mut Seat<D>,
    count: u32,
) -> bool
    requires ready { IsReady (table_of store.now.turn) seat.old × IsWhole seat.old }
    requires idle { (mine seat.old).work ≡ None }
    requires sized { IsSized store.now.pages seat.old }
    ensures ready { IsReady (table_of store.now.turn) seat.new × IsWhole seat.new }
    ensures idle { result ≡ true → (mine seat.new).work ≡ None }
    ensures same { IsSame seat.old seat.new }
{
    let who = who_of(seat);
    let Ok(start) = store.look(rt, seat, who, u64::from(SNAPSHOT)) else {
        return false;
    };
    let table = SnapTable::new(alloc, start);
    let all = recall_each::<R, D, Brand>(rt, Blank::new(1), store, seat, table, count);
    store.unlook(rt, seat, who, Ending::Asked);
    all
}
