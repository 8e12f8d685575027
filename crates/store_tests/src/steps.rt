//! Steps of a session, of the copier and of the flusher at a store, and what each tells.

ghost use Rattle.std.specs.Prelude.{◌≡◌, IsTrue, IfSome, OnOk};
ghost use Rattle.history.specs.Label.{is_label};
ghost use Rattle.store.specs.Past.{IsPinnedBy, IsTableOf};
ghost use Rattle.store.specs.Seats.{IsOpenIn, IsPage, IsReady, IsWhole, StaysIn};
ghost use Rattle.store_tests.specs.Steps.{MayCall, MayRound, Rests};
ghost use Rattle.turn.specs.Seats.{IsSame, mine};
ghost use Rattle.turn.specs.Tables.{table_of};

use disk_model::Disk;
use page_table::SnapTable;
use race_model::{Batch, Fault};
use retro_base::{Page, Refusal, Who};
use skippy::Steps;
use std::alloc::Global;
use std::marker::Brand;
use std::sync::Wait;
use std::sync::ledger::{Blank, Ledger};
use store::{Done, Ended, Seat, Store, copier, flusher};
use txn_set::Ending;

/// The phase of all steps.
pub const PHASE: u16 = 1;

/// What is done at a store. Pages are given by the first and by how many there are.
#[derive(Drop)]
pub enum Step {
    /// A transaction fills pages with a byte, and declares a snapshot.
    Marked(u32, u32, u8),
    /// A transaction fills pages with a byte.
    Plain(u32, u32, u8),
    /// A transaction reads a page, and is rolled back.
    Read(u32),
    /// A look at a snapshot reads a page as of it.
    Past(u32, u32),
    /// The snapshots below one are dropped.
    Drop(u64),
    /// The oldest and the newest snapshot are asked for.
    Horizon,
    /// The copier makes a round.
    Copy,
    /// The copier runs until nothing is left to do.
    Copier,
    /// The flusher makes a round.
    WriteBack,
    /// The flusher runs until nothing is left to do.
    Flusher,
}

/// What a step tells. A page is told by its byte, where it has that byte alone.
#[derive(Clone, Copy, PartialEq)]
pub enum Told {
    /// The snapshot that a commit declared.
    Committed(Option<u32>),
    Page(Option<u8>),
    /// The start of a snapshot, and a page as of it.
    Past(u64, Option<u8>),
    Dropped,
    /// The oldest and the newest snapshot.
    Horizon(u32, u32),
    /// Whether a round found something to do.
    Round(bool),
    /// A worker ended that had been told to.
    Ended,
    /// A worker ended that had found nothing often enough.
    Idled,
    /// The step is not of that seat.
    Nothing,
}

/// What a step answers.
pub type Answer = Result<Told, Refusal>;

// The byte of a page that has it alone.
fn byte_of(page: &Page) -> Option<u8> {
    let bytes = page.bytes();
    let first = *bytes.first()?;
    if bytes.iter().all(|byte| *byte == first) {
        return Some(first);
    }
    None
}

// Edits a page, if the store has it.
fn edits<R: Wait, D: Disk + Drop>(
    rt: &R,
    store: &Store<D>,
    seat: &mut Seat<D>,
    who: Who,
    page: u32,
    bytes: &Page,
) -> Result<(), Refusal>
    requires ready { MayCall (table_of store.now.turn) seat.old }
    requires own { who.session ≡ seat.old.number }
    requires is_open { IsOpenIn seat.old who }
    ensures ready { MayCall (table_of store.now.turn) seat.new }
    ensures still { IsOpenIn seat.new who }
    ensures same { IsSame seat.old seat.new }
{
    let pages = store.sizes(rt, seat).pages;
    if pages <= page {
        return Err(Refusal::PagesFull { pages });
    }
    store.edit(rt, seat, who, page, bytes)
}

// Fills pages with a byte.
fn fills<R: Wait, D: Disk + Drop>(
    rt: &R,
    store: &Store<D>,
    seat: &mut Seat<D>,
    who: Who,
    first: u32,
    count: u32,
    byte: u8,
) -> Result<(), Refusal>
    requires ready { MayCall (table_of store.now.turn) seat.old }
    requires own { who.session ≡ seat.old.number }
    requires is_open { IsOpenIn seat.old who }
    ensures ready { MayCall (table_of store.now.turn) seat.new }
    ensures still { IsOpenIn seat.new who }
    ensures same { IsSame seat.old seat.new }
{
    let bytes = Page::of([byte; 1024]);
    'pages: for page in first..first.saturating_add(count) {
        match edits(rt, store, seat, who, page, &bytes) {
            Ok(()) => {}
            Err(why) => return Err(why),
        }
    }
    Ok(())
}

// Ends a transaction with a commit.
fn ends<R: Wait, D: Disk + Drop>(
    rt: &R,
    store: &Store<D>,
    seat: &mut Seat<D>,
    who: Who,
    mark: Option<&[u8]>,
) -> Answer
    requires ready { MayCall (table_of store.now.turn) seat.old }
    requires own { who.session ≡ seat.old.number }
    requires is_open { IsOpenIn seat.old who }
    requires label { IfSome mark (λ bytes. IsTrue (is_label bytes.now)) }
    ensures ready { MayCall (table_of store.now.turn) seat.new }
    ensures rests { OnOk result (Rests (table_of store.now.turn) seat.new) }
    ensures same { IsSame seat.old seat.new }
{
    match store.commit(rt, seat, who, mark) {
        Ok(number) => Ok(Told::Committed(number)),
        Err(why) => Err(why),
    }
}

// A transaction that fills pages with a byte, and is committed with a mark or none.
fn commits<R: Wait, D: Disk + Drop>(
    rt: &R,
    store: &Store<D>,
    seat: &mut Seat<D>,
    item: u32,
    first: u32,
    count: u32,
    byte: u8,
    is_marked: bool,
) -> Answer
    requires rests { Rests (table_of store.now.turn) seat.old }
    ensures ready { MayCall (table_of store.now.turn) seat.new }
    ensures rests { OnOk result (Rests (table_of store.now.turn) seat.new) }
    ensures same { IsSame seat.old seat.new }
{
    let who = Who {
        phase: PHASE,
        session: seat.number(),
        item,
    };
    if let Err(why) = store.begin(rt, seat, who) {
        return Err(why);
    }
    if let Err(why) = fills(rt, store, seat, who, first, count, byte) {
        return Err(why);
    }
    if is_marked {
        return ends(rt, store, seat, who, Some(b"mark"));
    }
    ends(rt, store, seat, who, None)
}

// A transaction that reads a page.
fn reads<R: Wait, D: Disk + Drop>(
    rt: &R,
    store: &Store<D>,
    seat: &mut Seat<D>,
    item: u32,
    page: u32,
) -> Answer
    requires rests { Rests (table_of store.now.turn) seat.old }
    ensures ready { MayCall (table_of store.now.turn) seat.new }
    ensures rests { OnOk result (Rests (table_of store.now.turn) seat.new) }
    ensures same { IsSame seat.old seat.new }
{
    let who = Who {
        phase: PHASE,
        session: seat.number(),
        item,
    };
    let pages = store.sizes(rt, seat).pages;
    if pages <= page {
        return Err(Refusal::PagesFull { pages });
    }
    if let Err(why) = store.begin(rt, seat, who) {
        return Err(why);
    }
    let mut out = Page::zero();
    let read = store.read(rt, seat, who, page, &mut out);
    store.rollback(rt, seat, who, Ending::Asked);
    match read {
        Ok(()) => Ok(Told::Page(byte_of(&out))),
        Err(why) => Err(why),
    }
}

// A page as of a snapshot that a look pins; of what the call hands over only that the seat goes on.
fn reads_past<R: Wait, D: Disk + Drop, L: Ledger>(
    rt: &R,
    store: &Store<D>,
    seat: &mut Seat<D>,
    snapshot: u32,
    table: &mut SnapTable,
    page: u32,
    out: &mut Page,
    steps: &mut Steps<L>,
) -> Result<(), Fault>
    requires ready { IsReady (table_of store.now.turn) seat.old }
    requires pinned { IsPinnedBy seat.old snapshot }
    requires first_met { IsTableOf D.is_honest D.state seat.old snapshot table.old }
    requires inside { IsPage seat.old page }
    ensures ready { IsReady (table_of store.now.turn) seat.new }
    ensures same { StaysIn seat.old seat.new }
    ensures whole { IsWhole seat.old → IsWhole seat.new }
    ensures work { (mine seat.new).work ≡ (mine seat.old).work }
{
    store.past(rt, seat, snapshot, table, page, out, steps)
}

// A look at a snapshot that reads a page as of it, by steps that are counted in a ledger.
fn recalls_by<R: Wait, D: Disk + Drop, L: Ledger>(
    rt: &R,
    alloc: Global,
    blank: Blank,
    store: &Store<D>,
    seat: &mut Seat<D>,
    item: u32,
    snapshot: u32,
    page: u32,
) -> Answer
    requires name { blank.name ≡ L.name }
    requires parts { blank.parts ≡ L.parts }
    requires one_part { blank.parts ≡ 1 }
    requires rests { Rests (table_of store.now.turn) seat.old }
    ensures ready { MayCall (table_of store.now.turn) seat.new }
    ensures rests { OnOk result (Rests (table_of store.now.turn) seat.new) }
    ensures same { IsSame seat.old seat.new }
{
    let who = Who {
        phase: PHASE,
        session: seat.number(),
        item,
    };
    let pages = store.sizes(rt, seat).pages;
    if pages <= page {
        return Err(Refusal::PagesFull { pages });
    }
    let start = match store.look(rt, seat, who, u64::from(snapshot)) {
        Ok(start) => start,
        Err(why) => return Err(why),
    };
    let mut table = SnapTable::new(alloc, start);
    let mut out = Page::zero();
    let mut steps = Steps::<L>::new(blank);
    let read = reads_past(
        rt, store, seat, snapshot, &mut table, page, &mut out, &mut steps,
    );
    store.unlook(rt, seat, who, Ending::Asked);
    match read {
        Ok(()) => Ok(Told::Past(start, byte_of(&out))),
        Err(fault) => Err(fault.why),
    }
}

fn recalls<R: Wait, D: Disk + Drop>(
    rt: &R,
    alloc: Global,
    store: &Store<D>,
    seat: &mut Seat<D>,
    item: u32,
    snapshot: u32,
    page: u32,
) -> Answer
    requires rests { Rests (table_of store.now.turn) seat.old }
    ensures ready { MayCall (table_of store.now.turn) seat.new }
    ensures rests { OnOk result (Rests (table_of store.now.turn) seat.new) }
    ensures same { IsSame seat.old seat.new }
{
    recalls_by::<R, D, Brand>(rt, alloc, Blank::new(1), store, seat, item, snapshot, page)
}

fn drops<R: Wait, D: Disk + Drop>(
    rt: &R,
    store: &Store<D>,
    seat: &mut Seat<D>,
    item: u32,
    below: u64,
) -> Answer
    requires rests { Rests (table_of store.now.turn) seat.old }
    ensures ready { MayCall (table_of store.now.turn) seat.new }
    ensures rests { OnOk result (Rests (table_of store.now.turn) seat.new) }
    ensures same { IsSame seat.old seat.new }
{
    let who = Who {
        phase: PHASE,
        session: seat.number(),
        item,
    };
    match store.drop_below(rt, seat, who, below) {
        Ok(()) => Ok(Told::Dropped),
        Err(why) => Err(why),
    }
}

// The copier makes a round.
fn copies<R: Wait, D: Disk + Drop>(
    rt: &R,
    store: &Store<D>,
    seat: &mut Seat<D>,
    batch: &mut Batch,
) -> Answer
    requires ready { MayRound (table_of store.now.turn) seat.old }
    ensures ready { MayCall (table_of store.now.turn) seat.new }
    ensures rests { OnOk result (MayRound (table_of store.now.turn) seat.new) }
    ensures same { IsSame seat.old seat.new }
{
    let who = Who {
        phase: PHASE,
        session: seat.number(),
        item: 0,
    };
    match store.copy_round(rt, seat, who, batch) {
        Ok(more) => Ok(Told::Round(more)),
        Err(why) => Err(why),
    }
}

// The flusher makes a round.
fn writes_back<R: Wait, D: Disk + Drop>(rt: &R, store: &Store<D>, seat: &mut Seat<D>) -> Answer
    requires ready { MayRound (table_of store.now.turn) seat.old }
    ensures ready { MayCall (table_of store.now.turn) seat.new }
    ensures rests { OnOk result (MayRound (table_of store.now.turn) seat.new) }
    ensures same { IsSame seat.old seat.new }
{
    let who = Who {
        phase: PHASE,
        session: seat.number(),
        item: 0,
    };
    match store.write_round(rt, seat, who) {
        Ok(more) => Ok(Told::Round(more)),
        Err(why) => Err(why),
    }
}

fn why_ended(ended: Ended<'_>) -> Told {
    match ended {
        Ended::Told(_) => Told::Ended,
        Ended::Idled => Told::Idled,
    }
}

// The copier runs until a round finds nothing to do.
fn copies_all<R: Wait, D: Disk + Drop>(
    rt: &R,
    store: &Store<D>,
    seat: &mut Seat<D>,
    batch: &mut Batch,
) -> Answer
    requires ready { MayRound (table_of store.now.turn) seat.old }
    ensures ready { MayCall (table_of store.now.turn) seat.new }
    ensures rests { OnOk result (MayRound (table_of store.now.turn) seat.new) }
    ensures same { IsSame seat.old seat.new }
{
    let done = Done::new();
    let _told = done.set();
    match copier(store, rt, seat, PHASE, batch, &done) {
        Ok(ended) => Ok(why_ended(ended)),
        Err(why) => Err(why),
    }
}

// The flusher runs until a round finds nothing to do.
fn writes_all_back<R: Wait, D: Disk + Drop>(rt: &R, store: &Store<D>, seat: &mut Seat<D>) -> Answer
    requires ready { MayRound (table_of store.now.turn) seat.old }
    ensures ready { MayCall (table_of store.now.turn) seat.new }
    ensures rests { OnOk result (MayRound (table_of store.now.turn) seat.new) }
    ensures same { IsSame seat.old seat.new }
{
    let done = Done::new();
    let _told = done.set();
    match flusher(store, rt, seat, PHASE, &done) {
        Ok(ended) => Ok(why_ended(ended)),
        Err(why) => Err(why),
    }
}

/// A step of the session.
pub fn acts<R: Wait, D: Disk + Drop>(
    rt: &R,
    alloc: Global,
    store: &Store<D>,
    seat: &mut Seat<D>,
    item: u32,
    step: &Step,
) -> Answer
    requires rests { Rests (table_of store.now.turn) seat.old }
    ensures ready { MayCall (table_of store.now.turn) seat.new }
    ensures rests { OnOk result (Rests (table_of store.now.turn) seat.new) }
    ensures same { IsSame seat.old seat.new }
{
    match step {
        Step::Marked(first, count, byte) => commits(
            rt, store, seat, item, *first, *count, *byte, true,
        ),
        Step::Plain(first, count, byte) => commits(
            rt, store, seat, item, *first, *count, *byte, false,
        ),
        Step::Read(page) => reads(rt, store, seat, item, *page),
        Step::Past(snapshot, page) => recalls(rt, alloc, store, seat, item, *snapshot, *page),
        Step::Drop(below) => drops(rt, store, seat, item, *below),
        Step::Horizon => {
            let (oldest, newest) = store.horizon(seat);
            Ok(Told::Horizon(oldest, newest))
        }
        Step::Copy | Step::Copier | Step::WriteBack | Step::Flusher => Ok(Told::Nothing),
    }
}

/// A step at the seat whose it is. A refused one is the last.
pub fn perform<R: Wait, D: Disk + Drop>(
    rt: &R,
    alloc: Global,
    store: &Store<D>,
    session: &mut Seat<D>,
    copying: &mut Seat<D>,
    flushing: &mut Seat<D>,
    batch: &mut Batch,
    item: u32,
    step: &Step,
) -> Answer
    requires session { Rests (table_of store.now.turn) session.old }
    requires copying { MayRound (table_of store.now.turn) copying.old }
    requires flushing { MayRound (table_of store.now.turn) flushing.old }
    ensures session { MayCall (table_of store.now.turn) session.new }
    ensures copying { MayCall (table_of store.now.turn) copying.new }
    ensures flushing { MayCall (table_of store.now.turn) flushing.new }
    ensures session_rests { OnOk result (Rests (table_of store.now.turn) session.new) }
    ensures copying_rests { OnOk result (MayRound (table_of store.now.turn) copying.new) }
    ensures flushing_rests { OnOk result (MayRound (table_of store.now.turn) flushing.new) }
{
    match step {
        Step::Copy => copies(rt, store, copying, batch),
        Step::Copier => copies_all(rt, store, copying, batch),
        Step::WriteBack => writes_back(rt, store, flushing),
        Step::Flusher => writes_all_back(rt, store, flushing),
        _ => acts(rt, alloc, store, session, item, step),
    }
}
