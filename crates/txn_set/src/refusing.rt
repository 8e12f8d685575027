//! Why reads, edits, commits, looks and drops are refused, before any device is asked.

ghost use Rattle.std.specs.Prelude.{◌≡◌, ◌≤◌, ◌<◌, ◌+◌, ◌^◌, length, None, Some};
ghost use Rattle.std.specs.List.{AllByRecursion};
ghost use Rattle.retro_base.specs.declared.limits.TheConstants.{MAX_CAPTURES};
ghost use Rattle.history.specs.Lines.{images_in};
ghost use Rattle.txn_set.specs.Refused.{IsOpenIn, archive_refused, captures_behind, commit_refused};
ghost use Rattle.txn_set.specs.Refused.{drop_refused, edit_refused, first_changed, images_refused};
ghost use Rattle.txn_set.specs.Refused.{leaves_record, look_refused, no_snapshot, overlap, read_refused};
ghost use Rattle.txn_set.specs.Refused.{snapshots_refused, start_behind, stopped_refused, too_many};

use crate::counts::Counts;
use history::{PageImage, Stop};
use journal_book::{Book, Transaction, Works, has_page};
use retro_base::{EDITED_PAGES, JOURNAL_IMAGES, MAX_CAPTURES, RETAINED_SNAPSHOTS, Refusal, Who};

fn overlap(who: Who) -> Refusal
    ensures { result ≡ overlap who }
{
    Refusal::Overlap {
        session: who.session,
        item: who.item,
    }
}

/// Why a read of the page is refused: for what the transaction keeps, else for the last other item that changed the
/// page since it began.
pub fn read_refused(book: &Book, transaction: &Transaction, page: u32) -> Option<Refusal>
    requires is_open { IsOpenIn book.now.lines transaction.now }
    requires page { page < book.now.pages }
    ensures { result ≡ read_refused book.now.lines transaction.now page }
{
    if let Some(kept) = transaction.kept {
        return Some(kept);
    }
    match book.changed_since(transaction.who, page, transaction.began) {
        Some(who) => Some(overlap(who)),
        None => None,
    }
}

fn too_many(transaction: &Transaction, page: u32) -> Option<Refusal>
    ensures { result ≡ too_many transaction.now page }
{
    let edits = transaction.edits.images();
    if edits.len() < EDITED_PAGES as usize || has_page(page, edits) {
        return None;
    }
    Some(Refusal::TooManyPages {
        needed: EDITED_PAGES + 1,
    })
}

/// Why an edit of the page is refused: for what the transaction keeps, else for the item that holds the page's latch,
/// else for the last other item that changed the page since it began, else because it edits as many as it may.
pub fn edit_refused(
    book: &Book,
    works: &Works,
    transaction: &Transaction,
    page: u32,
) -> Option<Refusal>
    requires is_open { IsOpenIn book.now.lines transaction.now }
    requires page { page < book.now.pages }
    requires latch { page < works.now.pages }
    ensures { result ≡ edit_refused book.now.lines works.now.slots transaction.now page }
{
    if let Some(kept) = transaction.kept {
        return Some(kept);
    }
    if let Some(who) = works.latch_holder(transaction.who, page) {
        return Some(overlap(who));
    }
    if let Some(who) = book.changed_since(transaction.who, page, transaction.began) {
        return Some(overlap(who));
    }
    too_many(transaction, page)
}

fn first_changed(book: &Book, transaction: &Transaction) -> Option<Who>
    requires is_open { IsOpenIn book.now.lines transaction.now }
    requires pages { AllByRecursion (λ page. page < book.now.pages) transaction.now.reads.keys }
    ensures { result ≡ first_changed book.now.lines transaction.now transaction.now.reads.keys }
{
    for page in &transaction.reads {
        if let Some(who) = book.changed_since(transaction.who, *page, transaction.began) {
            return Some(who);
        }
    }
    None
}

fn stopped_refused(fault: Option<Stop>, declares: bool, writes: &[PageImage]) -> Option<Refusal>
    ensures { result ≡ stopped_refused fault declares writes.now }
{
    if !declares && writes.is_empty() {
        return None;
    }
    match fault {
        Some(stop) => Some(stop.refusal()),
        None => None,
    }
}

fn images_refused(book: &Book, writes: &[PageImage]) -> Option<Refusal>
    ensures { result ≡ images_refused book.now.lines writes.now }
{
    let lines = book.lines().len() as u64;
    let images = book.images() + writes.len() as u64;
    if images > JOURNAL_IMAGES {
        return Some(Refusal::JournalFull { lines, images });
    }
    None
}

fn snapshots_refused(counts: &Counts, declares: bool) -> Option<Refusal>
    ensures { result ≡ snapshots_refused counts.now declares }
{
    if declares && (counts.retained >= RETAINED_SNAPSHOTS || counts.newest == u32::MAX) {
        return Some(Refusal::SnapshotsFull {
            retained: counts.retained,
        });
    }
    None
}

fn archive_refused(counts: &Counts, declares: bool) -> Option<Refusal>
    requires { captures_behind counts.now < 2 ^ 64 }
    ensures { result ≡ archive_refused counts.now declares }
{
    let captures = counts.captures + counts.captured;
    let mut start = counts.oldest_start;
    if declares && counts.retained == 0 {
        start = captures;
    }
    let needed = captures.saturating_sub(start);
    let room = u64::from(counts.capacity);
    if needed > room {
        return Some(Refusal::ArchiveFull { needed, room });
    }
    if captures > MAX_CAPTURES {
        return Some(Refusal::ArchiveFull {
            needed: captures,
            room: MAX_CAPTURES,
        });
    }
    None
}

/// Why a commit, which declares a snapshot or not, is refused before it takes any memory: for what its transaction
/// keeps; where it leaves a record, for the fault that stopped the desk; for the last changer of the least page that it
/// read and that has changed since; where the page images pass the journal's limit; where the snapshots do; where the
/// archive has too few slots.
pub fn commit_refused(
    book: &Book,
    transaction: &Transaction,
    fault: Option<Stop>,
    counts: &Counts,
    declares: bool,
) -> Option<Refusal>
    requires is_open { IsOpenIn book.now.lines transaction.now }
    requires pages { AllByRecursion (λ page. page < book.now.pages) transaction.now.reads.keys }
    requires captures { captures_behind counts.now < 2 ^ 64 }
    ensures { result ≡ commit_refused fault counts.now book.now.lines transaction.now declares }
{
    let edits = transaction.edits.images();
    if let Some(kept) = transaction.kept {
        return Some(kept);
    }
    if let Some(why) = stopped_refused(fault, declares, edits) {
        return Some(why);
    }
    if let Some(who) = first_changed(book, transaction) {
        return Some(overlap(who));
    }
    if let Some(why) = images_refused(book, edits) {
        return Some(why);
    }
    if let Some(why) = snapshots_refused(counts, declares) {
        return Some(why);
    }
    archive_refused(counts, declares)
}

fn no_snapshot(number: u64, newest: u32) -> Option<Refusal>
    ensures { result ≡ no_snapshot number newest }
{
    if number == 0 || number > u64::from(newest) {
        return Some(Refusal::NoSuchSnapshot {
            asked: number,
            newest,
        });
    }
    None
}

/// Why a look at a snapshot is refused, where these are the oldest and the newest: no snapshot has the number, or it
/// was dropped.
pub fn look_refused(number: u64, oldest: u32, newest: u32) -> Option<Refusal>
    ensures { result ≡ look_refused number oldest newest }
{
    if let Some(why) = no_snapshot(number, newest) {
        return Some(why);
    }
    if number < u64::from(oldest) {
        return Some(Refusal::Dropped {
            asked: number as u32,
            oldest,
        });
    }
    None
}

/// Why a drop of the snapshots below a number is refused: for the fault that stopped the desk, else because no
/// snapshot has the number, else for the least pinned snapshot below it and the least session that pins it.
pub fn drop_refused(works: &Works, fault: Option<Stop>, newest: u32, below: u64) -> Option<Refusal>
    ensures { result ≡ drop_refused fault newest below works.now.slots }
{
    if let Some(stop) = fault {
        return Some(stop.refusal());
    }
    if let Some(why) = no_snapshot(below, newest) {
        return Some(why);
    }
    match works.least_pin() {
        Some((snapshot, session)) if u64::from(snapshot) < below => {
            Some(Refusal::Pinned { snapshot, session })
        }
        _ => None,
    }
}
