//! Which commits the limits refuse.

ghost use Rattle.std.specs.Prelude.{◌≡◌, ◌<◌, ◌≤◌, ◌+◌, ◌-◌, ◌^◌, ℕ, List, Option, IfSome, None, true, is_some, length};
ghost use Rattle.retro_base.specs.declared.limits.TheConstants.{EDITED_PAGES};
ghost use Rattle.history.specs.declared.entry.Base.{Base};
ghost use Rattle.history.specs.declared.journal.Line.{Line};
ghost use Rattle.history.specs.declared.writes.PageImage.{PageImage};
ghost use Rattle.history.specs.declared.entry.Change.TheVariants.{Commit};
ghost use Rattle.history.specs.History.{base_after};
ghost use Rattle.history.specs.Lines.{images_in};
ghost use Rattle.history.specs.Marks.{newest, oldest_start};
ghost use Rattle.history.specs.Right.{IsBase};
ghost use Rattle.journal_law.specs.Lawful.{IsCommitRefused};
ghost use Rattle.plain_store.specs.Limits.{MayCommit};

use history::{Label, PageImage, RunningBase, newest, oldest_start_behind};
use journal_book::Book;
use retro_base::{JOURNAL_IMAGES, MAX_CAPTURES, RETAINED_SNAPSHOTS, Refusal};

// More page images than the journal may have.
fn images_refused(book: &Book, writes: &[PageImage]) -> Option<Refusal>
    ensures refused { IfSome result (λ why. (base : Base) (label : Option (List ℕ))
        → IsCommitRefused base book.now.lines label writes.now why) }
    ensures free { result ≡ None → images_in book.now.lines + length writes.now ≤ JOURNAL_IMAGES }
{
    let images = book.images() + writes.len() as u64;
    if images <= JOURNAL_IMAGES {
        return None;
    }
    Some(Refusal::JournalFull {
        lines: book.lines().len() as u64,
        images,
    })
}

// More snapshots than are retained, or numbered.
fn snapshots_refused(base: &RunningBase, label: &Option<Label>) -> Option<Refusal>
    requires { length base.now.marks ≤ RETAINED_SNAPSHOTS }
    ensures refused { IfSome result (λ why. (lines : List Line) (writes : List PageImage)
        → IsCommitRefused base.now lines label.now writes why) }
    ensures free { result ≡ None → is_some label.now ≡ true
        → (length base.now.marks < RETAINED_SNAPSHOTS) × (newest base.now.marks < 2 ^ 32 - 1) }
{
    let marks = base.marks();
    if label.is_none() {
        return None;
    }
    if marks.len() < RETAINED_SNAPSHOTS as usize && newest(marks) < u32::MAX {
        return None;
    }
    Some(Refusal::SnapshotsFull {
        retained: marks.len() as u32,
    })
}

// More captures than the archive holds, or than a store ever has.
fn archive_refused(
    base: &RunningBase,
    label: &Option<Label>,
    writes: &[PageImage],
) -> Option<Refusal>
    requires captures { base.now.captures ≤ MAX_CAPTURES }
    requires writes { length writes.now ≤ EDITED_PAGES }
    ensures refused { IfSome result (λ why. (lines : List Line)
        → IsCommitRefused base.now lines label.now writes.now why) }
    ensures free { let after : Base = base_after base.now (Commit label.now writes.now) in
        result ≡ None → (after.captures ≤ MAX_CAPTURES) × (after.captures - oldest_start after.marks ≤ after.capacity) }
{
    let captures = base.captures() + base.captured_count(writes) as u64;
    let kept = captures.saturating_sub(oldest_start_behind(captures, base.marks(), label));
    if kept > u64::from(base.capacity()) {
        return Some(Refusal::ArchiveFull {
            needed: kept,
            room: u64::from(base.capacity()),
        });
    }
    if captures > MAX_CAPTURES {
        return Some(Refusal::ArchiveFull {
            needed: captures,
            room: MAX_CAPTURES,
        });
    }
    None
}

/// Why a commit is refused: for its page images, else for snapshots, else for the archive.
pub fn commit_refused(
    base: &RunningBase,
    book: &Book,
    label: &Option<Label>,
    writes: &[PageImage],
) -> Option<Refusal>
    requires right { IsBase base.now }
    requires writes { length writes.now ≤ EDITED_PAGES }
    ensures refused { IfSome result (IsCommitRefused base.now book.now.lines label.now writes.now) }
    ensures free { result ≡ None → MayCommit base.now book.now.lines label.now writes.now }
{
    if let Some(why) = images_refused(book, writes) {
        return Some(why);
    }
    if let Some(why) = snapshots_refused(base, label) {
        return Some(why);
    }
    archive_refused(base, label, writes)
}
