//! Calls that are refused by the number of a snapshot, and edits of one page too many.

ghost use Rattle.std.specs.Prelude.{◌≡◌, ◌&&◌, ◌+◌, IsTrue, nat_le, not, length};
ghost use Rattle.retro_base.specs.declared.limits.TheConstants.{EDITED_PAGES};
ghost use Rattle.retro_base.specs.declared.refusal.Refusal.TheVariants.{TooManyPages};
ghost use Rattle.history.specs.Writes.{is_among, pages_of, rises};
ghost use Rattle.plain_store.specs.Numbers.{look_refused, no_snapshot};

use history::{Mark, PageImage, newest, oldest};
use journal_book::has_page;
use retro_base::{EDITED_PAGES, Refusal};

/// Why a number is that of no snapshot.
pub fn no_snapshot(number: u64, marks: &[Mark]) -> Option<Refusal>
    ensures { result ≡ no_snapshot number marks.now }
{
    let newest = newest(marks);
    if number == 0 || number > u64::from(newest) {
        return Some(Refusal::NoSuchSnapshot {
            asked: number,
            newest,
        });
    }
    None
}

/// Why a look at a snapshot is refused: for its number, else where it is dropped.
pub fn look_refused(number: u64, marks: &[Mark]) -> Option<Refusal>
    ensures { result ≡ look_refused number marks.now }
{
    if let Some(why) = no_snapshot(number, marks) {
        return Some(why);
    }
    let oldest = oldest(marks);
    if number < u64::from(oldest) {
        return Some(Refusal::Dropped {
            asked: number as u32,
            oldest,
        });
    }
    None
}

/// The refusal of an edit of one page too many.
pub fn too_many() -> Refusal
    ensures { result ≡ TooManyPages (EDITED_PAGES + 1) }
{
    Refusal::TooManyPages {
        needed: EDITED_PAGES + 1,
    }
}

/// Whether there are as many edits as a transaction may have, and none of this page.
pub fn is_one_too_many(edits: &[PageImage], page: u32) -> bool
    requires { IsTrue (rises 0 (pages_of edits.now)) }
    ensures { result ≡ (nat_le EDITED_PAGES (length edits.now) && not (is_among page (pages_of edits.now))) }
{
    edits.len() >= EDITED_PAGES as usize && !has_page(page, edits)
}
