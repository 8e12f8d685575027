//! Lines of the journal, and room for those that close what is open.

ghost use Rattle.std.specs.Prelude.{◌≡◌, ◌+◌, ◌++◌, ◌∷◌, [], IfErr, OnErr, OnOk};
ghost use Rattle.journal_book.specs.Book.{writes_of};
ghost use Rattle.journal_law.specs.Seats.{closing, unlooking};
ghost use Rattle.plain_store.specs.Limits.{IsNoRoom};
ghost use Rattle.plain_store.specs.Plain.{kept_of};

use history::{FailedCall, Line, What};
use journal_book::Book;
use journal_law::Ending;
use retro_base::{EDITED_PAGES, Refusal};

/// Adds a line that opens something, with room for the line that closes it. JournalFull where there is no room for
/// both; else refused for want of memory alone.
pub fn open_line(book: &mut Book, line: Line) -> Result<(), Refusal>
    requires { writes_of line.what ≡ [] }
    ensures done { OnOk result (book.new ≡ record book.old
        { lines = book.old.lines ++ line ∷ []; kept = book.old.kept + 1 }) }
    ensures refused { IfErr result (IsNoRoom book.old 2) }
    ensures stays { OnErr result (book.new ≡ book.old) }
{
    if let Some(why) = book.lines_refused(2) {
        return Err(why);
    }
    book.keep_lines(2)?;
    book.close(line);
    Ok(())
}

/// Adds a line that neither opens nor closes. JournalFull where there is no room for it; else refused for want of
/// memory alone.
pub fn add_line(book: &mut Book, line: Line) -> Result<(), Refusal>
    requires { writes_of line.what ≡ [] }
    ensures done { OnOk result (book.new ≡ record book.old { lines = book.old.lines ++ line ∷ [] }) }
    ensures refused { IfErr result (IsNoRoom book.old 1) }
    ensures stays { OnErr result (book.new ≡ book.old) }
{
    if let Some(why) = book.lines_refused(1) {
        return Err(why);
    }
    book.keep_lines(1)?;
    book.close(line);
    Ok(())
}

/// What the line says that ends a look.
pub fn unlooking(why: Ending) -> What
    ensures { result ≡ unlooking why }
{
    match why {
        Ending::Asked => What::Unlooked,
        Ending::Refused(why) => What::Refused { why },
        Ending::Failed { device, count } => What::Fault {
            device,
            count,
            call: FailedCall::Read,
        },
    }
}

/// What the line says that ends a transaction without its edits, one too many of which was refused or not.
pub fn closing(too_many: bool, why: Ending) -> What
    ensures { result ≡ closing (kept_of too_many) why }
{
    if too_many {
        return What::Refused {
            why: Refusal::TooManyPages {
                needed: EDITED_PAGES + 1,
            },
        };
    }
    match why {
        Ending::Asked => What::RolledBack,
        other => unlooking(other),
    }
}
