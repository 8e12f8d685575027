//! What the calls on tables by name do to the tables of well-formed pages.
#![tactic(auto)]

ghost use Rattle.relation_laws.specs.Work.{WorkLaw};
ghost use Rattle.relation_laws.specs.Laws.{CreateLaw, DeleteLaw, EditsLaw, IndexLaw, InsertLaw, NeedsLaw};
ghost use Rattle.relation_laws.specs.Laws.{PlacedLaw, RangedLaw, ReadLaw, StoreLaw, UpdateLaw};

/// Well-formed pages hold one list of tables, and zero pages hold none.
pub fn store_law()
    ensures { StoreLaw }
{}

/// The schema, the rows and the next row numbers are those of the tables, and reading them is never refused.
pub fn read_law()
    ensures { ReadLaw }
{}

/// The rows of an insert stand last in their table, in order, under the next row numbers; all else is as it was. An
/// insert is refused only for want of pages.
pub fn insert_law()
    ensures { InsertLaw }
{}

/// The rows of a delete are taken out, and no other; the next row number stays, so that no number comes again. A delete
/// of a table's rows is never refused.
pub fn delete_law()
    ensures { DeleteLaw }
{}

/// The rows of an update are changed under their numbers, and no other. An update of a table's rows is refused only for
/// want of pages.
pub fn update_law()
    ensures { UpdateLaw }
{}

/// The tables after a table is made are those before and, as the last, one of that name and those columns without rows.
/// It is refused only for want of pages.
pub fn create_law()
    ensures { CreateLaw }
{}

/// The indexes after an index is made are those before and, as the last, one of that name over that column of its
/// table; all else is as it was. It is refused only for want of pages.
pub fn index_law()
    ensures { IndexLaw }
{}

/// Rows that are added to a table edit its first page, for the next row number, its last page, and no other, unless
/// they open pages: then also those, and the root page.
pub fn edits_law()
    ensures { EditsLaw }
{}

/// An insert takes the pages that its rows open at the end of the table, an update those that its rows open where
/// neither their page nor the last page has room, and both those that the table's indexes open as the rows turn. A new
/// table takes its first page and those that its rows open in the catalog, and an index its root page, those that its
/// row opens there and those that the table's rows open in it. Each is refused exactly where fewer are free.
pub fn needs_law()
    ensures { NeedsLaw }
{}

/// A piece of work needs one number of pages, leaves the tables behind it, and edits only pages of its reach; it is
/// refused exactly where it needs more pages than can be taken. So do several, one after the other.
pub fn work_law()
    ensures { WorkLaw }
{}

/// Rows that are changed or taken out where they stand, as reading their table told, are so under their numbers.
pub fn placed_law()
    ensures { PlacedLaw }
{}

/// The rows that an index lists from a value to another are those of its table, in rising number, whose value in the
/// column lies there.
pub fn ranged_law()
    ensures { RangedLaw }
{}
