//! What follows from the meaning of statements.

ghost use Rattle.tables.specs.Checked.{CheckedSelectsAnswer};
ghost use Rattle.tables.specs.Laws.{CreatedIsEmpty, GoneStaysGone, InsertedAreLast};
ghost use Rattle.tables.specs.Laws.{OthersStay, TablesStaySound, UpdatedKeepPlaces};

/// After `CREATE TABLE`, `SELECT *` gives the new table's columns, and no rows.
pub fn created_is_empty()
    ensures { CreatedIsEmpty }
{}

/// After `INSERT`, `SELECT *` gives the rows as before it, and then those of the insert, in their order.
pub fn inserted_are_last()
    ensures { InsertedAreLast }
{}

/// After a statement about another table, `SELECT *` gives what it gave before.
pub fn others_stay()
    ensures { OthersStay }
{}

/// Tables stay sound, and each row of an answer has one value of each column's kind.
pub fn tables_stay_sound()
    ensures { TablesStaySound }
{}

/// An `UPDATE` leaves each row its number and its place.
pub fn updated_keep_places()
    ensures { UpdatedKeepPlaces }
{}

/// A row number that was given and that no row has any more is never given again.
pub fn gone_stays_gone()
    ensures { GoneStaysGone }
{}

/// Where its names are known and its types are right, a select has an answer whose rows fit its columns, unless a
/// number leaves i64.
pub fn checked_selects_answer()
    ensures { CheckedSelectsAnswer }
{}
