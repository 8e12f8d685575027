//! The entries of rows in the indexes that a table keeps, drafted.

ghost use Rattle.std.specs.Prelude.{◌≡◌, IfOk, Ok};
ghost use Rattle.std.specs.Ordering.{is_eq};
ghost use Rattle.pager.specs.Draft.{Drafts};
ghost use Rattle.pager.specs.Stop.{OnlyDrafts};
ghost use Rattle.values.specs.Value.{value_cmp};
ghost use Rattle.pager.specs.Allows.{in_turn};
ghost use Rattle.relation.specs.Entries.{edit_of, entries_edited, entries_of, entry_edited, entry_in, entry_of};
ghost use Rattle.relation.specs.Entries.{entry_out, in_order, row_moved, rows_listed, rows_moved, value_stays};

use crate::catalog::StoredIndex;
use heap_file::Placed;
use pager::{Draft, Found, Index, Pager, Stop, compare_found};
use std::alloc::{AllocError, Global};
use values::{Duplicate, Value, compare};

/// What is done with an entry.
#[derive(Clone, Copy)]
pub enum EntryEdit {
    Add,
    Remove,
}

/// What became of a row: how it stood, and how it stands now.
#[derive(Drop)]
pub struct Moved {
    pub was: Placed,
    pub becomes: Placed,
}

// The entry of a row in an index over the column at that place. None where the row has no such column.
fn entry_of(alloc: Global, place: u32, placed: &Placed) -> Result<Option<Found>, AllocError>
    ensures { IfOk result (λ entry. entry ≡ entry_of place placed.now) }
{
    match placed.row.as_slice().get(place as usize) {
        Some(value) => Ok(Some(Found {
            value: value.copy(alloc)?,
            number: placed.number,
            page: placed.page,
        })),
        None => Ok(None),
    }
}

/// The entries of rows in an index over the column at that place, in order of the rows.
pub fn entries_of(alloc: Global, place: u32, rows: &[Placed]) -> Result<Vec<Found>, AllocError>
    ensures { IfOk result (λ entries. entries.items ≡ entries_of place rows.now) }
{
    let mut entries = Vec::with_capacity(alloc, rows.len())?;
    for placed in rows {
        if let Some(entry) = entry_of(alloc, place, placed)? {
            entries.push(entry)?;
        }
    }
    Ok(entries)
}

// Drafts an edit of the index with that root page by an entry, where there is one.
fn edit_entry<I: Index, P: Pager>(
    alloc: Global,
    pager: &mut P,
    draft: &mut Draft,
    edit: EntryEdit,
    root: u32,
    entry: Option<Found>,
) -> Result<(), Stop<P::Fault>>
    requires { draft.old.size ≡ P.size pager.old }
    ensures edited { Drafts (λ u. u) (P.tells pager.new) draft.old.list draft.new.list
        (entry_edited (edit_of I.added I.removed edit) draft.old.size root entry) result }
    ensures only_drafts { OnlyDrafts P.tells P.goes P.size P.faults pager.old pager.new result }
    ensures size { draft.new.size ≡ draft.old.size }
{
    let Some(entry) = entry else {
        return Ok(());
    };
    let index = I::at(root);
    match edit {
        EntryEdit::Add => index.add_in(alloc, pager, draft, &entry),
        EntryEdit::Remove => index.remove_in(alloc, pager, draft, &entry),
    }
}

/// Entries in order of value and then of row number.
pub fn in_order(entries: Vec<Found>) -> Result<Vec<Found>, AllocError>
    ensures { IfOk result (λ sorted. in_order entries.items (Ok sorted.items)) }
{
    let mut entries = entries;
    entries.sort_by(|a, b| compare_found(a, b))?;
    Ok(entries)
}

/// Drafts that an index is edited by these entries, in order.
pub fn edit_entries<I: Index, P: Pager>(
    alloc: Global,
    pager: &mut P,
    draft: &mut Draft,
    edit: EntryEdit,
    root: u32,
    entries: &[Found],
) -> Result<(), Stop<P::Fault>>
    requires { draft.old.size ≡ P.size pager.old }
    ensures edited { Drafts (λ u. u) (P.tells pager.new) draft.old.list draft.new.list
        (entries_edited (edit_of I.added I.removed edit) draft.old.size root entries.now) result }
    ensures only_drafts { OnlyDrafts P.tells P.goes P.size P.faults pager.old pager.new result }
    ensures size { draft.new.size ≡ draft.old.size }
{
    match edit {
        EntryEdit::Add => I::at(root).add_all_in(alloc, pager, draft, entries),
        EntryEdit::Remove => remove_entries::<I, P>(alloc, pager, draft, root, entries),
    }
}

// Drafts that these entries are taken out of an index, in order.
fn remove_entries<I: Index, P: Pager>(
    alloc: Global,
    pager: &mut P,
    draft: &mut Draft,
    root: u32,
    entries: &[Found],
) -> Result<(), Stop<P::Fault>>
    requires { draft.old.size ≡ P.size pager.old }
    ensures removed { Drafts (λ u. u) (P.tells pager.new) draft.old.list draft.new.list
        (entries_edited I.removed draft.old.size root entries.now) result }
    ensures only_drafts { OnlyDrafts P.tells P.goes P.size P.faults pager.old pager.new result }
    ensures size { draft.new.size ≡ draft.old.size }
{
    let index = I::at(root);
    for entry in entries {
        index.remove_in(alloc, pager, draft, entry)?;
    }
    Ok(())
}

// Drafts that an index is edited by the entries of these rows, in order.
fn list_in<I: Index, P: Pager>(
    alloc: Global,
    pager: &mut P,
    draft: &mut Draft,
    edit: EntryEdit,
    index: StoredIndex,
    rows: &[Placed],
) -> Result<(), Stop<P::Fault>>
    requires { draft.old.size ≡ P.size pager.old }
    ensures edited { Drafts (λ u. u) (P.tells pager.new) draft.old.list draft.new.list
        (entries_edited (edit_of I.added I.removed edit) draft.old.size index.root (entries_of index.place rows.now))
        result }
    ensures only_drafts { OnlyDrafts P.tells P.goes P.size P.faults pager.old pager.new result }
    ensures size { draft.new.size ≡ draft.old.size }
{
    let entries = entries_of(alloc, index.place, rows)?;
    edit_entries::<I, P>(alloc, pager, draft, edit, index.root, &entries)
}

/// Drafts that each of these indexes is edited by the entries of these rows, in order.
pub fn list_rows<I: Index, P: Pager>(
    alloc: Global,
    pager: &mut P,
    draft: &mut Draft,
    edit: EntryEdit,
    indexes: &[StoredIndex],
    rows: &[Placed],
) -> Result<(), Stop<P::Fault>>
    requires { draft.old.size ≡ P.size pager.old }
    ensures edited { Drafts (λ u. u) (P.tells pager.new) draft.old.list draft.new.list
        (rows_listed (edit_of I.added I.removed edit) draft.old.size indexes.now rows.now) result }
    ensures only_drafts { OnlyDrafts P.tells P.goes P.size P.faults pager.old pager.new result }
    ensures size { draft.new.size ≡ draft.old.size }
{
    for index in indexes {
        list_in::<I, P>(alloc, pager, draft, edit, *index, rows)?;
    }
    Ok(())
}

// Whether a row has the value still that it had in the column at that place.
fn value_stays(place: u32, moved: &Moved) -> bool
    ensures { result ≡ value_stays place moved.now }
{
    let place = place as usize;
    let was = moved.was.row.as_slice().get(place);
    let becomes = moved.becomes.row.as_slice().get(place);
    match (was, becomes) {
        (Some(was), Some(becomes)) => is_one_value(was, becomes),
        _ => false,
    }
}

// Whether two values are one.
fn is_one_value(a: &Value, b: &Value) -> bool
    ensures { result ≡ is_eq (value_cmp a.now b.now) }
{
    a.kind() == b.kind() && compare(a, b).is_eq()
}

// The entry that is taken out as a row moves.
fn entry_out(alloc: Global, place: u32, moved: &Moved) -> Result<Option<Found>, AllocError>
    ensures { IfOk result (λ entry. entry ≡ entry_out place moved.now) }
{
    if value_stays(place, moved) {
        return Ok(None);
    }
    entry_of(alloc, place, &moved.was)
}

// The entry that is added then.
fn entry_in(alloc: Global, place: u32, moved: &Moved) -> Result<Option<Found>, AllocError>
    ensures { IfOk result (λ entry. entry ≡ entry_in place moved.now) }
{
    if value_stays(place, moved) && moved.was.page == moved.becomes.page {
        return Ok(None);
    }
    entry_of(alloc, place, &moved.becomes)
}

// Drafts that an index follows what became of a row.
fn move_row<I: Index, P: Pager>(
    alloc: Global,
    pager: &mut P,
    draft: &mut Draft,
    index: StoredIndex,
    moved: &Moved,
) -> Result<(), Stop<P::Fault>>
    requires { draft.old.size ≡ P.size pager.old }
    ensures moved { Drafts (λ u. u) (P.tells pager.new) draft.old.list draft.new.list
        (row_moved I.added I.removed draft.old.size index moved.now) result }
    ensures only_drafts { OnlyDrafts P.tells P.goes P.size P.faults pager.old pager.new result }
    ensures size { draft.new.size ≡ draft.old.size }
{
    let out = entry_out(alloc, index.place, moved)?;
    edit_entry::<I, P>(alloc, pager, draft, EntryEdit::Remove, index.root, out)?;
    let more = entry_in(alloc, index.place, moved)?;
    edit_entry::<I, P>(alloc, pager, draft, EntryEdit::Add, index.root, more)
}

// Drafts that an index follows what became of these rows, in order.
fn move_in<I: Index, P: Pager>(
    alloc: Global,
    pager: &mut P,
    draft: &mut Draft,
    index: StoredIndex,
    moves: &[Moved],
) -> Result<(), Stop<P::Fault>>
    requires { draft.old.size ≡ P.size pager.old }
    ensures moved { Drafts (λ u. u) (P.tells pager.new) draft.old.list draft.new.list
        (in_turn (row_moved I.added I.removed draft.old.size index) moves.now) result }
    ensures only_drafts { OnlyDrafts P.tells P.goes P.size P.faults pager.old pager.new result }
    ensures size { draft.new.size ≡ draft.old.size }
{
    for moved in moves {
        move_row::<I, P>(alloc, pager, draft, index, moved)?;
    }
    Ok(())
}

/// Drafts that each of these indexes follows what became of these rows, in order.
pub fn move_rows<I: Index, P: Pager>(
    alloc: Global,
    pager: &mut P,
    draft: &mut Draft,
    indexes: &[StoredIndex],
    moves: &[Moved],
) -> Result<(), Stop<P::Fault>>
    requires { draft.old.size ≡ P.size pager.old }
    ensures moved { Drafts (λ u. u) (P.tells pager.new) draft.old.list draft.new.list
        (rows_moved I.added I.removed draft.old.size indexes.now moves.now) result }
    ensures only_drafts { OnlyDrafts P.tells P.goes P.size P.faults pager.old pager.new result }
    ensures size { draft.new.size ≡ draft.old.size }
{
    for index in indexes {
        move_in::<I, P>(alloc, pager, draft, *index, moves)?;
    }
    Ok(())
}
