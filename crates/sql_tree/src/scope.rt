//! The columns that a column name may stand for.

ghost use Rattle.std.specs.Option.{option_copied, option_map, option_to_list};
ghost use Rattle.std.specs.Prelude.{◌≡◌, ◌++◌, ◌+◌, ◌<◌, ◌^◌, ◌∷◌, [], IfOk, IfSome, OnOk, length, slice_get};
ghost use Rattle.sql_tree.specs.Scope.{chosen, column_place, columns_of, has_column, IsNarrow, kind_at};
ghost use Rattle.sql_tree.specs.Scope.{may_be_of, place_of, place_within, places};

use crate::name::ColumnName;
use crate::schema::TableSchema;
use crate::statement::Column;
use std::alloc::{AllocError, Global};
use std::marker::Model;
use values::{Duplicate, Kind, Name, Seq};

/// The columns of one table, or of two side by side. Contracts see the list of the tables.
#[derive(Debug, Drop)]
pub struct Scope<'a> {
    first: &'a TableSchema,
    second: Option<&'a TableSchema>,
}

impl<'a> Model for Scope<'a> {
    ghost use Rattle.std.specs.Option.{option_copied, option_to_list};
    ghost use Rattle.std.specs.Prelude.{◌∷◌, List, length};
    ghost use Rattle.sql_tree.specs.Scope.{IsNarrow};
    ghost use Rattle.sql_tree.specs.declared.schema.TableSchema.{TableSchema};

    ghost Value = { List TableSchema };

    ghost view = { λ s. s.first.now ∷ option_to_list (option_copied s.second) };

    ghost invariant = { λ s. IsNarrow (length s.first.now.columns) (option_copied s.second) };
}

impl<'a> Scope<'a> {
    /// The columns of one table.
    pub fn of_one(table: &'a TableSchema) -> Scope<'a>
        ensures { result ≡ table.now ∷ [] }
    {
        Scope {
            first: table,
            second: None,
        }
    }

    /// The columns of two tables, those of the first before those of the second.
    pub fn of_two(first: &'a TableSchema, second: &'a TableSchema) -> Scope<'a>
        requires { length first.now.columns + length second.now.columns < 2 ^ 64 }
        ensures { result ≡ first.now ∷ second.now ∷ [] }
    {
        Scope {
            first,
            second: Some(second),
        }
    }

    /// The place of the column so named among the columns of all tables; none where no column is so named, or where
    /// two are by a plain name.
    pub fn place(&self, name: &ColumnName) -> Option<usize>
        ensures { result ≡ place_of self.now name.now }
    {
        let first = place_within(self.first, name);
        let second = place_behind(self.first.columns.len(), self.second, name);
        choose(&name.table, first, second)
    }

    /// Whether a column of one of the tables has the name.
    pub fn has_column(&self, name: &Name) -> bool
        ensures { result ≡ has_column (columns_of self.now) name.now }
    {
        let in_first = has_column(self.first.columns.as_slice(), name);
        match self.second {
            Some(second) => in_first || has_column(second.columns.as_slice(), name),
            None => in_first,
        }
    }

    /// Copies of the columns of all tables.
    pub fn columns(&self, alloc: Global) -> Result<Seq<Column>, AllocError>
        ensures { IfOk result (λ columns. columns ≡ columns_of self.now) }
    {
        let mut columns = self.first.columns.copy(alloc)?;
        if let Some(second) = self.second {
            push_copies(alloc, &mut columns, second.columns.as_slice())?;
        }
        Ok(columns)
    }

    /// The kind of that column.
    pub fn kind(&self, name: &ColumnName) -> Option<Kind>
        ensures { result ≡ kind_at self.now name.now }
    {
        let place = self.place(name)?;
        let first = self.first.columns.as_slice();
        match self.second {
            Some(second) => kind_side_by_side(place, first, second.columns.as_slice()),
            None => kind_side_by_side(place, first, &[]),
        }
    }
}

// Adds copies of the items at the end.
fn push_copies<T: Duplicate + Drop>(
    alloc: Global,
    list: &mut Seq<T>,
    items: &[T],
) -> Result<(), AllocError>
    ensures { OnOk result (list.new ≡ list.old ++ items.now) }
{
    for item in items {
        list.push(item.copy(alloc)?)?;
    }
    Ok(())
}

fn kind_side_by_side(place: usize, first: &[Column], second: &[Column]) -> Option<Kind>
    ensures { result ≡ option_map (λ (c : Column). c.kind) (slice_get (first.now ++ second.now) place) }
{
    let column = side_by_side(place, first, second)?;
    Some(column.kind)
}

/// The item at that place of two lists, one behind the other.
pub fn side_by_side<'a, T>(place: usize, first: &'a [T], second: &'a [T]) -> Option<&'a T>
    ensures { option_copied result ≡ slice_get (first.now ++ second.now) place }
{
    if place < first.len() {
        first.get(place)
    } else {
        second.get(place - first.len())
    }
}

fn place_within(table: &TableSchema, name: &ColumnName) -> Option<usize>
    ensures place { result ≡ place_within table.now name.now }
    ensures bound { IfSome result (λ place. place < length table.now.columns) }
{
    if may_be_of(&name.table, table) {
        column_place(&name.column, table.columns.as_slice())
    } else {
        None
    }
}

fn may_be_of(named: &Option<Name>, table: &TableSchema) -> bool
    ensures { result ≡ may_be_of named.now table.now }
{
    match named {
        Some(named) => table.name == *named,
        None => true,
    }
}

fn has_column(columns: &[Column], name: &Name) -> bool
    ensures { result ≡ has_column columns.now name.now }
{
    columns.iter().any(|column| column.name == *name)
}

/// The place of the first column of that name.
#[tactic(auto, using(crate::proofs::Places::place_bound))]
pub fn column_place(name: &Name, columns: &[Column]) -> Option<usize>
    ensures place { result ≡ column_place name.now columns.now }
    ensures bound { IfSome result (λ place. place < length columns.now) }
{
    columns.iter().position(|column| column.name == *name)
}

fn place_behind(width: usize, table: Option<&TableSchema>, name: &ColumnName) -> Option<usize>
    requires { IsNarrow width (option_copied table) }
    ensures { option_to_list result ≡ places width (option_to_list (option_copied table.entry)) name.now }
{
    match table {
        Some(table) => match place_within(table, name) {
            Some(place) => Some(width + place),
            None => None,
        },
        None => None,
    }
}

// A plain name is that of one column alone; behind a table's name it is that of the first.
fn choose(table: &Option<Name>, first: Option<usize>, second: Option<usize>) -> Option<usize>
    ensures { result ≡ chosen table.now (option_to_list first ++ option_to_list second) }
{
    match (first, second) {
        (Some(place), None) => Some(place),
        (None, second) => second,
        (Some(place), Some(_)) => match table {
            Some(_) => Some(place),
            None => None,
        },
    }
}
