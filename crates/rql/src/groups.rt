//! Rows in groups, of which tallies are kept in place of the rows.

ghost use Rattle.std.specs.Prelude.{◌≡◌, ◌∷◌, [], IfErr, IfOk, OnOk};
ghost use Rattle.rql.specs.AsOf.{IsOfQuery};
ghost use Rattle.rql.specs.Groups.{AreGroups, AreRowsOf, CellAdds, GroupAdds};
ghost use Rattle.rql.specs.Groups.{IsCell, IsGroup, IsRowOf, IsValueOf, RowAdds};
ghost use Rattle.rql.specs.Table.{key_of};

use crate::function::Function;
use crate::tally::Tally;
use fold_kit::Folds;
use indexmap::IndexSet;
use retro_base::Refusal;
use sql_select::RowKey;
use std::alloc::{AllocError, Global};
use values::{Duplicate, Row, Seq, Value};

/// A column of a group: its value at the first row, and the tally of its values where it has a function.
#[derive(Drop)]
pub(crate) struct Cell {
    pub function: Option<Function>,
    pub first: Option<Value>,
    pub tally: Tally,
}

/// A group of rows, by columns.
#[derive(Drop)]
pub(crate) struct Group {
    pub cells: Vec<Cell>,
}

/// Groups of rows by their keys, in order of first appearance.
#[derive(Drop)]
pub(crate) struct Groups {
    pub functions: Vec<Option<Function>>,
    pub keys: IndexSet<RowKey>,
    pub groups: Vec<Group>,
}

// The values of a row in the columns without a function.
fn key_of(alloc: Global, functions: &[Option<Function>], row: &[Value]) -> Result<Row, AllocError>
    ensures { IfOk result (λ key. key ≡ key_of functions.now row.now) }
{
    let mut key = Vec::new(alloc);
    for (function, value) in functions.iter().zip(row) {
        if function.is_none() {
            key.push(value.copy(alloc)?)?;
        }
    }
    Ok(Seq::from(key))
}

impl Cell {
    // The cell of a first row in the column at the place.
    fn new<F: Folds>(
        alloc: Global,
        folds: &F,
        function: Option<Function>,
        place: usize,
        row: &[Value],
    ) -> Result<Cell, AllocError>
        ensures { IfOk result (λ cell. IsCell place function cell (row.now ∷ [])) }
    {
        let mut cell = Cell {
            function,
            first: None,
            tally: Tally::new(),
        };
        let Some(value) = row.get(place) else {
            return Ok(cell);
        };
        let Some(function) = function else {
            cell.first = Some(value.copy(alloc)?);
            return Ok(cell);
        };
        cell.tally.add(alloc, folds, function, value)?;
        Ok(cell)
    }

    // Adds a row's value in the column at the place.
    fn add<F: Folds>(
        &mut self,
        alloc: Global,
        folds: &F,
        place: usize,
        row: &[Value],
    ) -> Result<(), AllocError>
        ensures { OnOk result (CellAdds place row.now self.old self.new) }
    {
        let Some(function) = self.function else {
            return Ok(());
        };
        let Some(value) = row.get(place) else {
            return Ok(());
        };
        self.tally.add(alloc, folds, function, value)?;
        Ok(())
    }

    // The value that stands for the group.
    fn finish(self) -> Result<Option<Value>, Refusal>
        ensures exact { IsValueOf self result }
        ensures named { IfErr result IsOfQuery }
    {
        match self.function {
            None => Ok(self.first),
            Some(function) => self.tally.finish(function),
        }
    }
}

impl Group {
    // The group of one row.
    fn new<F: Folds>(
        alloc: Global,
        folds: &F,
        functions: &[Option<Function>],
        row: &[Value],
    ) -> Result<Group, AllocError>
        ensures { IfOk result (λ group. IsGroup functions.now group (row.now ∷ [])) }
    {
        let mut cells = Vec::with_capacity(alloc, functions.len())?;
        for (place, function) in functions.iter().enumerate() {
            cells.push(Cell::new(alloc, folds, *function, place, row)?)?;
        }
        Ok(Group { cells })
    }

    // Adds a row to the group.
    fn add<F: Folds>(&mut self, alloc: Global, folds: &F, row: &[Value]) -> Result<(), AllocError>
        ensures { OnOk result (GroupAdds row.now self.old self.new) }
    {
        for place in 0..self.cells.len() {
            self.cells[place].add(alloc, folds, place, row)?;
        }
        Ok(())
    }

    // The row that stands for the group.
    fn finish(self, alloc: Global) -> Result<Row, Refusal>
        ensures exact { IsRowOf self result }
        ensures named { IfErr result IsOfQuery }
    {
        let mut values = Vec::with_capacity(alloc, self.cells.len())?;
        for cell in self.cells {
            if let Some(value) = cell.finish()? {
                values.push(value)?;
            }
        }
        Ok(Seq::from(values))
    }
}

impl Groups {
    /// No groups, of rows whose columns have these functions.
    pub(crate) fn new(alloc: Global, functions: Vec<Option<Function>>) -> Groups
        ensures { AreGroups functions.items result [] }
    {
        let keys = IndexSet::new(alloc);
        let groups = Vec::new(alloc);
        Groups {
            functions,
            keys,
            groups,
        }
    }

    /// Adds a row to its group.
    pub(crate) fn add<F: Folds>(
        &mut self,
        alloc: Global,
        folds: &F,
        row: &[Value],
    ) -> Result<(), AllocError>
        ensures { OnOk result (RowAdds row.now self.old self.new) }
    {
        let key = key_of(alloc, &self.functions, row)?;
        let (place, _) = self.keys.insert_full(RowKey::new(key))?;
        if place < self.groups.len() {
            self.groups[place].add(alloc, folds, row)?;
            return Ok(());
        }
        let group = Group::new(alloc, folds, &self.functions, row)?;
        self.groups.push(group)?;
        Ok(())
    }

    /// The rows that stand for the groups.
    pub(crate) fn finish(self, alloc: Global) -> Result<Seq<Row>, Refusal>
        ensures exact { AreRowsOf self result }
        ensures named { IfErr result IsOfQuery }
    {
        let mut rows = Vec::with_capacity(alloc, self.groups.len())?;
        for group in self.groups {
            rows.push(group.finish(alloc)?)?;
        }
        Ok(Seq::from(rows))
    }
}
