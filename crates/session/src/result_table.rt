//! The result tables of a session.

ghost use Rattle.std.specs.Prelude.{◌≡◌, ◌∷◌, OnOk};
ghost use Rattle.session.specs.Held.{GiveAlike, held};

use sql_select::Answer;
use std::alloc::AllocError;
use std::collections::BTreeMap;
use values::Name;

/// What a call left under its name.
#[derive(Debug, Drop)]
pub struct ResultTable {
    pub name: Name,
    pub answer: Answer,
}

/// What calls left, of each name the last.
pub type ResultTables = BTreeMap<Name, Answer>;

/// Holds a result table, in place of an older one of its name.
pub fn hold(tables: &mut ResultTables, table: ResultTable) -> Result<(), AllocError>
    ensures { OnOk result (GiveAlike (held tables.new) (table ∷ held tables.old)) }
{
    tables.insert(table.name, table.answer)?;
    Ok(())
}
