//! Rows at their first appearance, and rows in groups.

ghost use Rattle.std.specs.Prelude.{◌≡◌, ◌++◌, ◌∷◌, [], IfErr, IfOk, OnOk};
ghost use Rattle.indexmap.specs.IndexSet.{insert_key};
ghost use Rattle.std.specs.List.{position_or_len};
ghost use Rattle.retro_base.specs.declared.refusal.Refusal.TheVariants.{OutOfMemory};
ghost use Rattle.sql_select.specs.Groups.{distinct, groups, with_member};

use crate::output_row::OutputRow;
use crate::row_key::RowKey;
use evaluation::JoinedRow;
use indexmap::IndexSet;
use retro_base::Refusal;
use std::alloc::Global;
use values::{Row, Seq};

/// A row beside the values that say which group it is in.
#[derive(Debug, Drop)]
pub struct KeyedRow<'a> {
    pub key: Row,
    pub row: JoinedRow<'a>,
}

/// The first of the rows with the same outputs.
pub(crate) fn distinct<'a>(
    alloc: Global,
    rows: Vec<OutputRow<'a>>,
) -> Result<Vec<OutputRow<'a>>, Refusal>
    ensures rows { IfOk result (λ found. found.items ≡ distinct rows.entry.items) }
    ensures memory { IfErr result (λ why. why ≡ OutOfMemory) }
{
    let mut firsts = IndexSet::new(alloc);
    for row in rows {
        firsts.insert(row)?;
    }
    let mut found = Vec::with_capacity(alloc, firsts.len())?;
    for row in firsts {
        found.push(row)?;
    }
    Ok(found)
}

/// One group of rows for each key, in order of first appearance. Refused for want of memory alone.
pub fn groups<'a>(
    alloc: Global,
    rows: Vec<KeyedRow<'a>>,
) -> Result<Vec<Seq<JoinedRow<'a>>>, Refusal>
    ensures rows { IfOk result (λ found. found.items ≡ groups rows.entry.items) }
    ensures memory { IfErr result (λ why. why ≡ OutOfMemory) }
{
    let mut keys = IndexSet::new(alloc);
    let mut found = Vec::new(alloc);
    for keyed in rows {
        let (place, _) = keys.insert_full(RowKey::new(keyed.key))?;
        add_member(alloc, &mut found, place, keyed.row)?;
    }
    Ok(found)
}

// Adds a row to the group at the place, or to a new group behind them all where none stands there.
fn add_member<'a>(
    alloc: Global,
    groups: &mut Vec<Seq<JoinedRow<'a>>>,
    place: usize,
    row: JoinedRow<'a>,
) -> Result<(), Refusal>
    ensures rows { OnOk result (groups.new.items ≡ with_member groups.old.items place row.entry) }
    ensures memory { IfErr result (λ why. why ≡ OutOfMemory) }
{
    if place < groups.len() {
        let group = &mut groups[place];
        group.push(row)?;
    } else {
        let mut group = Seq::new(alloc);
        group.push(row)?;
        groups.push(group)?;
    }
    Ok(())
}
