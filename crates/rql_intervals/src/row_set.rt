//! Rows as a set.

ghost use Rattle.std.specs.Prelude.{◌≡◌, IfOk, true};
ghost use Rattle.rql_intervals.specs.Intervals.{has_row, set_of};

use indexmap::IndexSet;
use sql_select::RowKey;
use std::alloc::{AllocError, Global};
use std::marker::Model;
use values::{Row, Seq};

/// Rows, each once, in order of first appearance. Contracts see them as a list.
#[derive(Drop)]
pub(crate) struct RowSet {
    rows: IndexSet<RowKey>,
}

impl Model for RowSet {
    ghost use Rattle.std.specs.Prelude.{List};
    ghost use Rattle.values.specs.declared.value.Value as value;

    ghost Value = { List (List value.Value) };

    ghost view = { λ s. s.rows.keys };
}

impl RowSet {
    /// The different ones of the rows.
    #[tactic(auto, using(crate::proofs::RowSets::inserted_all))]
    pub(crate) fn new(alloc: Global, rows: Seq<Row>) -> Result<RowSet, AllocError>
        ensures { IfOk result (λ set. set ≡ set_of rows) }
    {
        let mut found = IndexSet::new(alloc);
        for row in Vec::from(rows) {
            found.insert(RowKey::new(row))?;
        }
        Ok(RowSet { rows: found })
    }

    pub(crate) fn contains(&self, row: &RowKey) -> bool
        ensures { result ≡ has_row row.now self.now }
    {
        self.rows.contains(row)
    }

    /// Whether the row is among these, as `contains` tells; where it stands at the place, no hash is worked out.
    pub(crate) fn contains_near(&self, place: usize, row: &RowKey) -> bool
        ensures { result ≡ has_row row.now self.now }
    {
        self.has_at(place, row) || self.contains(row)
    }

    fn has_at(&self, place: usize, row: &RowKey) -> bool
        ensures { result ≡ true → has_row row.now self.now ≡ true }
    {
        match self.rows.as_slice().get(place) {
            Some(there) => row == there,
            None => false,
        }
    }

    pub(crate) fn as_slice(&self) -> &[RowKey]
        ensures { result.now ≡ self.now }
    {
        self.rows.as_slice()
    }
}
