//! Rows of an answer, on the way.

use crate::row_key::{feed_row, same_row};
use evaluation::JoinedRow;
use std::hash::{Hash, Hasher};
use values::Row;

/// A row of the answer, beside the joined row of the tables that it stands for (no values where it stands for a group).
/// Two are equal where they have the same outputs.
#[derive(Debug, Drop)]
pub struct OutputRow<'a> {
    pub outputs: Row,
    pub origin: JoinedRow<'a>,
}

impl<'a> PartialEq for OutputRow<'a> {
    ghost use Rattle.sql_select.specs.Groups.{same_outputs};
    ghost use Rattle.std.specs.Cmp.{partial_equiv_from_equiv};
    ghost use Rattle.sql_select.specs.SameOutputs.{same_outputs_equiv};

    ghost eq = { same_outputs };

    ghost laws = { partial_equiv_from_equiv same_outputs_equiv };

    fn eq(&self, other: &OutputRow<'a>) -> bool {
        same_row(self.outputs.as_slice(), other.outputs.as_slice())
    }
}

impl<'a> Eq for OutputRow<'a> {
    ghost use Rattle.sql_select.specs.SameOutputs.{same_outputs_equiv};

    ghost laws = { same_outputs_equiv };
}

impl<'a> Hash for OutputRow<'a> {
    ghost use Rattle.sql_select.specs.SameOutputs.{output_writes, same_outputs_feed_alike};

    ghost hash_input = { output_writes };

    ghost respects_eq = { same_outputs_feed_alike };

    fn hash<H: Hasher>(&self, state: &mut H) {
        feed_row(self.outputs.as_slice(), state);
    }
}
