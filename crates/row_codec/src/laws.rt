//! What follows of the encoding of rows.

ghost use Rattle.row_codec.specs.RowCode.{OneRow, RowSize};

/// Bytes are the encoding of one row under one number alone.
#[tactic(auto, using(crate::proofs::Codes::one_row))]
pub fn one_row()
    ensures { OneRow }
{}

/// The encoding of a row takes as many bytes as `values::row_bytes` counts.
#[tactic(auto, using(crate::proofs::Codes::row_size))]
pub fn row_size()
    ensures { RowSize }
{}
