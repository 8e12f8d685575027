//! The rows of an answer, as `csv` writes them.

ghost use Rattle.std.specs.Prelude.{◌≡◌, ◌++◌, ◌∷◌, [], IfOk, OnOk, map};
ghost use Rattle.csv.specs.Records.{fields_of, partial_of};
ghost use Rattle.std.specs.List.{AllByRecursion};
ghost use Rattle.session.specs.Rows.{IsShown, row_lines};
ghost use Rattle.values.specs.Value.{text_of};

use csv::{ByteRecord, WriterBuilder};
use itoa::Buffer;
use std::alloc::{AllocError, Global};
use values::{Row, Value};

// Appends an integer in decimal as a field, all of it printable.
fn push_digits(out: &mut ByteRecord, number: i64) -> Result<(), AllocError>
    ensures fields { OnOk result (fields_of out.new
        ≡ fields_of out.old ++ ((partial_of out.old ++ text_of (Value.Int number)) ∷ [])) }
    ensures whole { OnOk result (partial_of out.new ≡ []) }
    ensures shown { OnOk result (IsShown (Value.Int number)) }
{
    let mut digits = Buffer::new();
    out.push_field(digits.format(number).as_bytes())
}

// Appends the text of a value as a field, all of it printable.
fn push_text(out: &mut ByteRecord, value: &Value) -> Result<(), AllocError>
    ensures fields { OnOk result (fields_of out.new
        ≡ fields_of out.old ++ ((partial_of out.old ++ text_of value.now) ∷ [])) }
    ensures whole { OnOk result (partial_of out.new ≡ []) }
    ensures shown { OnOk result (IsShown value.now) }
{
    match value {
        Value::Int(number) => push_digits(out, *number),
        Value::Text(text) => out.push_field(text.bytes()),
    }
}

// Makes the texts of a row's values the fields of a record.
fn fill(out: &mut ByteRecord, row: &Row) -> Result<(), AllocError>
    ensures fields { OnOk result (fields_of out.new ≡ map text_of row.now) }
    ensures shown { OnOk result (AllByRecursion IsShown row.now) }
{
    out.clear();
    for value in row.as_slice() {
        push_text(out, value)?;
    }
    Ok(())
}

// The rows, a line each, by one writer and one record. Over memory it is refused for want of memory alone.
#[tactic(auto, using(crate::proofs::Quoting::row_same))]
fn rows_bytes(alloc: Global, rows: &[Row]) -> Result<Vec<u8>, AllocError>
    ensures { IfOk result (λ bytes. bytes.items ≡ row_lines rows.now) }
{
    let mut writer = WriterBuilder::new().from_writer(Vec::new(alloc));
    let mut record = ByteRecord::new(alloc);
    for row in rows {
        fill(&mut record, row)?;
        if writer.write_byte_record(&record).is_err() {
            return Err(AllocError);
        }
    }
    match writer.into_inner() {
        Ok(bytes) => Ok(bytes),
        Err(_) => Err(AllocError),
    }
}

/// Appends the rows, a line each.
pub fn write_rows(alloc: Global, rows: &[Row], out: &mut Vec<u8>) -> Result<(), AllocError>
    ensures { OnOk result (out.new.items ≡ out.old.items ++ row_lines rows.now) }
{
    let bytes = rows_bytes(alloc, rows)?;
    out.extend_from_slice(bytes.as_slice())?;
    Ok(())
}
