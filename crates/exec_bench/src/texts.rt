//! Replies as text.

use pager::Stop;
use retro_base::Failed;
use std::alloc::{AllocError, Global};
use tables::{Answer, Reply};
use values::{Kind, Value};

/// The text of a reply, or of why there is none.
pub fn text_of(alloc: Global, reply: &Result<Reply, Stop<Failed>>) -> Result<String, AllocError> {
    match reply {
        Ok(Reply::Plain) => String::from_str(alloc, "ok"),
        Ok(Reply::Count(count)) => format!(in alloc; "ok {count}"),
        Ok(Reply::Rows(answer)) => answer_text(alloc, answer),
        Err(Stop::Refused(why)) => format!(in alloc; "refused {why:?}"),
        Err(Stop::Pager(_)) => String::from_str(alloc, "fault"),
    }
}

// The columns of an answer, and its rows.
fn answer_text(alloc: Global, answer: &Answer) -> Result<String, AllocError> {
    let mut text = String::from_str(alloc, "rows of")?;
    for column in answer.columns.as_slice() {
        text.push_str(" ")?;
        push_bytes(&mut text, column.name.bytes())?;
        text.push_str(kind_text(column.kind))?;
    }
    text.push_str(":")?;
    for row in answer.rows.as_slice() {
        push_row(alloc, &mut text, row.as_slice())?;
    }
    Ok(text)
}

fn kind_text(kind: Kind) -> &'static str {
    match kind {
        Kind::Int => " INT",
        Kind::Text => " TEXT",
    }
}

fn push_row(alloc: Global, text: &mut String, row: &[Value]) -> Result<(), AllocError> {
    text.push_str(" [")?;
    for value in row {
        push_value(alloc, text, value)?;
    }
    text.push_str(" ]")
}

fn push_value(alloc: Global, text: &mut String, value: &Value) -> Result<(), AllocError> {
    match value {
        Value::Int(number) => {
            let number = format!(in alloc; " {number}")?;
            text.push_str(number.as_str())
        }
        Value::Text(letters) => {
            text.push_str(" '")?;
            push_bytes(text, letters.bytes())?;
            text.push_str("'")
        }
    }
}

fn push_bytes(text: &mut String, bytes: &[u8]) -> Result<(), AllocError> {
    for byte in bytes {
        text.push(char::from(*byte))?;
    }
    Ok(())
}
