//! The texts of replies.

ghost use Rattle.std.specs.Prelude.{◌≡◌, ◌++◌, OnOk};
ghost use Rattle.session.specs.Texts.{answer_text, reply_text};

use crate::rows::write_rows;
use std::alloc::{AllocError, Global};
use tables::{Answer, Reply};

/// Appends the reply of a select.
pub fn write_answer(alloc: Global, answer: &Answer, out: &mut Vec<u8>) -> Result<(), AllocError>
    ensures { OnOk result (out.new.items ≡ out.old.items ++ answer_text answer.now) }
{
    let count = answer.rows.len();
    let head = format!(in alloc; "rows {count}\n")?;
    out.extend_from_slice(head.as_bytes())?;
    write_rows(alloc, answer.rows.as_slice(), out)
}

/// Appends the reply of a statement that was not refused.
pub fn write_reply(alloc: Global, reply: &Reply, out: &mut Vec<u8>) -> Result<(), AllocError>
    ensures { OnOk result (out.new.items ≡ out.old.items ++ reply_text reply.now) }
{
    match reply {
        Reply::Plain => out.extend_from_slice(b"ok\n"),
        Reply::Count(count) => {
            let text = format!(in alloc; "ok {count}\n")?;
            out.extend_from_slice(text.as_bytes())
        }
        Reply::Rows(answer) => write_answer(alloc, answer, out),
    }
}
