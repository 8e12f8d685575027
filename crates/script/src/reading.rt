//! Reading a script.

ghost use Rattle.std.specs.Prelude.{◌≡◌, ◌≤◌, ◌+◌, IfOk, IfErr, OnOk, length, take};
ghost use Rattle.script.specs.Limits.{ScriptFits};
ghost use Rattle.script.specs.Rules.{IsRefused, IsToldBy};
ghost use Rattle.script.specs.Script.{IsScript, IsOnlyReading};

use crate::draft::ScriptSoFar;
use crate::limits::SCRIPT_BYTES;
use crate::line::read_line;
use crate::structure::Script;
use crate::text::split_line;
use retro_base::Refusal;
use std::alloc::Global;

/// The script that the bytes are. Refused as a bad script, with the number of the first bad line, or for want of
/// memory.
pub fn read(alloc: Global, bytes: &[u8]) -> Result<Script, Refusal>
    ensures found { IfOk result (IsScript bytes.now) }
    ensures only { IfOk result (λ script. IsOnlyReading bytes.now (Ok script)) }
    ensures told { IfOk result (IsToldBy bytes.now) }
    ensures fits { IfOk result ScriptFits }
    ensures short { OnOk result (length bytes.now ≤ SCRIPT_BYTES) }
    ensures refused { IfErr result (IsRefused bytes.now) }
{
    let too_far = bytes.len() > SCRIPT_BYTES;
    let mut rest = first_bytes(bytes);
    let mut draft = ScriptSoFar::Empty;
    let mut number = 1;
    while !rest.is_empty() {
        let (first, more) = split_line(rest);
        let line = read_line(alloc, first, too_far && more.is_empty())?;
        draft = match draft.step(alloc, line)? {
            Some(next) => next,
            None => return Err(Refusal::BadScript { line: number }),
        };
        rest = more;
        number += 1;
    }
    draft.finish(alloc, number)
}

fn first_bytes(bytes: &[u8]) -> &[u8]
    ensures { result.now ≡ take (SCRIPT_BYTES + 1) bytes.now }
{
    if bytes.len() > SCRIPT_BYTES {
        &bytes[..SCRIPT_BYTES + 1]
    } else {
        bytes
    }
}
