//! What a script asks for.

ghost use Rattle.std.specs.Prelude.{◌≡◌, ◌≤◌, IfOk, OnOk, length, string_bytes};
ghost use Rattle.session.specs.Plan.{PlanFits};
ghost use Rattle.retro.specs.Asked.{BytesAsk, IsAsked, RefusesScript};
ghost use Rattle.retro.specs.Says.{IsOfKept, bad_script_line as bad_script_text, number_of};
ghost use Rattle.retro.specs.Seen.{seen};

use crate::saying::{Status, lack_memory, say};
use feeds::{ReadError, Sink, Source, read_front};
use retro_base::Refusal;
use script::{SCRIPT_BYTES, front_law};
use session::{Plan, plan_of};
use std::alloc::{AllocError, Global};

/// Why a script asks for nothing.
#[derive(Clone, Copy, Debug, PartialEq, Eq)]
pub enum NoPlan {
    /// Its source failed.
    SourceFault,
    /// It is first bad at the line of this number.
    BadScript { line: u64 },
    /// Memory ran out.
    OutOfMemory,
}

impl From<AllocError> for NoPlan {
    ghost use Rattle.std.specs.Prelude.{◌≡◌};
    ghost use Rattle.retro.specs.declared.asking.NoPlan.TheVariants.{OutOfMemory};

    ghost from_gives = { λ _ why. why ≡ OutOfMemory };

    fn from(_error: AllocError) -> NoPlan {
        NoPlan::OutOfMemory
    }
}

/// What the script that these bytes are asks for, or why they ask for nothing.
pub fn plan_in(alloc: Global, bytes: &[u8]) -> Result<Plan, NoPlan>
    ensures asks { BytesAsk bytes.now result }
    ensures fits { IfOk result (λ plan. PlanFits plan) }
    ensures short { OnOk result (length bytes.now ≤ SCRIPT_BYTES) }
{
    match script::read(alloc, bytes) {
        Ok(script) => {
            let plan = plan_of(alloc, script)?;
            Ok(plan)
        }
        Err(Refusal::BadScript { line }) => Err(NoPlan::BadScript { line }),
        Err(Refusal::OutOfMemory) => Err(NoPlan::OutOfMemory),
        Err(_) => unreachable!(),
    }
}

/// What the script that the source gives asks for, or why it asks for nothing.
pub fn plan_from<S: Source>(alloc: Global, source: &mut S) -> Result<Plan, NoPlan>
    ensures asked { IsAsked (seen S.left S.faults source.old source.new) result }
    ensures fits { IfOk result (λ plan. PlanFits plan) }
{
    let bytes = match read_front(alloc, source, SCRIPT_BYTES + 1) {
        Ok(bytes) => bytes,
        Err(ReadError::Source) => return Err(NoPlan::SourceFault),
        Err(ReadError::Memory) => return Err(NoPlan::OutOfMemory),
    };
    // A law for the proof: what stands behind these bytes changes nothing.
    front_law();
    plan_in(alloc, bytes.as_slice())
}

fn bad_script_line(alloc: Global, line: u64) -> Result<String, AllocError>
    ensures { IfOk result (λ text. string_bytes text ≡ bad_script_text line) }
{
    format!(in alloc; "retro: bad script at line {line}\n")
}

/// Says why a script asks for nothing.
pub fn refuse<K: Sink>(alloc: Global, sink: &mut K, why: NoPlan) -> Status
    ensures refused { RefusesScript (seen K.held K.faults sink.old sink.new) why (number_of result) }
    ensures status { IsOfKept result }
{
    match why {
        NoPlan::SourceFault => say(sink, b"retro: source fault\n", Status::SourceFault),
        NoPlan::BadScript { line } => match bad_script_line(alloc, line) {
            Ok(text) => say(sink, text.as_bytes(), Status::BadScript),
            Err(AllocError) => lack_memory(sink),
        },
        NoPlan::OutOfMemory => lack_memory(sink),
    }
}
