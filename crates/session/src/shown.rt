//! The visible lines of the journal.

ghost use Rattle.std.specs.Prelude.{◌≡◌, ◌<◌, ◌+◌, ◌-◌, ◌^◌, ◌++◌, IfOk, OnOk, option_map, string_bytes};
ghost use Rattle.session.specs.Plan.{names_at};
ghost use Rattle.session.specs.Visible.{name_of, newest_behind, shown_line, visible_text, what_text, worker_name};
ghost use Rattle.session.specs.Wording.{session_name, word};

use crate::plan::SessionPlan;
use history::{Line, What};
use retro_base::{SESSIONS, Who};
use std::alloc::{AllocError, Global};
use values::Seq;

// The name of a worker, which stands behind the places of the sessions.
fn worker_name(session: u16) -> &'static [u8]
    ensures { result.now ≡ worker_name session }
{
    let place = usize::from(session);
    if place == SESSIONS {
        b"copier"
    } else if place == SESSIONS + 1 {
        b"flusher"
    } else {
        b""
    }
}

// The name of the session at a place of a phase; no bytes where there is none.
fn session_name(plan: &[Seq<SessionPlan>], phase: u16, place: u16) -> &[u8]
    ensures { result.now ≡ session_name (names_at plan.now phase) place }
{
    let Some(index) = usize::from(phase).checked_sub(1) else {
        return &[];
    };
    match plan.get(index) {
        Some(sessions) => match sessions.as_slice().get(usize::from(place)) {
            Some(session) => session.name.bytes(),
            None => &[],
        },
        None => &[],
    }
}

// Appends a blank and whose a line is.
fn write_name(plan: &[Seq<SessionPlan>], who: Who, out: &mut Vec<u8>) -> Result<(), AllocError>
    ensures { OnOk result (out.new.items ≡ out.old.items ++ word (name_of plan.now who)) }
{
    out.extend_from_slice(b" ")?;
    out.extend_from_slice(session_name(plan, who.phase, who.session))?;
    out.extend_from_slice(worker_name(who.session))
}

// What a line says, where it is shown, behind a snapshot of this number.
fn what_text(alloc: Global, newest: u64, what: &What) -> Result<Option<String>, AllocError>
    requires { newest < 2 ^ 64 - 1 }
    ensures { IfOk result (λ text. option_map (λ t. string_bytes t) text ≡ what_text newest what.now) }
{
    let text = match what {
        What::Began => return Ok(None),
        What::Overlapped { .. } => return Ok(None),
        What::Done { label: None, .. } => String::from_str(alloc, "done")?,
        What::Done { label: Some(_), .. } => {
            let number = newest + 1;
            format!(in alloc; "done as {number}")?
        }
        What::RolledBack => String::from_str(alloc, "rolled back")?,
        What::Looked { snapshot } => format!(in alloc; "looked {snapshot}")?,
        What::LookedAll => String::from_str(alloc, "looked all")?,
        What::Unlooked => String::from_str(alloc, "unlooked")?,
        What::Dropped { below } => format!(in alloc; "dropped below {below}")?,
        What::Refused { why } => {
            let number = why.number();
            format!(in alloc; "refused {number}")?
        }
        What::Fault { device, count, .. } => {
            let name = device.name();
            format!(in alloc; "fault {name} {count}")?
        }
    };
    Ok(Some(text))
}

// Appends a line that says this, where it is shown.
fn write_shown(
    alloc: Global,
    plan: &[Seq<SessionPlan>],
    who: Who,
    text: &Option<String>,
    out: &mut Vec<u8>,
) -> Result<(), AllocError>
    ensures { OnOk result (out.new.items ≡ out.old.items
        ++ shown_line plan.now who (option_map (λ t. string_bytes t) text.now)) }
{
    if let Some(text) = text {
        let phase = who.phase;
        let item = who.item;
        let head = format!(in alloc; "{phase}")?;
        let tail = format!(in alloc; " {item} {text}\n")?;
        out.extend_from_slice(head.as_bytes())?;
        write_name(plan, who, out)?;
        out.extend_from_slice(tail.as_bytes())?;
    }
    Ok(())
}

// The number of the newest snapshot behind a line.
fn newest_behind(what: &What, newest: u64) -> u64
    requires { newest < 2 ^ 64 - 1 }
    ensures { result ≡ newest_behind what.now newest }
{
    match what {
        What::Done { label: Some(_), .. } => newest + 1,
        _ => newest,
    }
}

/// Appends the visible lines of a journal in order, behind a snapshot of this number.
pub fn write_visible(
    alloc: Global,
    plan: &[Seq<SessionPlan>],
    newest: u32,
    journal: &[Line],
    out: &mut Vec<u8>,
) -> Result<(), AllocError>
    ensures { OnOk result (out.new.items ≡ out.old.items ++ visible_text plan.now newest journal.now) }
{
    let mut behind = u64::from(newest);
    for line in journal {
        let text = what_text(alloc, behind, &line.what)?;
        write_shown(alloc, plan, line.who, &text, out)?;
        behind = newest_behind(&line.what, behind);
    }
    Ok(())
}
