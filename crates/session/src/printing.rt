//! The printing of a run.

ghost use Rattle.std.specs.Prelude.{◌≡◌, ◌+◌, ◌++◌, IfOk, OnOk};
ghost use Rattle.session.specs.Replies.{cause_of_cut, items_text, kept_at_place, kept_by_place};
ghost use Rattle.session.specs.Replies.{kept_in_phase, phases_text, printed, sessions_text, text_of};

use crate::kept::Kept;
use crate::plan::{Plan, SessionPlan};
use crate::shown::write_visible;
use crate::wording::{write_line, write_not_run, write_numbered, write_refusal, write_session};
use history::Line;
use retro_base::{JOURNAL_LINES, Refusal, WORKER_LINES};
use std::alloc::{AllocError, Global};
use values::Seq;

// Why an item was cut short, where the journal has so many lines at its end.
fn cause_of_cut(lines: u64) -> Refusal
    ensures { result ≡ cause_of_cut lines }
{
    if lines > JOURNAL_LINES - WORKER_LINES - 2 {
        Refusal::JournalFull { lines, images: 0 }
    } else {
        Refusal::OutOfMemory
    }
}

fn write_kept(alloc: Global, lines: u64, kept: &Kept, out: &mut Vec<u8>) -> Result<(), AllocError>
    ensures { OnOk result (out.new.items ≡ out.old.items ++ text_of lines kept.now) }
{
    match kept {
        Kept::Told(text) => out.extend_from_slice(text.as_slice()),
        Kept::CutShort => write_refusal(alloc, &[], cause_of_cut(lines), out),
        Kept::NotRun => write_not_run(out),
    }
}

// Appends the items of a session.
fn write_items(
    alloc: Global,
    lines: u64,
    items: &[Kept],
    out: &mut Vec<u8>,
) -> Result<(), AllocError>
    ensures { OnOk result (out.new.items ≡ out.old.items ++ items_text lines 1 items.now) }
{
    for (index, kept) in items.iter().enumerate() {
        write_numbered(alloc, b"item ", index as u64 + 1, out)?;
        write_kept(alloc, lines, kept, out)?;
    }
    Ok(())
}

// What was kept of the session at a place of a phase.
fn kept_at(kept: &[Seq<Kept>], place: usize) -> &[Kept]
    ensures { result.now ≡ kept_at_place kept.now place }
{
    match kept.get(place) {
        Some(items) => items.as_slice(),
        None => &[],
    }
}

// Appends the sessions of a phase.
fn write_sessions(
    alloc: Global,
    lines: u64,
    sessions: &[SessionPlan],
    kept: &[Seq<Kept>],
    out: &mut Vec<u8>,
) -> Result<(), AllocError>
    ensures { OnOk result (out.new.items ≡ out.old.items
        ++ sessions_text lines (kept_at_place kept.now) 0 sessions.now) }
{
    for (place, session) in sessions.iter().enumerate() {
        write_session(session.name.bytes(), out)?;
        write_items(alloc, lines, kept_at(kept, place), out)?;
    }
    Ok(())
}

// What was kept of the sessions of the phase that stands at an index, by their places.
fn kept_in_phase(kept: &[Seq<Seq<Kept>>], index: usize) -> &[Seq<Kept>]
    ensures { result.now ≡ kept_in_phase kept.now (index + 1) }
{
    match kept.get(index) {
        Some(sessions) => sessions.as_slice(),
        None => &[],
    }
}

// Appends the phases.
fn write_phases(
    alloc: Global,
    lines: u64,
    plan: &[Seq<SessionPlan>],
    kept: &[Seq<Seq<Kept>>],
    out: &mut Vec<u8>,
) -> Result<(), AllocError>
    ensures { OnOk result (out.new.items ≡ out.old.items ++ phases_text lines (kept_by_place kept.now) 1 plan.now) }
{
    for (index, sessions) in plan.iter().enumerate() {
        write_numbered(alloc, b"phase ", index as u64 + 1, out)?;
        write_sessions(
            alloc,
            lines,
            sessions.as_slice(),
            kept_in_phase(kept, index),
            out,
        )?;
    }
    Ok(())
}

/// What is printed of a run: what was kept of each item, by phases and sessions, and the visible lines of the journal,
/// behind a snapshot of this number.
pub fn print(
    alloc: Global,
    plan: &Plan,
    kept: &[Seq<Seq<Kept>>],
    newest: u32,
    journal: &[Line],
) -> Result<Vec<u8>, AllocError>
    ensures { IfOk result (λ text. text.items ≡ printed plan.now (kept_by_place kept.now) newest journal.now) }
{
    let mut out = Vec::new(alloc);
    write_phases(alloc, journal.len() as u64, plan.as_slice(), kept, &mut out)?;
    write_line(b"journal", &mut out)?;
    write_visible(alloc, plan.as_slice(), newest, journal, &mut out)?;
    Ok(out)
}
