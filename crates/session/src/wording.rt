//! The words of replies, in which sessions have their names.

ghost use Rattle.std.specs.Prelude.{◌≡◌, ◌++◌, OnOk, codes};
ghost use Rattle.retro_base.specs.Device.{device_name};
ghost use Rattle.std.specs.Fmt.{decimal};
ghost use Rattle.session.specs.Line.{line};
ghost use Rattle.session.specs.Texts.{value_text};
ghost use Rattle.session.specs.Wording.{committed_as, count_text, not_run_text, refusal_text};
ghost use Rattle.session.specs.Wording.{rolled_back_text, session_name, values_text, word};

use retro_base::{Device, Refusal};
use script::SessionName;
use std::alloc::{AllocError, Global};
use tables::Answer;

/// The name of the session at a place of its phase, from 0; no bytes where none stands there.
pub fn session_name(names: &[SessionName], place: u16) -> &[u8]
    ensures { result.now ≡ session_name names.now place }
{
    match names.get(usize::from(place)) {
        Some(name) => name.bytes(),
        None => &[],
    }
}

/// Appends a line of this text.
pub fn write_line(text: &[u8], out: &mut Vec<u8>) -> Result<(), AllocError>
    ensures { OnOk result (out.new.items ≡ out.old.items ++ line text.now) }
{
    out.extend_from_slice(text)?;
    out.extend_from_slice(b"\n")
}

/// Appends a line of this text and then a number.
pub fn write_numbered(
    alloc: Global,
    text: &[u8],
    number: u64,
    out: &mut Vec<u8>,
) -> Result<(), AllocError>
    ensures { OnOk result (out.new.items ≡ out.old.items ++ line (text.now ++ decimal number)) }
{
    out.extend_from_slice(text)?;
    let tail = format!(in alloc; "{number}\n")?;
    out.extend_from_slice(tail.as_bytes())
}

/// Appends a blank and a word.
pub fn write_word(text: &[u8], out: &mut Vec<u8>) -> Result<(), AllocError>
    ensures { OnOk result (out.new.items ≡ out.old.items ++ word text.now) }
{
    out.extend_from_slice(b" ")?;
    out.extend_from_slice(text)
}

/// Appends a blank and a number.
pub fn write_value(alloc: Global, value: u64, out: &mut Vec<u8>) -> Result<(), AllocError>
    ensures { OnOk result (out.new.items ≡ out.old.items ++ value_text value) }
{
    let text = format!(in alloc; " {value}")?;
    out.extend_from_slice(text.as_bytes())
}

// Appends two values.
fn write_two(alloc: Global, first: u64, second: u64, out: &mut Vec<u8>) -> Result<(), AllocError>
    ensures { OnOk result (out.new.items ≡ out.old.items ++ (value_text first ++ value_text second)) }
{
    write_value(alloc, first, out)?;
    write_value(alloc, second, out)
}

// Appends a device and a value.
fn write_at_device(
    alloc: Global,
    device: Device,
    value: u64,
    out: &mut Vec<u8>,
) -> Result<(), AllocError>
    ensures { OnOk result (out.new.items ≡ out.old.items ++ (word (device_name device) ++ value_text value)) }
{
    write_word(device.name().as_bytes(), out)?;
    write_value(alloc, value, out)
}

// Appends a session's name and a value.
fn write_overlap(
    alloc: Global,
    names: &[SessionName],
    session: u16,
    item: u32,
    out: &mut Vec<u8>,
) -> Result<(), AllocError>
    ensures { OnOk result (out.new.items ≡ out.old.items ++ values_text names.now (Refusal.Overlap session item)) }
{
    write_word(session_name(names, session), out)?;
    write_value(alloc, u64::from(item), out)
}

// Appends a value and a session's name.
fn write_pinned(
    alloc: Global,
    names: &[SessionName],
    snapshot: u32,
    session: u16,
    out: &mut Vec<u8>,
) -> Result<(), AllocError>
    ensures { OnOk result (out.new.items ≡ out.old.items ++ values_text names.now (Refusal.Pinned snapshot session)) }
{
    write_value(alloc, u64::from(snapshot), out)?;
    write_word(session_name(names, session), out)
}

// Appends a refusal's values in order.
fn write_values(
    alloc: Global,
    names: &[SessionName],
    why: Refusal,
    out: &mut Vec<u8>,
) -> Result<(), AllocError>
    ensures { OnOk result (out.new.items ≡ out.old.items ++ values_text names.now why) }
{
    match why {
        Refusal::DiskFault { device, count } => write_at_device(alloc, device, count, out),
        Refusal::NotAStore { device, place } => write_at_device(alloc, device, place, out),
        Refusal::BadScript { line } => write_value(alloc, line, out),
        Refusal::Overlap { session, item } => write_overlap(alloc, names, session, item, out),
        Refusal::NoSuchSnapshot { asked, newest } => {
            write_two(alloc, asked, u64::from(newest), out)
        }
        Refusal::Dropped { asked, oldest } => {
            write_two(alloc, u64::from(asked), u64::from(oldest), out)
        }
        Refusal::Pinned { snapshot, session } => {
            write_pinned(alloc, names, snapshot, session, out)
        }
        Refusal::ArchiveFull { needed, room } => write_two(alloc, needed, room, out),
        Refusal::PagesFull { pages } => write_value(alloc, u64::from(pages), out),
        Refusal::TooManyPages { needed } => write_value(alloc, u64::from(needed), out),
        Refusal::Stopped { device, count } => write_at_device(alloc, device, count, out),
        Refusal::NoRoom { needed, free } => write_two(alloc, needed, free, out),
        Refusal::SnapshotsFull { retained } => write_value(alloc, u64::from(retained), out),
        Refusal::Syntax { place } => write_value(alloc, u64::from(place), out),
        Refusal::RowTooLong { bytes } => write_value(alloc, u64::from(bytes), out),
        Refusal::NotOneValue { snapshot } => write_value(alloc, u64::from(snapshot), out),
        _ => Ok(()),
    }
}

/// Appends the reply of a refused item or statement, in a phase whose sessions have these names.
pub fn write_refusal(
    alloc: Global,
    names: &[SessionName],
    why: Refusal,
    out: &mut Vec<u8>,
) -> Result<(), AllocError>
    ensures { OnOk result (out.new.items ≡ out.old.items ++ refusal_text names.now why) }
{
    let number = why.number();
    let name = why.name();
    let head = format!(in alloc; "refused {number} {name}")?;
    out.extend_from_slice(head.as_bytes())?;
    write_values(alloc, names, why, out)?;
    out.extend_from_slice(b"\n")
}

/// Appends the reply of a call: how many rows its result has.
pub fn write_count(alloc: Global, answer: &Answer, out: &mut Vec<u8>) -> Result<(), AllocError>
    ensures { OnOk result (out.new.items ≡ out.old.items ++ count_text answer.now) }
{
    let count = answer.rows.len();
    let text = format!(in alloc; "ok {count}\n")?;
    out.extend_from_slice(text.as_bytes())
}

/// Appends the reply of a transaction that committed, and declared a snapshot of this number or none.
pub fn write_committed(
    alloc: Global,
    number: Option<u32>,
    out: &mut Vec<u8>,
) -> Result<(), AllocError>
    ensures { OnOk result (out.new.items ≡ out.old.items ++ committed_as number) }
{
    match number {
        None => write_line(b"committed", out),
        Some(number) => write_numbered(alloc, b"committed as ", u64::from(number), out),
    }
}

/// Appends the reply of a transaction that was rolled back.
pub fn write_rolled_back(out: &mut Vec<u8>) -> Result<(), AllocError>
    ensures { OnOk result (out.new.items ≡ out.old.items ++ rolled_back_text) }
{
    write_line(b"rolled back", out)
}

/// Appends the reply of a drop of the snapshots below a number.
pub fn write_dropped(alloc: Global, below: u64, out: &mut Vec<u8>) -> Result<(), AllocError>
    ensures { OnOk result (out.new.items ≡ out.old.items ++ line (codes "dropped below " ++ decimal below)) }
{
    write_numbered(alloc, b"dropped below ", below, out)
}

/// Appends the reply of an item that was not run.
pub fn write_not_run(out: &mut Vec<u8>) -> Result<(), AllocError>
    ensures { OnOk result (out.new.items ≡ out.old.items ++ not_run_text) }
{
    write_line(b"not run", out)
}

/// Appends the line at the head of a session.
pub fn write_session(name: &[u8], out: &mut Vec<u8>) -> Result<(), AllocError>
    ensures { OnOk result (out.new.items ≡ out.old.items ++ line (codes "session " ++ name.now)) }
{
    out.extend_from_slice(b"session ")?;
    write_line(name, out)
}
