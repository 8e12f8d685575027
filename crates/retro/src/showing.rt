//! `show DIR`.

ghost use Rattle.std.specs.Prelude.{◌≡◌, ◌≢◌, ◌++◌, IfOk, OnOk};
ghost use Rattle.retro.specs.Shows.{LooksIn, number_line, shown_text, Shows};
ghost use Rattle.retro.specs.Says.{IsStatus};
ghost use Rattle.retro.specs.Seen.{seen};

use crate::saying::{cabinet_fault, push_number, refuse, write_made};
use disk_model::Cabinet;
use feeds::Sink;
use history::Version;
use retro_base::Refusal;
use std::alloc::{AllocError, Global};
use store::{Shown, show as show_devices};

// What the store in the folder shows of itself.
fn look<C: Cabinet>(alloc: Global, cabinet: &mut C, dir: &str) -> Result<Shown, Refusal>
    ensures { LooksIn C.faults C.is_out C.tells C.store C.Device.extent C.Device.faults C.Device.is_honest
        C.Device.remembers C.Device.state C.Device.clock dir.now cabinet.old cabinet.new result }
{
    let Ok(disks) = cabinet.fetch(dir) else {
        return Err(cabinet_fault(cabinet));
    };
    match show_devices(alloc, Version::One, disks) {
        Ok((disks, shown)) => {
            cabinet.put_back(dir, disks);
            Ok(shown)
        }
        Err((disks, why)) => {
            cabinet.put_back(dir, disks);
            Err(why)
        }
    }
}

/// Adds a line of a word and a number.
pub fn push_line(
    alloc: Global,
    text: &mut Vec<u8>,
    word: &str,
    number: u64,
) -> Result<(), AllocError>
    ensures { OnOk result (text.new.items ≡ text.old.items ++ number_line word.now number) }
{
    text.extend_from_slice(word.as_bytes())?;
    push_number(alloc, text, number)?;
    text.push(b'\n')?;
    Ok(())
}

// The six lines of a store.
fn lines_of(alloc: Global, shown: &Shown) -> Result<Vec<u8>, AllocError>
    ensures { IfOk result (λ text. text.items ≡ shown_text shown.now) }
{
    let mut text = Vec::new(alloc);
    push_line(alloc, &mut text, "version", 1)?;
    push_line(alloc, &mut text, "pages", u64::from(shown.sizes.pages))?;
    push_line(
        alloc,
        &mut text,
        "capacity",
        u64::from(shown.sizes.capacity),
    )?;
    push_line(alloc, &mut text, "oldest", u64::from(shown.oldest))?;
    push_line(alloc, &mut text, "newest", u64::from(shown.newest))?;
    push_line(alloc, &mut text, "captures", shown.captures)?;
    Ok(text)
}

/// Writes what the store in the folder shows of itself. Answers the exit status.
pub fn show<K: Sink, C: Cabinet>(alloc: Global, sink: &mut K, cabinet: &mut C, dir: &str) -> u8
    ensures shows { Shows C.faults C.is_out C.tells C.store C.Device.extent C.Device.faults C.Device.is_honest
        C.Device.remembers C.Device.state C.Device.clock dir.now (seen K.held K.faults sink.old sink.new)
        cabinet.old cabinet.new result }
    ensures status { IsStatus result }
    ensures words { (result ≢ 2) × (result ≢ 9) }
{
    let status = match look(alloc, cabinet, dir) {
        Ok(shown) => write_made(sink, lines_of(alloc, &shown)),
        Err(refusal) => refuse(alloc, sink, refusal),
    };
    status.number()
}
