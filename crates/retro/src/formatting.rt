//! `format DIR PAGES CAPACITY`.

ghost use Rattle.std.specs.Prelude.{◌≡◌, ◌≢◌, IfOk};
ghost use Rattle.store_format.specs.Empty.{AreInRange};
ghost use Rattle.retro.specs.Formats.{Formats, formatted_line, MakesIn};
ghost use Rattle.retro.specs.Says.{IsStatus};
ghost use Rattle.retro.specs.Seen.{seen};

use crate::saying::{cabinet_fault, push_number, refuse, write_made};
use disk_model::{Cabinet, Sizes};
use feeds::Sink;
use history::Version;
use retro_base::Refusal;
use std::alloc::{AllocError, Global};

// Makes a store in the folder, in the place of one that stood there.
fn make<C: Cabinet>(alloc: Global, cabinet: &mut C, dir: &str, sizes: Sizes) -> Result<(), Refusal>
    requires { AreInRange sizes }
    ensures { MakesIn C.faults C.is_out C.tells C.store C.Device.extent C.Device.faults C.Device.is_honest
        C.Device.state dir.now sizes cabinet.old cabinet.new result }
{
    let Ok(disks) = cabinet.create(dir, sizes) else {
        return Err(cabinet_fault(cabinet));
    };
    match store_format::format(alloc, Version::One, disks, sizes) {
        Ok(disks) => {
            cabinet.put_back(dir, disks);
            Ok(())
        }
        Err((disks, why)) => {
            cabinet.put_back(dir, disks);
            Err(why)
        }
    }
}

// What is written of a new store.
fn line_of(alloc: Global, sizes: Sizes) -> Result<Vec<u8>, AllocError>
    ensures { IfOk result (λ text. text.items ≡ formatted_line sizes) }
{
    let mut text = b"formatted".to_vec(alloc)?;
    push_number(alloc, &mut text, u64::from(sizes.pages))?;
    push_number(alloc, &mut text, u64::from(sizes.capacity))?;
    text.push(b'\n')?;
    Ok(text)
}

/// Makes a store of these sizes in the folder, and writes that. Answers the exit status.
pub fn format<K: Sink, C: Cabinet>(
    alloc: Global,
    sink: &mut K,
    cabinet: &mut C,
    dir: &str,
    sizes: Sizes,
) -> u8
    requires { AreInRange sizes }
    ensures formats { Formats C.faults C.is_out C.tells C.store C.Device.extent C.Device.faults C.Device.is_honest
        C.Device.state dir.now sizes (seen K.held K.faults sink.old sink.new) cabinet.old cabinet.new result }
    ensures status { IsStatus result }
    ensures words { (result ≢ 2) × (result ≢ 9) }
{
    let status = match make(alloc, cabinet, dir, sizes) {
        Ok(()) => write_made(sink, line_of(alloc, sizes)),
        Err(refusal) => refuse(alloc, sink, refusal),
    };
    status.number()
}
