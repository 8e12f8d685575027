//! The one-line texts of the program, and what it puts into its sink.

ghost use Rattle.std.specs.Prelude.{◌≡◌, ◌≢◌, ◌++◌, ◌∷◌, IfErr, IfOk, OnOk};
ghost use Rattle.std.specs.Fmt.{decimal};
ghost use Rattle.retro.specs.Says.{IsNoStore, IsOfKept, IsOfStores, IsStatus, LacksMemory};
ghost use Rattle.retro.specs.Says.{Refuses, Says, Writes, device_line, number_of};
ghost use Rattle.retro.specs.Seen.{seen};

use disk_model::Cabinet;
use feeds::{Sink, put_all};
use retro_base::{Device, Failed, Refusal};
use std::alloc::{AllocError, Global};

/// How a run of the program ended; its number is the exit status.
#[derive(Clone, Copy, Debug, PartialEq, Eq)]
pub enum Status {
    Done = 0,
    BadWords = 2,
    BadScript = 3,
    SourceFault = 4,
    SinkFault = 5,
    DiskFault = 6,
    NotAStore = 7,
    OutOfMemory = 8,
    BadSizes = 9,
}

impl Status {
    /// The exit status.
    pub fn number(self) -> u8
        ensures number { result ≡ number_of self }
        ensures status { IsStatus result }
        ensures stores { IsOfStores self → (result ≢ 2) × (result ≢ 9) }
        ensures kept { IsOfKept self → (result ≢ 2) × (result ≢ 9) }
    {
        self as u8
    }
}

/// Puts the text into the sink, as far as it takes it, and answers the status.
pub fn say<K: Sink>(sink: &mut K, text: &[u8], status: Status) -> Status
    ensures status { result ≡ status }
    ensures said { Says (seen K.held K.faults sink.old sink.new) text.now }
{
    let _put = put_all(sink, text);
    status
}

/// Puts the text of a run that went well into the sink, as far as it takes it.
pub fn write<K: Sink>(sink: &mut K, text: &[u8]) -> Status
    ensures written { Writes (seen K.held K.faults sink.old sink.new) text.now (number_of result) }
    ensures status { IsOfStores result }
{
    match put_all(sink, text) {
        Ok(()) => Status::Done,
        Err(Failed) => Status::SinkFault,
    }
}

// The line of a device between words, and a number.
fn device_line(
    alloc: Global,
    words: &str,
    device: Device,
    between: &str,
    number: u64,
) -> Result<Vec<u8>, AllocError>
    ensures { IfOk result (λ text. text.items ≡ device_line words.now device between.now number) }
{
    let mut text = words.as_bytes().to_vec(alloc)?;
    text.extend_from_slice(device.name().as_bytes())?;
    text.extend_from_slice(between.as_bytes())?;
    let digits = number.to_string(alloc)?;
    text.extend_from_slice(digits.as_bytes())?;
    text.push(b'\n')?;
    Ok(text)
}

/// Says that memory ran out.
pub fn lack_memory<K: Sink>(sink: &mut K) -> Status
    ensures said { LacksMemory (seen K.held K.faults sink.old sink.new) (number_of result) }
    ensures status { result ≡ Status.OutOfMemory }
{
    say(sink, b"retro: out of memory\n", Status::OutOfMemory)
}

/// Writes the text of a command that went well, if there was memory for it.
pub fn write_made<K: Sink>(sink: &mut K, text: Result<Vec<u8>, AllocError>) -> Status
    ensures ok { IfOk text (λ made. Writes (seen K.held K.faults sink.old sink.new) made.items (number_of result)) }
    ensures err { IfErr text (λ _. LacksMemory (seen K.held K.faults sink.old sink.new) (number_of result)) }
    ensures status { IsOfStores result }
{
    match text {
        Ok(text) => write(sink, text.as_slice()),
        Err(AllocError) => lack_memory(sink),
    }
}

/// Adds a blank and a number.
pub fn push_number(alloc: Global, text: &mut Vec<u8>, number: u64) -> Result<(), AllocError>
    ensures { OnOk result (text.new.items ≡ text.old.items ++ 32 ∷ decimal number) }
{
    text.push(b' ')?;
    let digits = number.to_string(alloc)?;
    text.extend_from_slice(digits.as_bytes())
}

/// The fault of a call of the cabinet that failed.
pub fn cabinet_fault<C: Cabinet>(cabinet: &C) -> Refusal
    ensures { result ≡ Refusal.DiskFault Device.Cabinet (C.faults cabinet.now) }
{
    Refusal::DiskFault {
        device: Device::Cabinet,
        count: cabinet.faults(),
    }
}

/// Says why a command found nothing to write: a fault of a device, bytes that are no store's, or want of memory.
pub fn refuse<K: Sink>(alloc: Global, sink: &mut K, refusal: Refusal) -> Status
    requires { IsNoStore refusal }
    ensures said { Refuses (seen K.held K.faults sink.old sink.new) refusal (number_of result) }
    ensures status { IsOfStores result }
{
    match refusal {
        Refusal::DiskFault { device, count } => {
            match device_line(alloc, "retro: disk fault on ", device, " ", count) {
                Ok(line) => say(sink, line.as_slice(), Status::DiskFault),
                Err(AllocError) => lack_memory(sink),
            }
        }
        Refusal::NotAStore { device, place } => {
            match device_line(alloc, "retro: not a store, ", device, " at ", place) {
                Ok(line) => say(sink, line.as_slice(), Status::NotAStore),
                Err(AllocError) => lack_memory(sink),
            }
        }
        Refusal::OutOfMemory => lack_memory(sink),
        _ => unreachable!(),
    }
}
