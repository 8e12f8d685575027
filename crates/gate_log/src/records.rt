//! The records of a region, read.

ghost use Rattle.std.specs.Prelude.{◌≡◌, ◌<◌, ◌≤◌, ◌+◌, ◌^◌, ◌++◌, length, take, drop, slice_index};
ghost use Rattle.std.specs.Prelude.{IfOk, IfErr, IfSome, IfNone, MatchResult};
ghost use Rattle.disk_model.specs.Runs.{OnlyReads, SameDevice};
ghost use Rattle.gate_log.specs.Bodies.{bodies_of};
ghost use Rattle.gate_log.specs.Cause.{IsReadRefusal, IsRecordsRefusal};
ghost use Rattle.retro_base.specs.Fields.{number_at};
ghost use Rattle.retro_base.specs.Framing.{record_of, records_of, AreRecords};

use crate::durable::fault_of;
use disk_model::{Disk, Failed};
use retro_base::{Device, OPEN_GATE, Refusal, get_u32};
use std::alloc::Global;

/// Reads that many bytes into memory of their own. It is refused for want of memory, and exactly where a call of
/// the device failed.
pub fn read_bytes<D: Disk>(
    alloc: Global,
    disk: &mut D,
    device: Device,
    place: u64,
    size: u64,
) -> Result<Vec<u8>, Refusal>
    requires { place + size ≤ D.extent disk.old }
    ensures same { SameDevice D.extent D.is_honest disk.old disk.new }
    ensures cause { MatchResult result
        (λ _. D.faults disk.new ≡ D.faults disk.old)
        (IsReadRefusal (λ _. ⊥) device (D.faults disk.old) (D.faults disk.new)) }
    ensures whole { IfOk result (λ bytes. length bytes.items ≡ size) }
    ensures read { D.is_honest disk.old
        → IfOk result (λ bytes. bytes.items ≡ take size (drop place (D.state disk.old).seen)) }
    ensures reads { D.is_honest disk.old → OnlyReads D.remembers D.state D.clock disk.old disk.new }
{
    let mut bytes = vec![in alloc; 0; size as usize]?;
    match disk.read_at(place, &mut bytes) {
        Ok(()) => Ok(bytes),
        Err(Failed) => Err(fault_of(disk, device)),
    }
}

/// The bodies of the records up to the first closed gate, and how many bytes stand before it. The bytes stand
/// from that place of the device on.
pub fn read_records(
    alloc: Global,
    device: Device,
    place: u64,
    records: &[u8],
) -> Result<(Vec<Vec<u8>>, u64), Refusal>
    requires some { 0 < length records.now }
    requires fits { place + length records.now < 2 ^ 64 }
    ensures records { IfOk result (λ r. AreRecords (bodies_of r.0.items) records.now) }
    ensures end { IfOk result (λ r. r.1 ≡ length (records_of (bodies_of r.0.items))) }
    ensures cause { IfErr result (IsRecordsRefusal device place records.now) }
{
    let mut bodies = Vec::new(alloc);
    let mut rest = records;
    while rest[0] == OPEN_GATE {
        let Some((body, next)) = split_record(rest) else {
            let at = (records.len() - rest.len()) as u64;
            return Err(Refusal::NotAStore {
                device,
                place: place + at,
            });
        };
        bodies.push(body.to_vec(alloc)?)?;
        rest = next;
    }
    let end = (records.len() - rest.len()) as u64;
    Ok((bodies, end))
}

// The body of the first record, and what stands behind the record, if its next gate does.
fn split_record(rest: &[u8]) -> Option<(&[u8], &[u8])>
    requires some { 0 < length rest.now }
    requires is_open { slice_index rest.now 0 ≡ OPEN_GATE }
    ensures split { IfSome result (λ p. rest.now ≡ record_of p.0.now ++ p.1.now) }
    ensures gate { IfSome result (λ p. 0 < length p.1.now) }
    ensures short { IfSome result (λ p. length p.0.now < 2 ^ 32) }
    ensures moves_on { IfSome result (λ p. length p.1.now + 5 ≤ length rest.now) }
    ensures over { IfNone result (length (drop 1 rest.now) < number_at 4 (drop 1 rest.now) 0 + 5) }
{
    if rest.len() < 6 {
        return None;
    }
    let count = get_u32(rest, 1) as usize;
    let behind = &rest[5..];
    if behind.len() <= count {
        return None;
    }
    Some(behind.split_at(count))
}
