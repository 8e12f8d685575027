//! The bytes of a region that is to be filled.

ghost use Rattle.std.specs.Prelude.{◌≡◌, ◌≤◌, ◌+◌, ◌-◌, ◌^◌, ◌<◌, ◌++◌, ℕ, List};
ghost use Rattle.std.specs.Prelude.{length, OnOk, IfOk, IfErr, MatchOption};
ghost use Rattle.disk_model.specs.Disk.{SameOutside};
ghost use Rattle.disk_model.specs.Moments.{LeavesOnly};
ghost use Rattle.disk_model.specs.Runs.{SameDevice};
ghost use Rattle.gate_log.specs.Appending.{LooseOrIn};
ghost use Rattle.retro_base.specs.Cause.{FaultsAlone};
ghost use Rattle.gate_log.specs.Cause.{Fit, IsPrepareRefusal};
ghost use Rattle.gate_log.specs.Log.{Fills, IsPrepared, region_tail};
ghost use Rattle.retro_base.specs.Framing.{record_of, records_of, AreBodies};
ghost use Rattle.retro_base.specs.declared.refusal.Refusal.TheVariants.{OutOfMemory};

use crate::durable::put_durably;
use crate::framed::Framed;
use crate::log::{GateLog, HEADER_BYTES};
use disk_model::Disk;
use retro_base::{Device, OPEN_GATE, Refusal, put_u64};
use std::alloc::Global;
use std::marker::Model;

/// All that a fill of a region writes behind the gate of its header, in one piece.
#[derive(Drop)]
pub struct Prepared {
    bytes: Vec<u8>,
}

impl Model for Prepared {
    ghost use Rattle.std.specs.Prelude.{ℕ, List};
    ghost use Rattle.std.specs.Coded.{coded_ℕ, coded_list};

    ghost Value = { List ℕ };

    ghost coded = { coded_list coded_ℕ };

    ghost view = { λ prepared. prepared.bytes.items };
}

impl Prepared {
    /// Prepares a list for a region of that many bytes. It is refused where the records and the gate behind
    /// them have more bytes than stand behind the region's header, and for want of memory.
    pub fn new(
        alloc: Global,
        size: u64,
        generation: u64,
        bodies: &[Framed],
    ) -> Result<Prepared, Refusal>
        requires least { 17 ≤ size }
        requires first { 1 ≤ generation }
        ensures ok { IfOk result (λ prepared. IsPrepared prepared generation bodies.now) }
        ensures fit { OnOk result (Fit size bodies.now) }
        ensures cause { IfErr result (IsPrepareRefusal size bodies.now) }
    {
        let free = size - HEADER_BYTES as u64;
        match bytes_needed(bodies) {
            Some(needed) if free < needed => Err(Refusal::NoRoom { needed, free }),
            _ => {
                let bytes = region_bytes(alloc, generation, bodies)?;
                Ok(Prepared { bytes })
            }
        }
    }

    /// Fills the region: two calls of the device. The log that it gives is one to use only once the gate of
    /// the region's header is open.
    pub fn fill<D: Disk>(
        &self,
        disk: &mut D,
        device: Device,
        place: u64,
        size: u64,
    ) -> Result<GateLog, Refusal>
        requires inside { place + size ≤ D.extent disk.old }
        requires room { length self.now + 1 ≤ size }
        requires fits { place + size < 2 ^ 64 }
        ensures same { SameDevice D.extent D.is_honest disk.old disk.new }
        ensures cause { FaultsAlone device (D.faults disk.old) (D.faults disk.new) result }
        ensures log { IfOk result (λ log.
            log ≡ record { device = device; place = place; size = size; gate = length self.now }) }
        ensures filled { (generation : ℕ) (bodies : List (List ℕ))
            → IsPrepared self.now generation bodies → D.is_honest disk.old
            → OnOk result (Fills place size generation bodies (D.state disk.old) (D.state disk.new)) }
        ensures any_moment { D.is_honest disk.old → LeavesOnly D.remembers (D.clock disk.old) (D.clock disk.new)
            (SameOutside (LooseOrIn (D.state disk.old) (place + 1) (size - 1)) (D.state disk.old).seen) }
    {
        put_durably(disk, device, place + 1, &self.bytes)?;
        let gate = self.bytes.len() as u64;
        Ok(GateLog::at(device, place, size, gate))
    }
}

// How many bytes the records of these bodies and the gate behind them have. There is no number for more than any memory
// holds.
fn bytes_needed(bodies: &[Framed]) -> Option<u64>
    ensures { MatchOption result (2 ^ 64 ≤ length (records_of bodies.now) + 1)
        (λ needed. needed ≡ length (records_of bodies.now) + 1) }
{
    let mut needed: u64 = 1;
    for framed in bodies {
        let Some(sum) = needed.checked_add(framed.len() + 5) else {
            return None;
        };
        needed = sum;
    }
    Some(needed)
}

// What stands behind the gate of the header of a region with these bodies.
#[tactic(auto, using(crate::proofs::Framing::bodies_one_more))]
fn region_bytes(alloc: Global, generation: u64, bodies: &[Framed]) -> Result<Vec<u8>, Refusal>
    ensures ok { IfOk result (λ bytes. bytes.items ≡ region_tail generation bodies.now) }
    ensures short { OnOk result (AreBodies bodies.now) }
    ensures err { IfErr result (λ refusal. refusal ≡ OutOfMemory) }
{
    let mut header = [0; 15];
    put_u64(&mut header, 7, generation);
    let mut bytes = header.to_vec(alloc)?;
    for framed in bodies {
        put_record(&mut bytes, framed)?;
    }
    bytes.push(0)?;
    Ok(bytes)
}

// Adds a record with its gate open.
fn put_record(bytes: &mut Vec<u8>, framed: &Framed) -> Result<(), Refusal>
    ensures ok { OnOk result (bytes.new.items ≡ bytes.old.items ++ record_of framed.now) }
    ensures short { length framed.now < 2 ^ 32 }
    ensures err { IfErr result (λ refusal. refusal ≡ OutOfMemory) }
{
    bytes.reserve(framed.len() as usize + 5)?;
    bytes.push(OPEN_GATE)?;
    bytes.extend_from_slice(framed.sized())?;
    Ok(())
}
