//! The list of a device of two halves of a given size, and what it is refused for.

ghost use Rattle.std.specs.Prelude.{◌≡◌, ◌≤◌, ◌<◌, ◌+◌, ◌*◌, ◌^◌, length, take, OnOk, IfOk, MatchResult};
ghost use Rattle.disk_model.specs.Runs.{SameDevice, WritesNothing};
ghost use Rattle.retro_base.specs.Framing.{records_of};
ghost use Rattle.gate_log.specs.Bodies.{bodies_of};
ghost use Rattle.gate_log.specs.Cause.{IsReadRefusal};
ghost use Rattle.gate_log.specs.Region.{gate_behind};
ghost use Rattle.area_log.specs.Area.{Fetched, IsRead};
ghost use Rattle.area_log.specs.Listed.{IsUnlisted, NotListed, refusal_of};

use crate::log::AreaLog;
use disk_model::Disk;
use gate_log::Unread;
use retro_base::{Device, Refusal};
use std::alloc::Global;

/// The log and the bodies of a device of two halves of that many bytes. It is refused as `AreaLog::fetch` is, and
/// before that where the device has another size, which is then the place told.
pub fn listed<D: Disk>(
    alloc: Global,
    disk: &mut D,
    device: Device,
    half: u64,
) -> Result<(AreaLog, Vec<Vec<u8>>), Refusal>
    requires least { 17 ≤ half }
    requires fits { 2 * half < 2 ^ 64 }
    ensures same { SameDevice D.extent D.is_honest disk.old disk.new }
    ensures cause { MatchResult result
        (λ _. D.faults disk.new ≡ D.faults disk.old)
        (IsReadRefusal (λ broken. IsUnlisted half (D.extent disk.old) broken
        × (D.is_honest disk.old → NotListed half (D.state disk.old) (D.state disk.new) broken))
        device (D.faults disk.old) (D.faults disk.new)) }
    ensures size { OnOk result (D.extent disk.old ≡ 2 * half) }
    ensures log { IfOk result (λ p. IsRead device (D.extent disk.old) (bodies_of p.1.items) p.0) }
    ensures fetched { D.is_honest disk.old → IfOk result (λ p.
        Fetched half p.0 (bodies_of p.1.items) (D.state disk.old) (D.state disk.new)) }
    ensures quiet { D.is_honest disk.old → WritesNothing D.remembers D.state D.clock disk.old disk.new }
{
    let place = disk.size();
    if place != 2 * half {
        return Err(Refusal::NotAStore { device, place });
    }
    AreaLog::fetch(alloc, disk, device)
}

impl AreaLog {
    /// The refusal of the log's bodies, which were not read: want of memory, or the place of the gate of the first
    /// body that breaks.
    pub fn refusal_of(&self, bodies: &[Vec<u8>], error: Unread) -> Refusal
        requires { self.now.log.gate ≡ gate_behind (bodies_of bodies.now) }
        ensures { result ≡ refusal_of self.now (bodies_of bodies.now) error }
    {
        match error {
            Unread::OutOfMemory => Refusal::OutOfMemory,
            Unread::Broken { behind } => Refusal::NotAStore {
                device: self.device(),
                place: self.gate_behind(bodies, behind),
            },
        }
    }

    // Where on the device the gate behind so many of the log's bodies stands.
    fn gate_behind(&self, bodies: &[Vec<u8>], behind: usize) -> u64
        requires { self.now.log.gate ≡ gate_behind (bodies_of bodies.now) }
        ensures { result ≡ self.now.log.place + gate_behind (take behind (bodies_of bodies.now)) }
    {
        let front = behind.min(bodies.len());
        self.end() - records_bytes(&bodies[front..])
    }
}

// How many bytes the records of these bodies have.
fn records_bytes(bodies: &[Vec<u8>]) -> u64
    requires { length (records_of (bodies_of bodies.now)) < 2 ^ 64 }
    ensures { result ≡ length (records_of (bodies_of bodies.now)) }
{
    let mut count = 0;
    for body in bodies {
        count += body.len() as u64 + 5;
    }
    count
}
