//! The list of a region.

ghost use Rattle.std.specs.Prelude.{◌≡◌, ◌≤◌, ◌<◌, ◌+◌, ◌-◌, ◌^◌, ℕ, List, length, is_ok};
ghost use Rattle.std.specs.Prelude.{OnOk, IfOk, IfErr, IfSome, MatchOption, MatchResult};
ghost use Rattle.disk_model.specs.Disk.{SameOutside};
ghost use Rattle.disk_model.specs.Moments.{LeavesOnly};
ghost use Rattle.disk_model.specs.Runs.{OnlyReads, SameDevice};
ghost use Rattle.gate_log.specs.Appending.{after_append, Appends, LooseOrIn};
ghost use Rattle.gate_log.specs.Bodies.{bodies_of};
ghost use Rattle.gate_log.specs.Cause.{Fit, HasRoom, IsAppendRefusal, IsDiskFault, IsFillRefusal, IsReadRefusal};
ghost use Rattle.gate_log.specs.Log.{Fills};
ghost use Rattle.gate_log.specs.Region.{Breaks, gate_behind, InRecords, IsOpen, Lists};

use crate::durable::put_durably;
use crate::framed::Framed;
use crate::prepared::Prepared;
use crate::records::{read_bytes, read_records};
use disk_model::Disk;
use retro_base::{Device, OPEN_GATE, Refusal};
use std::alloc::Global;
use std::marker::Model;

/// The bytes of a region's header, behind which its records stand.
pub const HEADER_BYTES: usize = 16;

/// A list of bodies in a region of a device: where the region is, and where in it the closed gate behind the
/// last record stands.
#[derive(Drop)]
pub struct GateLog {
    device: Device,
    place: u64,
    size: u64,
    gate: u64,
}

impl Model for GateLog {
    ghost use Rattle.std.specs.Prelude.{◌<◌, ◌+◌, ◌^◌};
    ghost use Rattle.gate_log.specs.Log.{Region};

    ghost Value = { Region };

    ghost view = { λ log. record { device = log.device; place = log.place; size = log.size; gate = log.gate } };

    ghost invariant = { λ log. (log.gate < log.size) × (log.place + log.size < 2 ^ 64) };
}

impl GateLog {
    /// The log whose closed gate stands there.
    pub(crate) fn at(device: Device, place: u64, size: u64, gate: u64) -> GateLog
        requires inside { gate < size }
        requires fits { place + size < 2 ^ 64 }
        ensures { result ≡ record { device = device; place = place; size = size; gate = gate } }
    {
        GateLog {
            device,
            place,
            size,
            gate,
        }
    }

    /// Fills a region with these bodies under that generation, all but the gate of its header. The log that it
    /// gives is one to use only once that gate is open. It is refused for want of memory, where the records and
    /// the gate behind them do not fit behind the header, and exactly where a call of the device failed.
    pub fn new_region<D: Disk>(
        alloc: Global,
        disk: &mut D,
        device: Device,
        place: u64,
        size: u64,
        generation: u64,
        bodies: &[Framed],
    ) -> Result<GateLog, Refusal>
        requires inside { place + size ≤ D.extent disk.old }
        requires least { 17 ≤ size }
        requires fits { place + size < 2 ^ 64 }
        requires first { 1 ≤ generation }
        ensures same { SameDevice D.extent D.is_honest disk.old disk.new }
        ensures cause { MatchResult result
            (λ _. Fit size bodies.now × (D.faults disk.new ≡ D.faults disk.old))
            (IsFillRefusal size bodies.now device (D.faults disk.old) (D.faults disk.new)) }
        ensures untouched { IfErr result (λ refusal. (IsDiskFault refusal → ⊥) → disk.new ≡ disk.old) }
        ensures log { IfOk result (λ log.
            log ≡ record { device = device; place = place; size = size; gate = gate_behind bodies.now }) }
        ensures filled { D.is_honest disk.old
            → OnOk result (Fills place size generation bodies.now (D.state disk.old) (D.state disk.new)) }
        ensures any_moment { D.is_honest disk.old → LeavesOnly D.remembers (D.clock disk.old) (D.clock disk.new)
            (SameOutside (LooseOrIn (D.state disk.old) (place + 1) (size - 1)) (D.state disk.old).seen) }
    {
        let prepared = Prepared::new(alloc, size, generation, bodies)?;
        prepared.fill(disk, device, place, size)
    }

    /// Reads a region: its log and its bodies, or none where the gate of its header is closed. It is refused for
    /// want of memory, exactly where a call of the device failed, and where a record breaks, with the place of
    /// that record's gate.
    pub fn read_region<D: Disk>(
        alloc: Global,
        disk: &mut D,
        device: Device,
        place: u64,
        size: u64,
    ) -> Result<Option<(GateLog, Vec<Vec<u8>>)>, Refusal>
        requires inside { place + size ≤ D.extent disk.old }
        requires least { 17 ≤ size }
        requires fits { place + size < 2 ^ 64 }
        ensures same { SameDevice D.extent D.is_honest disk.old disk.new }
        ensures cause { MatchResult result
            (λ _. D.faults disk.new ≡ D.faults disk.old)
            (IsReadRefusal
            (λ at. InRecords place size at × (D.is_honest disk.old → Breaks place size (D.state disk.old).seen at))
            device (D.faults disk.old) (D.faults disk.new)) }
        ensures log { IfOk result (λ r. IfSome r (λ p.
            p.0 ≡ record { device = device; place = place; size = size; gate = gate_behind (bodies_of p.1.items) })) }
        ensures read { D.is_honest disk.old → IfOk result (λ r. MatchOption r
            (IsOpen place (D.state disk.old).seen → ⊥)
            (λ p. IsOpen place (D.state disk.old).seen
            × Lists place size (bodies_of p.1.items) (D.state disk.old).seen)) }
        ensures reads { D.is_honest disk.old → OnlyReads D.remembers D.state D.clock disk.old disk.new }
    {
        let region = read_bytes(alloc, disk, device, place, size)?;
        if region[0] != OPEN_GATE {
            return Ok(None);
        }
        let (bodies, end) = read_records(
            alloc,
            device,
            place + HEADER_BYTES as u64,
            &region[HEADER_BYTES..],
        )?;
        let log = GateLog::at(device, place, size, HEADER_BYTES as u64 + end);
        Ok(Some((log, bodies)))
    }

    /// The device of the log.
    pub fn device(&self) -> Device
        ensures { result ≡ self.now.device }
    {
        self.device
    }

    /// Where on the device the log's region begins.
    pub fn place(&self) -> u64
        ensures { result ≡ self.now.place }
    {
        self.place
    }

    /// How many bytes the log's region has.
    pub fn size(&self) -> u64
        ensures { result ≡ self.now.size }
    {
        self.size
    }

    /// Where on the device the closed gate behind the list stands.
    pub fn end(&self) -> u64
        ensures { result ≡ self.now.place + self.now.gate }
    {
        self.place + self.gate
    }

    /// How many bytes of the region are free, the closed gate's among them.
    pub fn free(&self) -> u64
        ensures { result ≡ self.now.size - self.now.gate }
    {
        self.size - self.gate
    }

    /// Adds a body: four calls of the device, and no memory. A crash at any moment of it leaves the list with
    /// the body or without; after a success nothing is loose and each crash leaves it with the body. It is
    /// refused where the record and the gate behind it do not fit, and then the device is as it was; else
    /// exactly where a call of the device failed, and then the log is to be read anew.
    pub fn append<D: Disk>(&mut self, disk: &mut D, framed: &Framed) -> Result<(), Refusal>
        requires { self.old.place + self.old.size ≤ D.extent disk.old }
        ensures same { SameDevice D.extent D.is_honest disk.old disk.new }
        ensures log { self.new ≡ after_append self.old framed.now (is_ok result) }
        ensures cause { MatchResult result
            (λ _. HasRoom self.old (length framed.now) × (D.faults disk.new ≡ D.faults disk.old))
            (IsAppendRefusal self.old (length framed.now) (D.faults disk.old) (D.faults disk.new)) }
        ensures untouched { IfErr result (λ refusal. (IsDiskFault refusal → ⊥) → disk.new ≡ disk.old) }
        ensures appends { D.is_honest disk.old
            → Appends self.old self.new framed.now D.remembers D.state D.clock disk.old disk.new result }
    {
        let needed = framed.len() + 6;
        let free = self.free();
        if free < needed {
            return Err(Refusal::NoRoom { needed, free });
        }
        let device = self.device();
        let gate = self.end();
        let piece = framed.as_bytes();
        put_durably(disk, device, gate + 1, piece)?;
        put_durably(disk, device, gate, &[OPEN_GATE])?;
        self.gate += framed.len() + 5;
        Ok(())
    }
}
