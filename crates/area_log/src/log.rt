//! The list of a device of two halves.

ghost use Rattle.std.specs.Prelude.{◌≡◌, ◌≤◌, ◌+◌, ◌-◌, ◌*◌, ◌/◌, ◌%◌, ◌∷◌, [], ◌++◌, None, length};
ghost use Rattle.std.specs.Prelude.{Ok, Err, IfOk, IfErr, MatchOption, MatchResult};
ghost use Rattle.disk_model.specs.Runs.{SameDevice, WritesNothing};
ghost use Rattle.retro_base.specs.declared.refusal.Refusal.TheVariants.{NotAStore};
ghost use Rattle.gate_log.specs.Bodies.{bodies_of};
ghost use Rattle.gate_log.specs.Cause.{Fit, HasRoom, IsAppendRefusal, IsDiskFault, IsFillRefusal, IsReadRefusal};
ghost use Rattle.area_log.specs.Area.{after_refusal, AfterWrite, appended, Fetched, IsRead, replaced, Writes};
ghost use Rattle.area_log.specs.Cause.{IsWriteRefusal};
ghost use Rattle.area_log.specs.Making.{Makes};
ghost use Rattle.area_log.specs.Regions.{BreaksSettled, IsPlaceOfRefusal};

use crate::header::{find_counting, next_after};
use crate::rewrite::rewrite;
use disk_model::Disk;
use gate_log::{Framed, GateLog, Prepared, settle};
use retro_base::{Device, Refusal};
use std::alloc::Global;
use std::marker::Model;

/// A list of bodies on a device. After a fault of a write it refuses every further write, and tells that fault.
#[derive(Drop)]
pub struct AreaLog {
    log: GateLog,
    generation: u64,
    is_other_open: bool,
    fault: Option<u64>,
}

impl Model for AreaLog {
    ghost use Rattle.std.specs.Prelude.{◌≡◌, ◌<◌, ◌≤◌, ◌*◌, ◌^◌};
    ghost use Rattle.area_log.specs.Area.{Area};

    ghost Value = { Area };

    ghost view = { λ a.
        record { log = a.log; generation = a.generation; is_other_open = a.is_other_open; fault = a.fault } };

    ghost invariant = { λ a. (a.log.place ≤ a.log.size) × (17 ≤ a.log.size) × (2 * a.log.size < 2 ^ 64) };
}

impl AreaLog {
    /// Makes the list of an all-zero device, in its first half. It is refused for want of memory, where the
    /// records and the gate behind them do not fit behind a header, and exactly where a call of the device failed.
    pub fn make<D: Disk>(
        alloc: Global,
        disk: &mut D,
        device: Device,
        bodies: &[Framed],
    ) -> Result<(), Refusal>
        requires even { D.extent disk.old % 2 ≡ 0 }
        requires least { 34 ≤ D.extent disk.old }
        ensures same { SameDevice D.extent D.is_honest disk.old disk.new }
        ensures cause { MatchResult result
            (λ _. Fit (D.extent disk.old / 2) bodies.now × (D.faults disk.new ≡ D.faults disk.old))
            (IsFillRefusal (D.extent disk.old / 2) bodies.now device
            (D.faults disk.old) (D.faults disk.new)) }
        ensures untouched { IfErr result (λ refusal. (IsDiskFault refusal → ⊥) → disk.new ≡ disk.old) }
        ensures makes { D.is_honest disk.old
            → Makes (D.extent disk.old) bodies.now D.remembers D.state D.clock disk.old disk.new result }
    {
        let size = disk.size() / 2;
        let prepared = Prepared::new(alloc, size, 1, bodies)?;
        let _log = rewrite(disk, device, 0, size, false, &prepared)?;
        Ok(())
    }

    /// Syncs a device, and then reads its log and its bodies. It is refused for want of memory, exactly where a call
    /// of the device failed, and where the device lists nothing: with the place 0 where neither half counts, else
    /// with the place of the record that breaks. What is answered is of a device with nothing loose.
    pub fn fetch<D: Disk>(
        alloc: Global,
        disk: &mut D,
        device: Device,
    ) -> Result<(AreaLog, Vec<Vec<u8>>), Refusal>
        requires even { D.extent disk.old % 2 ≡ 0 }
        requires least { 34 ≤ D.extent disk.old }
        ensures same { SameDevice D.extent D.is_honest disk.old disk.new }
        ensures cause { MatchResult result
            (λ _. D.faults disk.new ≡ D.faults disk.old)
            (IsReadRefusal (λ broken. IsPlaceOfRefusal (D.extent disk.old / 2) broken × (D.is_honest disk.old
            → BreaksSettled (D.extent disk.old / 2) (D.state disk.old) (D.state disk.new) broken))
            device (D.faults disk.old) (D.faults disk.new)) }
        ensures log { IfOk result (λ p. IsRead device (D.extent disk.old) (bodies_of p.1.items) p.0) }
        ensures fetched { D.is_honest disk.old → IfOk result (λ p.
            Fetched (D.extent disk.old / 2) p.0 (bodies_of p.1.items) (D.state disk.old) (D.state disk.new)) }
        ensures quiet { D.is_honest disk.old → WritesNothing D.remembers D.state D.clock disk.old disk.new }
    {
        settle(disk, device)?;
        let size = disk.size() / 2;
        let counting = find_counting(disk, device, size)?;
        let read = GateLog::read_region(alloc, disk, device, counting.place, size)?;
        let (log, bodies) = read_open(device, read)?;
        let area = AreaLog {
            log,
            generation: counting.generation,
            is_other_open: counting.is_other_open,
            fault: None,
        };
        Ok((area, bodies))
    }

    /// The device of the log.
    pub(crate) fn device(&self) -> Device
        ensures { result ≡ self.now.log.device }
    {
        self.log.device()
    }

    /// Where on the device the closed gate behind the list stands.
    pub fn end(&self) -> u64
        ensures { result ≡ self.now.log.place + self.now.log.gate }
    {
        self.log.end()
    }

    /// How many bytes of the half that counts are free, the closed gate's among them.
    pub fn free(&self) -> u64
        ensures { result ≡ self.now.log.size - self.now.log.gate }
    {
        self.log.free()
    }

    /// The first fault of a write, after which every further write is refused.
    pub fn fault(&self) -> Option<u64>
        ensures { result ≡ self.now.fault }
    {
        self.fault
    }

    /// Adds a body: four calls of the device, and no memory. A crash at any moment of it leaves the list with the
    /// body or without; after a success nothing is loose and each crash leaves it with the body. It is refused,
    /// in this order, after a fault of an earlier write, with the first; where the record and the gate behind it
    /// do not fit; and exactly where a call of the device failed. The first two leave the device as it was.
    pub fn append<D: Disk>(&mut self, disk: &mut D, framed: &Framed) -> Result<(), Refusal>
        requires { D.extent disk.old ≡ 2 * self.old.log.size }
        ensures same { SameDevice D.extent D.is_honest disk.old disk.new }
        ensures log { AfterWrite self.old (appended self.old framed.now) result self.new }
        ensures cause { MatchResult result
            (λ _. (self.old.fault ≡ None) × HasRoom self.old.log (length framed.now)
            × (D.faults disk.new ≡ D.faults disk.old))
            (IsWriteRefusal self.old
            (IsAppendRefusal self.old.log (length framed.now) (D.faults disk.old) (D.faults disk.new))
            (D.faults disk.old) (D.faults disk.new)) }
        ensures untouched { IfErr result (λ refusal. (IsDiskFault refusal → ⊥) → disk.new ≡ disk.old) }
        ensures writes { D.is_honest disk.old → Writes self.old self.new (λ bodies. bodies ++ framed.now ∷ [])
            D.remembers D.state D.clock disk.old disk.new result }
    {
        if let Some(count) = self.fault {
            let device = self.log.device();
            return Err(Refusal::Stopped { device, count });
        }
        match self.log.append(disk, framed) {
            Ok(()) => Ok(()),
            Err(refusal) => Err(self.keep(refusal)),
        }
    }

    /// Puts these bodies in the place of all that are there: four calls of the device, and two before them where
    /// the half that does not count is open. A crash at any moment of it leaves the old list or the new one whole;
    /// after a success nothing is loose and each crash leaves the new one. It is refused, in this order, after a
    /// fault of an earlier write, with the first; for want of memory; where the records and the gate behind them
    /// do not fit behind a header; and exactly where a call of the device failed. All but the last leave the
    /// device as it was.
    pub fn replace<D: Disk>(
        &mut self,
        alloc: Global,
        disk: &mut D,
        bodies: &[Framed],
    ) -> Result<(), Refusal>
        requires { D.extent disk.old ≡ 2 * self.old.log.size }
        ensures same { SameDevice D.extent D.is_honest disk.old disk.new }
        ensures log { AfterWrite self.old (replaced self.old bodies.now) result self.new }
        ensures cause { MatchResult result
            (λ _. (self.old.fault ≡ None) × Fit self.old.log.size bodies.now
            × (D.faults disk.new ≡ D.faults disk.old))
            (IsWriteRefusal self.old
            (IsFillRefusal self.old.log.size bodies.now self.old.log.device
            (D.faults disk.old) (D.faults disk.new))
            (D.faults disk.old) (D.faults disk.new)) }
        ensures untouched { IfErr result (λ refusal. (IsDiskFault refusal → ⊥) → disk.new ≡ disk.old) }
        ensures writes { D.is_honest disk.old → Writes self.old self.new (λ _. bodies.now)
            D.remembers D.state D.clock disk.old disk.new result }
    {
        let device = self.log.device();
        if let Some(count) = self.fault {
            return Err(Refusal::Stopped { device, count });
        }
        let size = self.log.size();
        let other = size - self.log.place();
        let generation = next_after(self.generation);
        let prepared = Prepared::new(alloc, size, generation, bodies)?;
        match rewrite(disk, device, other, size, self.is_other_open, &prepared) {
            Ok(log) => {
                *self = AreaLog {
                    log,
                    generation,
                    is_other_open: true,
                    fault: None,
                };
                Ok(())
            }
            Err(refusal) => Err(self.keep(refusal)),
        }
    }

    // Keeps a fault of a write, and gives the refusal back.
    fn keep(&mut self, refusal: Refusal) -> Refusal
        ensures kept { self.new ≡ after_refusal self.old refusal }
        ensures same { result ≡ refusal }
    {
        if let Refusal::DiskFault { count, .. } = refusal {
            self.fault = Some(count);
        }
        refusal
    }
}

// What was read of the half that counts. Where its gate is closed now, the device did not tell the same twice, and is
// refused at its first place.
fn read_open(
    device: Device,
    read: Option<(GateLog, Vec<Vec<u8>>)>,
) -> Result<(GateLog, Vec<Vec<u8>>), Refusal>
    ensures { MatchOption read (result ≡ Err (NotAStore device 0)) (λ p. result ≡ Ok p) }
{
    match read {
        Some(found) => Ok(found),
        None => Err(Refusal::NotAStore { device, place: 0 }),
    }
}
