//! A device that fails and stops as a test says.

ghost use Rattle.std.specs.Prelude.{◌≡◌, ◌≤◌, ◌↔◌, [], ◌+◌, length, take, drop, replicate};
ghost use Rattle.std.specs.Prelude.{refl, None, IfOk, IfErr, IsErr, OnOk, OnErr};
ghost use Rattle.disk_mem.specs.Disks.{called, failed, fresh, MustFail, settled, with_step, WriteFailed};
ghost use Rattle.disk_mem.specs.History.{clock_of, Filled, state_of, TakenFrom};
ghost use Rattle.disk_mem.specs.Plan.{made};
ghost use Rattle.disk_mem.specs.Moments.{now_counts, only_now};
ghost use Rattle.disk_mem.specs.declared.recording.Event.TheVariants.{Wrote};
ghost use Rattle.disk_mem.specs.declared.schedule.Call.TheVariants.{Read, Write, Sync};
ghost use Rattle.disk_model.specs.Cause.{HasCause};
ghost use Rattle.disk_model.specs.Moments.{Elapses};
ghost use Rattle.disk_model.specs.Disk.{IsImage, Writes};
ghost use Rattle.retro_base.specs.Cause.{raised};
ghost use Rattle.retro_base.specs.declared.refusal.Refusal.TheVariants.{OutOfMemory};

use crate::recording::Recording;
use crate::schedule::{Call, Fate, Schedule};
use disk_model::{Disk, Failed};
use retro_base::Refusal;
use std::alloc::Global;
use std::marker::Model;

/// A device in memory that fails as planned. It records what has changed it since it was made, from which
/// follows what a crash might have left at each moment. Apart from the plan, only a write fails, for want of memory.
#[derive(Drop)]
pub struct MemDisk {
    recording: Recording,
    schedule: Schedule,
    faults: u64,
}

impl Model for MemDisk {
    ghost use Rattle.std.specs.Prelude.{◌≤◌};
    ghost use Rattle.disk_mem.specs.Disks.{Device};
    ghost use Rattle.disk_mem.specs.Plan.{writes_over};

    ghost Value = { Device };

    ghost view = { λ disk. record { past = disk.recording.past; plan = disk.schedule; faults = disk.faults } };

    ghost invariant = { λ disk. writes_over disk.schedule.writes disk.schedule.failing ≤ disk.recording.room };
}

impl MemDisk {
    /// A device of that many bytes, all of them 0 and durable. The listed calls of a kind fail, numbered from 1,
    /// and so does each call after the first `stop` ones. A listed write that fails makes its range loose; a
    /// call behind the stop changes nothing.
    pub fn new(
        alloc: Global,
        size: u64,
        failing: Vec<(Call, u64)>,
        stop: Option<u64>,
    ) -> Result<MemDisk, Refusal>
        ensures ok { IfOk result (λ disk. disk ≡ fresh (replicate size 0) failing.items stop) }
        ensures err { IfErr result (λ e. e ≡ OutOfMemory) }
    {
        let bytes = vec![in alloc; 0; size as usize]?;
        MemDisk::holding(alloc, bytes, failing, stop)
    }

    /// A device with the bytes of this one, all of them durable, whose calls fail as is said here.
    pub fn again(
        &self,
        alloc: Global,
        failing: Vec<(Call, u64)>,
        stop: Option<u64>,
    ) -> Result<MemDisk, Refusal>
        ensures ok { IfOk result (λ disk. disk ≡ fresh (state_of self.now.past).seen failing.items stop) }
        ensures err { IfErr result (λ e. e ≡ OutOfMemory) }
    {
        let bytes = self.bytes().to_vec(alloc)?;
        MemDisk::holding(alloc, bytes, failing, stop)
    }

    /// What a crash leaves now, where each loose byte becomes `fill`: a device of which no call fails.
    pub fn crash(&self, alloc: Global, fill: u8) -> Result<MemDisk, Refusal>
        ensures image { IfOk result (λ disk. Filled fill (state_of self.now.past) disk.past.first) }
        ensures fresh { IfOk result (λ disk. disk ≡ fresh disk.past.first [] None) }
        ensures err { IfErr result (λ e. e ≡ OutOfMemory) }
    {
        let bytes = self.recording.crash(alloc, fill)?;
        MemDisk::holding(alloc, bytes, Vec::new(alloc), None)
    }

    /// What a crash leaves now, where each loose byte is the one in that place of `left`: a device of which no
    /// call fails.
    pub fn crash_as(&self, alloc: Global, left: &[u8]) -> Result<MemDisk, Refusal>
        requires { length left.now ≡ length (state_of self.now.past).seen }
        ensures image { IfOk result (λ disk. TakenFrom left.now (state_of self.now.past) disk.past.first) }
        ensures fresh { IfOk result (λ disk. disk ≡ fresh disk.past.first [] None) }
        ensures err { IfErr result (λ e. e ≡ OutOfMemory) }
    {
        let bytes = self.recording.crash_as(alloc, left)?;
        MemDisk::holding(alloc, bytes, Vec::new(alloc), None)
    }

    fn holding(
        alloc: Global,
        bytes: Vec<u8>,
        failing: Vec<(Call, u64)>,
        stop: Option<u64>,
    ) -> Result<MemDisk, Refusal>
        ensures ok { IfOk result (λ disk. disk ≡ fresh bytes.items failing.items stop) }
        ensures err { IfErr result (λ e. e ≡ OutOfMemory) }
    {
        Ok(MemDisk {
            recording: Recording::new(alloc, bytes, failing.len())?,
            schedule: Schedule::new(failing, stop),
            faults: 0,
        })
    }

    /// How many calls of that kind there were.
    pub fn calls(&self, kind: Call) -> u64
        ensures { result ≡ made self.now.plan kind }
    {
        self.schedule.made(kind)
    }

    /// The bytes that a read returns.
    pub fn bytes(&self) -> &[u8]
        ensures { result.now ≡ (state_of self.now.past).seen }
    {
        self.recording.bytes()
    }

    // Counts a failed call.
    fn fault(&mut self) -> Failed
        ensures counted { self.new ≡ record self.old { faults = raised self.old.faults } }
        ensures later { self.old.faults ≤ self.new.faults }
    {
        self.faults = self.faults.saturating_add(1);
        Failed
    }
}

impl Disk for MemDisk {
    ghost extent = { λ disk. length (state_of disk.past).seen };

    ghost faults = { λ disk. disk.faults };

    ghost is_honest = { λ _. Unit {0} };

    ghost remembers = { Unit {0} };

    ghost state = { λ disk. state_of disk.past };

    ghost clock = { λ disk. clock_of disk.past };

    ghost sized = { λ _ _. refl };

    ghost counts_now = { λ disk t image _ _ is. now_counts disk.past t image is };

    ghost only_now = { λ disk image _ left. only_now disk.past image left };

    fn size(&self) -> u64 {
        self.bytes().len() as u64
    }

    fn faults(&self) -> u64 {
        self.faults
    }

    fn read_at(&mut self, place: u64, out: &mut [u8]) -> Result<(), Failed>
        requires { place + length out.old ≤ length (state_of self.old.past).seen }
        ensures extent { length (state_of self.new.past).seen ≡ length (state_of self.old.past).seen }
        ensures planned { IsErr result ↔ MustFail self.old Read }
        ensures read { OnOk result (out.new ≡ take (length out.old) (drop place (state_of self.old.past).seen)) }
        ensures ok { OnOk result (self.new ≡ called self.old Read) }
        ensures err { OnErr result (self.new ≡ failed self.old Read) }
        ensures cause { HasCause self.old.faults self.new.faults result }
    {
        match self.schedule.turn(Call::Read) {
            Fate::Goes => {
                let start = place as usize;
                out.copy_from_slice(&self.bytes()[start..start + out.len()]);
                Ok(())
            }
            Fate::Fails | Fate::Stopped => Err(self.fault()),
        }
    }

    fn write_at(&mut self, place: u64, bytes: &[u8]) -> Result<(), Failed>
        requires { place + length bytes.now ≤ length (state_of self.old.past).seen }
        ensures extent { length (state_of self.new.past).seen ≡ length (state_of self.old.past).seen }
        ensures planned { MustFail self.old Write → IsErr result }
        ensures ok { OnOk result (self.new ≡ with_step (called self.old Write) (Wrote place bytes.now)) }
        ensures err { OnErr result (WriteFailed self.old self.new place (length bytes.now)) }
        ensures cause { HasCause self.old.faults self.new.faults result }
        ensures written { Writes place bytes.now (state_of self.old.past) (state_of self.new.past) result }
        ensures time { Elapses (Unit {0}) (clock_of self.old.past) (clock_of self.new.past)
            (IsImage (state_of self.new.past)) }
    {
        match self.schedule.turn(Call::Write) {
            Fate::Goes => match self.recording.write(place, bytes) {
                Ok(()) => Ok(()),
                Err(_) => Err(self.fault()),
            },
            Fate::Fails => {
                self.recording.lose(place, bytes.len() as u64);
                Err(self.fault())
            }
            Fate::Stopped => Err(self.fault()),
        }
    }

    fn sync(&mut self) -> Result<(), Failed>
        ensures extent { length (state_of self.new.past).seen ≡ length (state_of self.old.past).seen }
        ensures planned { IsErr result ↔ MustFail self.old Sync }
        ensures ok { OnOk result (self.new ≡ record (called self.old Sync) { past = settled self.old.past }) }
        ensures err { OnErr result (self.new ≡ failed self.old Sync) }
        ensures cause { HasCause self.old.faults self.new.faults result }
        ensures time { Elapses (Unit {0}) (clock_of self.old.past) (clock_of self.new.past)
            (IsImage (state_of self.new.past)) }
    {
        match self.schedule.turn(Call::Sync) {
            Fate::Goes => {
                self.recording.settle();
                Ok(())
            }
            Fate::Fails | Fate::Stopped => Err(self.fault()),
        }
    }
}
