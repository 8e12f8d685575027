//! The page images of an archive.

ghost use Rattle.std.specs.Prelude.{◌≡◌, ◌<◌, ◌≤◌, ◌*◌, OnOk, OnErr};
ghost use Rattle.block_file.specs.Blocks.{block_at, FillsDevice, IsAsLong, SameFile, slot_of, WritesOnly};
ghost use Rattle.disk_model.specs.Disk.{IsDurable};
ghost use Rattle.disk_model.specs.Moments.{LeavesOnly};
ghost use Rattle.disk_model.specs.Runs.{OnlyReads, WritesNothing};
ghost use Rattle.retro_base.specs.Cause.{FaultsAlone};
ghost use Rattle.retro_base.specs.declared.device.Device.TheVariants.{Pagelog as OfPagelog};
ghost use Rattle.retro_base.specs.declared.limits.TheConstants.{PAGE_BYTES};

use crate::block::{read_block, write_block};
use disk_model::Disk;
use gate_log::settle;
use retro_base::{Device, Page, Refusal};
use std::marker::Model;

/// The page images of an archive: a ring of slots on a device, in which the image of a number stands in the
/// slot of that number modulo the capacity. Contracts see the device, and how many slots it has.
#[derive(Drop)]
pub struct Pagelog<D: Disk> {
    disk: D,
    capacity: u32,
}

impl<D: Disk> Model for Pagelog<D> {
    ghost use Rattle.std.specs.Prelude.{◌≡◌, ◌≤◌, ◌*◌};
    ghost use Rattle.block_file.specs.Blocks.{File};
    ghost use Rattle.retro_base.specs.declared.limits.TheConstants.{PAGE_BYTES};

    ghost Value = { File D };

    ghost view = { λ log. record { disk = log.disk; blocks = log.capacity } };

    ghost invariant = { λ log. (1 ≤ log.capacity) × (D.extent log.disk ≡ PAGE_BYTES * log.capacity) };
}

impl<D: Disk> Pagelog<D> {
    /// The slots of this device.
    pub fn new(disk: D, capacity: u32) -> Pagelog<D>
        requires some { 1 ≤ capacity }
        requires whole { D.extent disk ≡ PAGE_BYTES * capacity }
        ensures file { result ≡ record { disk = disk; blocks = capacity } }
        ensures fills { FillsDevice D.is_honest D.state result }
    {
        Pagelog { disk, capacity }
    }

    /// The device.
    pub fn into_disk(self) -> D
        ensures disk { result ≡ self.disk }
        ensures whole { D.extent result ≡ PAGE_BYTES * self.blocks }
    {
        let Pagelog { disk, capacity: _ } = self;
        disk
    }

    /// Reads the slot of that number. After a fault `out` is as before.
    pub fn fetch(&mut self, number: u64, out: &mut Page) -> Result<(), Refusal>
        ensures same { SameFile D.is_honest self.old self.new }
        ensures fills { FillsDevice D.is_honest D.state self.new }
        ensures cause { FaultsAlone OfPagelog (D.faults self.old.disk) (D.faults self.new.disk) result }
        ensures fetched { D.is_honest self.old.disk
            → OnOk result (out.new ≡ block_at (D.state self.old.disk).seen (slot_of self.old.blocks number)) }
        ensures err { OnErr result (out.new ≡ out.old) }
        ensures quiet { D.is_honest self.old.disk
            → OnlyReads D.remembers D.state D.clock self.old.disk self.new.disk }
    {
        let slot = slot_in(self.capacity, number);
        read_block(&mut self.disk, Device::Pagelog, slot, out)
    }

    /// Writes the slot of that number. Until the next settle a crash may leave any bytes in it, and after a
    /// fault so may a read.
    pub fn lay(&mut self, number: u64, bytes: &Page) -> Result<(), Refusal>
        ensures same { SameFile D.is_honest self.old self.new }
        ensures fills { FillsDevice D.is_honest D.state self.new }
        ensures cause { FaultsAlone OfPagelog (D.faults self.old.disk) (D.faults self.new.disk) result }
        ensures laid { D.is_honest self.old.disk
            → OnOk result (block_at (D.state self.new.disk).seen (slot_of self.old.blocks number) ≡ bytes.now) }
        ensures alone { D.is_honest self.old.disk → WritesOnly (λ slot. slot ≡ slot_of self.old.blocks number)
            D.remembers D.state D.clock self.old.disk self.new.disk }
        ensures long { D.is_honest self.old.disk → LeavesOnly D.remembers (D.clock self.old.disk)
            (D.clock self.new.disk) (IsAsLong (D.state self.old.disk)) }
    {
        let slot = slot_in(self.capacity, number);
        write_block(&mut self.disk, Device::Pagelog, slot, bytes)
    }

    /// Makes every slot durable: each crash after it leaves the slots as they read. After a fault what was
    /// loose may be so still.
    pub fn settle(&mut self) -> Result<(), Refusal>
        ensures same { SameFile D.is_honest self.old self.new }
        ensures fills { FillsDevice D.is_honest D.state self.new }
        ensures cause { FaultsAlone OfPagelog (D.faults self.old.disk) (D.faults self.new.disk) result }
        ensures settled { D.is_honest self.old.disk → OnOk result (IsDurable (D.state self.new.disk)) }
        ensures quiet { D.is_honest self.old.disk
            → WritesNothing D.remembers D.state D.clock self.old.disk self.new.disk }
        ensures long { D.is_honest self.old.disk → LeavesOnly D.remembers (D.clock self.old.disk)
            (D.clock self.new.disk) (IsAsLong (D.state self.old.disk)) }
    {
        settle(&mut self.disk, Device::Pagelog)
    }
}

// The slot of that number.
fn slot_in(capacity: u32, number: u64) -> u32
    requires { 1 ≤ capacity }
    ensures slot { result ≡ slot_of capacity number }
    ensures within { result < capacity }
{
    (number % u64::from(capacity)) as u32
}
