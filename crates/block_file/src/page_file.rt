//! The pages of a store.

ghost use Rattle.std.specs.Prelude.{◌≡◌, ◌<◌, ◌*◌, OnOk, OnErr};
ghost use Rattle.block_file.specs.Blocks.{block_at, FillsDevice, IsAsLong, SameFile, WritesOnly};
ghost use Rattle.disk_model.specs.Disk.{IsDurable};
ghost use Rattle.disk_model.specs.Moments.{LeavesOnly};
ghost use Rattle.disk_model.specs.Runs.{OnlyReads, WritesNothing};
ghost use Rattle.retro_base.specs.Cause.{FaultsAlone};
ghost use Rattle.retro_base.specs.declared.device.Device.TheVariants.{Pages};
ghost use Rattle.retro_base.specs.declared.limits.TheConstants.{PAGE_BYTES};

use crate::block::{read_block, write_block};
use disk_model::Disk;
use gate_log::settle;
use retro_base::{Device, Page, Refusal};
use std::marker::Model;

/// The pages of a store, each in its place on a device. Contracts see the device, and how many pages it has.
#[derive(Drop)]
pub struct PageFile<D: Disk> {
    disk: D,
    pages: u32,
}

impl<D: Disk> Model for PageFile<D> {
    ghost use Rattle.std.specs.Prelude.{◌≡◌, ◌*◌};
    ghost use Rattle.block_file.specs.Blocks.{File};
    ghost use Rattle.retro_base.specs.declared.limits.TheConstants.{PAGE_BYTES};

    ghost Value = { File D };

    ghost view = { λ file. record { disk = file.disk; blocks = file.pages } };

    ghost invariant = { λ file. D.extent file.disk ≡ PAGE_BYTES * file.pages };
}

impl<D: Disk> PageFile<D> {
    /// The pages of this device.
    pub fn new(disk: D, pages: u32) -> PageFile<D>
        requires { D.extent disk ≡ PAGE_BYTES * pages }
        ensures file { result ≡ record { disk = disk; blocks = pages } }
        ensures fills { FillsDevice D.is_honest D.state result }
    {
        PageFile { disk, pages }
    }

    /// How many pages it has.
    pub fn pages(&self) -> u32
        ensures { result ≡ self.now.blocks }
    {
        self.pages
    }

    /// The device.
    pub fn into_disk(self) -> D
        ensures disk { result ≡ self.disk }
        ensures whole { D.extent result ≡ PAGE_BYTES * self.blocks }
    {
        let PageFile { disk, pages: _ } = self;
        disk
    }

    /// Reads the page of that number. After a fault `out` is as before.
    pub fn read(&mut self, page: u32, out: &mut Page) -> Result<(), Refusal>
        requires { page < self.old.blocks }
        ensures same { SameFile D.is_honest self.old self.new }
        ensures fills { FillsDevice D.is_honest D.state self.new }
        ensures cause { FaultsAlone Pages (D.faults self.old.disk) (D.faults self.new.disk) result }
        ensures read { D.is_honest self.old.disk
            → OnOk result (out.new ≡ block_at (D.state self.old.disk).seen page) }
        ensures err { OnErr result (out.new ≡ out.old) }
        ensures quiet { D.is_honest self.old.disk
            → OnlyReads D.remembers D.state D.clock self.old.disk self.new.disk }
    {
        read_block(&mut self.disk, Device::Pages, page, out)
    }

    /// Writes the page of that number. Until the next settle a crash may leave any bytes in it, and after a
    /// fault so may a read.
    pub fn write(&mut self, page: u32, bytes: &Page) -> Result<(), Refusal>
        requires { page < self.old.blocks }
        ensures same { SameFile D.is_honest self.old self.new }
        ensures fills { FillsDevice D.is_honest D.state self.new }
        ensures cause { FaultsAlone Pages (D.faults self.old.disk) (D.faults self.new.disk) result }
        ensures written { D.is_honest self.old.disk
            → OnOk result (block_at (D.state self.new.disk).seen page ≡ bytes.now) }
        ensures alone { D.is_honest self.old.disk
            → WritesOnly (λ other. other ≡ page) D.remembers D.state D.clock self.old.disk self.new.disk }
        ensures long { D.is_honest self.old.disk → LeavesOnly D.remembers (D.clock self.old.disk)
            (D.clock self.new.disk) (IsAsLong (D.state self.old.disk)) }
    {
        write_block(&mut self.disk, Device::Pages, page, bytes)
    }

    /// Makes every page durable: each crash after it leaves the pages as they read. After a fault what was
    /// loose may be so still.
    pub fn settle(&mut self) -> Result<(), Refusal>
        ensures same { SameFile D.is_honest self.old self.new }
        ensures fills { FillsDevice D.is_honest D.state self.new }
        ensures cause { FaultsAlone Pages (D.faults self.old.disk) (D.faults self.new.disk) result }
        ensures settled { D.is_honest self.old.disk → OnOk result (IsDurable (D.state self.new.disk)) }
        ensures quiet { D.is_honest self.old.disk
            → WritesNothing D.remembers D.state D.clock self.old.disk self.new.disk }
        ensures long { D.is_honest self.old.disk → LeavesOnly D.remembers (D.clock self.old.disk)
            (D.clock self.new.disk) (IsAsLong (D.state self.old.disk)) }
    {
        settle(&mut self.disk, Device::Pages)
    }
}
