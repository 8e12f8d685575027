//! A plain device in memory.

ghost use Rattle.std.specs.Prelude.{◌≡◌, ◌≤◌, ◌+◌, length, take, drop, replicate, refl, Ok, IfOk, IfErr};
ghost use Rattle.disk_model.specs.Disk.{IsImage, written};
ghost use Rattle.retro_base.specs.declared.refusal.Refusal.TheVariants.{OutOfMemory};

use disk_model::{Disk, Failed};
use retro_base::Refusal;
use std::alloc::Global;
use std::marker::Model;

/// A device in memory of which no call fails. What it reads is all that a crash leaves.
#[derive(Drop)]
pub struct RamDisk {
    bytes: Vec<u8>,
}

impl Model for RamDisk {
    ghost use Rattle.std.specs.Prelude.{List, ℕ};

    ghost Value = { List ℕ };

    ghost view = { λ disk. disk.bytes.items };
}

impl RamDisk {
    /// A device of that many bytes, all of them 0. It takes all its memory here.
    pub fn new(alloc: Global, size: u64) -> Result<RamDisk, Refusal>
        ensures ok { IfOk result (λ disk. disk ≡ replicate size 0) }
        ensures err { IfErr result (λ e. e ≡ OutOfMemory) }
    {
        let bytes = vec![in alloc; 0; size as usize]?;
        Ok(RamDisk { bytes })
    }
}

impl Disk for RamDisk {
    ghost extent = { λ disk. length disk };

    ghost faults = { λ _. 0 };

    ghost is_honest = { λ _. Unit {0} };

    ghost remembers = { ⊥ };

    ghost state = { λ disk. record { seen = disk; is_loose = λ _. ⊥ } };

    ghost clock = { λ disk. record {
      moment = 0;
      left_since = λ _. IsImage (record { seen = disk; is_loose = λ _. ⊥ });
    } };

    ghost sized = { λ _ _. refl };

    ghost counts_now = { λ _ _ _ _ _ is. is };

    ghost only_now = { λ _ _ _ left. left };

    fn size(&self) -> u64 {
        self.bytes.len() as u64
    }

    fn faults(&self) -> u64 {
        0
    }

    fn read_at(&mut self, place: u64, out: &mut [u8]) -> Result<(), Failed>
        requires { place + length out.old ≤ length self.old }
        ensures ok { result ≡ Ok tt }
        ensures read { out.new ≡ take (length out.old) (drop place self.old) }
        ensures same { self.new ≡ self.old }
    {
        let start = place as usize;
        out.copy_from_slice(&self.bytes[start..start + out.len()]);
        Ok(())
    }

    fn write_at(&mut self, place: u64, bytes: &[u8]) -> Result<(), Failed>
        requires { place + length bytes.now ≤ length self.old }
        ensures ok { result ≡ Ok tt }
        ensures written { self.new ≡ written place bytes.now self.old }
        ensures extent { length self.new ≡ length self.old }
    {
        let start = place as usize;
        self.bytes[start..start + bytes.len()].copy_from_slice(bytes);
        Ok(())
    }

    fn sync(&mut self) -> Result<(), Failed>
        ensures ok { result ≡ Ok tt }
        ensures same { self.new ≡ self.old }
    {
        Ok(())
    }
}
