//! A device that tells no bytes: what it shows once it does not show again.

ghost use Rattle.std.specs.Prelude.{[]};

use area_log::AreaLog;
use disk_model::{Disk, Failed};
use retro_base::{Device, Refusal};
use std::alloc::Global;
use std::test::Fail;

// A device of 128 bytes that shows an open header of generation 1 at a place, once, and zeros otherwise.
#[derive(Drop)]
struct Fickle {
    place: u64,
    is_shown: bool,
}

impl Disk for Fickle {
    ghost extent = { λ _. 128 };

    ghost faults = { λ _. 0 };

    ghost is_honest = { λ _. ⊥ };

    ghost remembers = { ⊥ };

    ghost state = { λ _. record { seen = []; is_loose = λ _. ⊥ } };

    ghost clock = { λ _. record { moment = 0; left_since = λ _ _. ⊥ } };

    ghost sized = { λ _ honest. absurd honest };

    ghost counts_now = { λ _ _ _ honest _ _. absurd honest };

    ghost only_now = { λ _ _ honest _. absurd honest };

    fn size(&self) -> u64 {
        128
    }

    fn faults(&self) -> u64 {
        0
    }

    fn read_at(&mut self, place: u64, out: &mut [u8]) -> Result<(), Failed> {
        out.fill(0);
        if place == self.place && !self.is_shown && out.len() == 16 {
            out[0] = 0xa5;
            out[15] = 1;
            self.is_shown = true;
        }
        Ok(())
    }

    fn write_at(&mut self, _place: u64, _bytes: &[u8]) -> Result<(), Failed> {
        Ok(())
    }

    fn sync(&mut self) -> Result<(), Failed> {
        Ok(())
    }
}

// The refusal of a device of 128 bytes.
fn refusal_of<D: Disk>(alloc: Global, disk: &mut D) -> Option<Refusal> {
    if disk.size() != 128 {
        return None;
    }
    AreaLog::fetch(alloc, disk, Device::Log).err()
}

// Neither half is told as it was, so none counts, which is refused at the device's first place whichever half it was.
#[test]
fn a_header_that_is_not_shown_again_is_refused_at_0(rt: HostRuntime) -> Result<(), Fail> {
    let (device, place) = (Device::Log, 0);
    for half in [0, 64] {
        let mut fickle = Fickle {
            place: half,
            is_shown: false,
        };
        let refusal = refusal_of(rt.alloc(), &mut fickle);
        assert!(rt; refusal == Some(Refusal::NotAStore { device, place }));
    }
    Ok(())
}
