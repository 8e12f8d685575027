//! What a crash leaves.

ghost use Rattle.std.specs.Prelude.{◌≡◌, ◌+◌, ◌≤◌, length, take, drop, replicate};
ghost use Rattle.std.specs.List.{AllByRecursion};
ghost use Rattle.disk_mem.specs.History.{Filled, FitsIn, IsLoose, TakenFrom};
ghost use Rattle.disk_model.specs.Disk.{written};

use crate::recording::Event;
use std::collections::VecDeque;

/// Takes each byte that is loose after these steps, the newest first, from `left`.
pub fn take_loose(bytes: &mut [u8], steps: &VecDeque<Event>, left: &[u8])
    requires same_size { length left.now ≡ length bytes.old }
    requires within { AllByRecursion (FitsIn (length bytes.old)) steps.now.items }
    ensures { TakenFrom left.now (record { seen = bytes.old; is_loose = IsLoose steps.now.items }) bytes.new }
{
    for step in steps {
        match step {
            Event::Wrote { place, bytes: copy } => {
                take_range(bytes, *place, copy.len() as u64, left);
            }
            Event::Lost { place, count } => take_range(bytes, *place, *count, left),
            Event::Synced => return,
        }
    }
}

// Takes that many bytes from that place on from `left`.
fn take_range(bytes: &mut [u8], place: u64, count: u64, left: &[u8])
    requires same_size { length left.now ≡ length bytes.old }
    requires within { place + count ≤ length bytes.old }
    ensures { bytes.new ≡ written place (take count (drop place left.now)) bytes.old }
{
    let (start, end) = (place as usize, (place + count) as usize);
    bytes[start..end].copy_from_slice(&left[start..end]);
}

/// Makes each byte that is loose after these steps, the newest first, `fill`.
pub fn fill_loose(bytes: &mut [u8], steps: &VecDeque<Event>, fill: u8)
    requires { AllByRecursion (FitsIn (length bytes.old)) steps.now.items }
    ensures { Filled fill (record { seen = bytes.old; is_loose = IsLoose steps.now.items }) bytes.new }
{
    for step in steps {
        match step {
            Event::Wrote { place, bytes: copy } => {
                fill_range(bytes, *place, copy.len() as u64, fill);
            }
            Event::Lost { place, count } => fill_range(bytes, *place, *count, fill),
            Event::Synced => return,
        }
    }
}

// Makes that many bytes from that place on `fill`.
fn fill_range(bytes: &mut [u8], place: u64, count: u64, fill: u8)
    requires { place + count ≤ length bytes.old }
    ensures { bytes.new ≡ written place (replicate count fill) bytes.old }
{
    let (start, end) = (place as usize, (place + count) as usize);
    bytes[start..end].fill(fill);
}
