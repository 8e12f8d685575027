//! The headers of the two halves, and which half counts.

ghost use Rattle.std.specs.Prelude.{◌≡◌, ◌≤◌, ◌<◌, ◌+◌, ◌*◌, ◌↔◌, ℕ, List, IsTrue};
ghost use Rattle.std.specs.Prelude.{IfOk, IfSome, MatchOption, MatchResult};
ghost use Rattle.disk_model.specs.Runs.{OnlyReads, SameDevice};
ghost use Rattle.retro_base.specs.Framing.{next_generation};
ghost use Rattle.retro_base.specs.Cause.{FaultsAlone};
ghost use Rattle.area_log.specs.Header.{HeaderCounts, IsCounting, IsHeader, IsUnfound};
ghost use Rattle.area_log.specs.Regions.{Counts, IsHalf, NoneCounts};

use disk_model::{Disk, Failed};
use gate_log::{HEADER_BYTES, fault_of};
use retro_base::{Device, OPEN_GATE, Refusal, get_u64};

// What the header of a region tells.
#[derive(Clone, Copy)]
pub struct Header {
    pub is_open: bool,
    pub generation: u64,
}

// The half of a device that counts: where it begins, its generation, and whether the other half is open.
#[derive(Clone, Copy)]
pub struct Counting {
    pub place: u64,
    pub generation: u64,
    pub is_other_open: bool,
}

/// Finds the half that counts. Where neither does, the device is refused at its first place.
pub fn find_counting<D: Disk>(disk: &mut D, device: Device, size: u64) -> Result<Counting, Refusal>
    requires inside { 2 * size ≤ D.extent disk.old }
    requires least { 17 ≤ size }
    ensures same { SameDevice D.extent D.is_honest disk.old disk.new }
    ensures cause { MatchResult result
        (λ _. D.faults disk.new ≡ D.faults disk.old)
        (IsUnfound
        (λ broken. (broken ≡ 0) × (D.is_honest disk.old → NoneCounts size (D.state disk.old).seen broken))
        device (D.faults disk.old) (D.faults disk.new)) }
    ensures half { IfOk result (λ counting. IsHalf size counting.place) }
    ensures counting { D.is_honest disk.old → IfOk result (IsCounting size (D.state disk.old).seen) }
    ensures reads { D.is_honest disk.old → OnlyReads D.remembers D.state D.clock disk.old disk.new }
{
    let first = read_header(disk, device, 0)?;
    let second = read_header(disk, device, size)?;
    match choose(size, first, second) {
        Some(counting) => Ok(counting),
        None => Err(Refusal::NotAStore { device, place: 0 }),
    }
}

fn read_header<D: Disk>(disk: &mut D, device: Device, place: u64) -> Result<Header, Refusal>
    requires { place + 16 ≤ D.extent disk.old }
    ensures same { SameDevice D.extent D.is_honest disk.old disk.new }
    ensures cause { FaultsAlone device (D.faults disk.old) (D.faults disk.new) result }
    ensures header { D.is_honest disk.old → IfOk result (IsHeader place (D.state disk.old).seen) }
    ensures reads { D.is_honest disk.old → OnlyReads D.remembers D.state D.clock disk.old disk.new }
{
    let mut bytes = [0; HEADER_BYTES];
    match disk.read_at(place, &mut bytes) {
        Ok(()) => Ok(Header {
            is_open: bytes[0] == OPEN_GATE,
            generation: get_u64(&bytes, 8),
        }),
        Err(Failed) => Err(fault_of(disk, device)),
    }
}

// Which of the two halves of that size counts, by their headers.
fn choose(size: u64, first: Header, second: Header) -> Option<Counting>
    ensures half { IfSome result (λ counting. IsHalf size counting.place) }
    ensures counting { (bytes : List ℕ) → 0 < size → IsHeader 0 bytes first → IsHeader size bytes second
        → MatchOption result ((place : ℕ) → Counts size place bytes → ⊥) (IsCounting size bytes) }
{
    if counts(first, second) {
        return Some(Counting {
            place: 0,
            generation: first.generation,
            is_other_open: second.is_open,
        });
    }
    if counts(second, first) {
        return Some(Counting {
            place: size,
            generation: second.generation,
            is_other_open: first.is_open,
        });
    }
    None
}

// Whether the half with the one header counts beside the half with the other.
fn counts(this: Header, other: Header) -> bool
    ensures { IsTrue result ↔ HeaderCounts this other }
{
    this.is_open && (!other.is_open || this.generation == next_after(other.generation))
}

/// The generation of the region that is written after one of this generation.
pub fn next_after(generation: u64) -> u64
    ensures { result ≡ next_generation generation }
{
    if generation == u64::MAX {
        1
    } else {
        generation + 1
    }
}
