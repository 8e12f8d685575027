//! What a device does, and what a crash may leave of it.

ghost use Rattle.std.specs.Prelude.{◌≡◌, ◌↔◌, ◌≤◌, ◌+◌, ℕ, List, length};
ghost use Rattle.disk_model.specs.Cause.{HasCause};
ghost use Rattle.disk_model.specs.Disk.{IsImage, Reads, State, Syncs, Writes};
ghost use Rattle.disk_model.specs.Moments.{Clock, Elapses};

/// A call of a device failed. This crate stands on no other, so that the longest chain of crates stays eight: so it has
/// a `Failed` of its own, beside that of `retro_base` for sources and sinks, and its own words for the cause of a fault
/// (specs/Cause.antt).
#[derive(Clone, Copy, Debug, PartialEq, Eq)]
pub struct Failed;

/// A device of a fixed size. A write is loose until the next successful sync: a crash may leave any bytes in
/// its place. A failed write leaves any bytes in its range, loose as well; a failed sync makes nothing loose.
pub trait Disk {
    // How many bytes it has.
    ghost extent: { Self → ℕ };

    // How many calls have failed. The count stops at the last value of a u64.
    ghost faults: { Self → ℕ };

    // It tells its bytes, and they are those of a device as this crate states it. What is said of state and
    // clock holds of an honest device.
    ghost is_honest: { Self → Type 0 };

    // Its clock keeps what a crash might have left at earlier moments.
    ghost remembers: { Type 0 };

    ghost state: { Self → State };

    ghost clock: { Self → Clock };

    /// How many bytes it has.
    fn size(&self) -> u64
        ensures { result ≡ extent self.now };

    /// How many calls have failed.
    fn faults(&self) -> u64
        ensures { result ≡ faults self.now };

    /// Fills `out` with the bytes from that place on.
    fn read_at(&mut self, place: u64, out: &mut [u8]) -> Result<(), Failed>
        requires { place + length out.old ≤ extent self.old }
        ensures extent { extent self.new ≡ extent self.old }
        ensures cause { HasCause (faults self.old) (faults self.new) result }
        ensures honest { is_honest self.old ↔ is_honest self.new }
        ensures read { is_honest self.old → Reads place out.new (state self.old) (state self.new) result }
        ensures time { is_honest self.old
            → Elapses remembers (clock self.old) (clock self.new) (IsImage (state self.new)) };

    /// Writes the bytes from that place on.
    fn write_at(&mut self, place: u64, bytes: &[u8]) -> Result<(), Failed>
        requires { place + length bytes.now ≤ extent self.old }
        ensures extent { extent self.new ≡ extent self.old }
        ensures cause { HasCause (faults self.old) (faults self.new) result }
        ensures honest { is_honest self.old ↔ is_honest self.new }
        ensures written { is_honest self.old → Writes place bytes.now (state self.old) (state self.new) result }
        ensures time { is_honest self.old
            → Elapses remembers (clock self.old) (clock self.new) (IsImage (state self.new)) };

    /// Makes all that was written durable: a crash after it leaves what a read returns.
    fn sync(&mut self) -> Result<(), Failed>
        ensures extent { extent self.new ≡ extent self.old }
        ensures cause { HasCause (faults self.old) (faults self.new) result }
        ensures honest { is_honest self.old ↔ is_honest self.new }
        ensures synced { is_honest self.old → Syncs (state self.old) (state self.new) result }
        ensures time { is_honest self.old
            → Elapses remembers (clock self.old) (clock self.new) (IsImage (state self.new)) };

    // Reads return as many bytes as it has.
    ghost sized: { (d : Self) → is_honest d → length (state d).seen ≡ extent d };

    // The present moment is one of those since an earlier one.
    ghost counts_now: { (d : Self) (t : ℕ) (image : List ℕ) → is_honest d → t ≤ (clock d).moment
        → IsImage (state d) image → (clock d).left_since t image };

    // Since the present moment there is no other.
    ghost only_now: { (d : Self) (image : List ℕ) → is_honest d
        → (clock d).left_since (clock d).moment image → IsImage (state d) image };
}
