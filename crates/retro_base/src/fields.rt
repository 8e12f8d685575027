//! Numbers in bytes.

ghost use Rattle.std.specs.Prelude.{◌≡◌, ◌≤◌, ◌+◌, ◌++◌, length, take, drop};
ghost use Rattle.retro_base.specs.Fields.{number_at, field_bytes};

use byteorder::{BigEndian, ByteOrder};

/// The number in the two bytes from that place, the highest byte first.
#[tactic(auto, unfolding(crate::specs::Fields::number_at))]
pub fn get_u16(bytes: &[u8], place: usize) -> u16
    requires { place + 2 ≤ length bytes.now }
    ensures { result ≡ number_at 2 bytes.now place }
{
    BigEndian::read_u16(&bytes[place..place + 2])
}

/// The number in the four bytes from that place, the highest byte first.
#[tactic(auto, unfolding(crate::specs::Fields::number_at))]
pub fn get_u32(bytes: &[u8], place: usize) -> u32
    requires { place + 4 ≤ length bytes.now }
    ensures { result ≡ number_at 4 bytes.now place }
{
    BigEndian::read_u32(&bytes[place..place + 4])
}

/// The number in the eight bytes from that place, the highest byte first.
#[tactic(auto, unfolding(crate::specs::Fields::number_at))]
pub fn get_u64(bytes: &[u8], place: usize) -> u64
    requires { place + 8 ≤ length bytes.now }
    ensures { result ≡ number_at 8 bytes.now place }
{
    BigEndian::read_u64(&bytes[place..place + 8])
}

/// Puts the number into the two bytes from that place, the highest byte first.
pub fn put_u16(bytes: &mut [u8], place: usize, value: u16)
    requires { place + 2 ≤ length bytes.old }
    ensures replaced { bytes.new ≡ take place bytes.old ++ (field_bytes 2 value ++ drop (place + 2) bytes.old) }
    ensures reads_back { number_at 2 bytes.new place ≡ value }
{
    BigEndian::write_u16(&mut bytes[place..place + 2], value);
}

/// Puts the number into the four bytes from that place, the highest byte first.
pub fn put_u32(bytes: &mut [u8], place: usize, value: u32)
    requires { place + 4 ≤ length bytes.old }
    ensures replaced { bytes.new ≡ take place bytes.old ++ (field_bytes 4 value ++ drop (place + 4) bytes.old) }
    ensures reads_back { number_at 4 bytes.new place ≡ value }
{
    BigEndian::write_u32(&mut bytes[place..place + 4], value);
}

/// Puts the number into the eight bytes from that place, the highest byte first.
pub fn put_u64(bytes: &mut [u8], place: usize, value: u64)
    requires { place + 8 ≤ length bytes.old }
    ensures replaced { bytes.new ≡ take place bytes.old ++ (field_bytes 8 value ++ drop (place + 8) bytes.old) }
    ensures reads_back { number_at 8 bytes.new place ≡ value }
{
    BigEndian::write_u64(&mut bytes[place..place + 8], value);
}
