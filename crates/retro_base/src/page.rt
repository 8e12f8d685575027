//! Pages.

use crate::fields;
use crate::limits::PAGE_BYTES;
use std::marker::Model;

/// A page: 1,024 bytes.
#[derive(Clone, Copy, Debug, PartialEq, Eq)]
pub struct Page {
    bytes: [u8; PAGE_BYTES],
}

impl Model for Page {
    ghost use Rattle.std.specs.Prelude.{List, ℕ};

    ghost Value = { List ℕ };

    ghost view = { λ p. p.bytes };

    ghost inverse = { λ bytes. record { bytes = bytes } };
}

impl Page {
    ghost use Rattle.std.specs.Prelude.{◌≡◌, ◌≤◌, ◌+◌, ◌++◌, length, replicate, take, drop};
    ghost use Rattle.retro_base.specs.Fields.{number_at, field_bytes};

    /// The page whose bytes are all 0.
    pub fn zero() -> Page
        ensures { result ≡ replicate PAGE_BYTES 0 }
    {
        Page {
            bytes: [0; PAGE_BYTES],
        }
    }

    /// The page of these bytes.
    pub fn of(bytes: [u8; PAGE_BYTES]) -> Page
        ensures { result ≡ bytes }
    {
        Page { bytes }
    }

    /// The bytes of the page.
    pub fn bytes(&self) -> &[u8]
        ensures same { result.now ≡ self.now }
        ensures whole { length result.now ≡ PAGE_BYTES }
    {
        &self.bytes
    }

    /// Puts these bytes into the page, from that place on.
    pub fn put_bytes(&mut self, place: usize, bytes: &[u8])
        requires { place + length bytes.now ≤ PAGE_BYTES }
        ensures { self.new ≡ take place self.old ++ (bytes.now ++ drop (place + length bytes.now) self.old) }
    {
        self.bytes[place..place + bytes.len()].copy_from_slice(bytes);
    }

    /// Puts the number into the two bytes from that place, the highest byte first.
    pub fn put_u16(&mut self, place: usize, value: u16)
        requires { place + 2 ≤ PAGE_BYTES }
        ensures replaced { self.new ≡ take place self.old ++ (field_bytes 2 value ++ drop (place + 2) self.old) }
        ensures reads_back { number_at 2 self.new place ≡ value }
    {
        fields::put_u16(&mut self.bytes, place, value);
    }

    /// Puts the number into the four bytes from that place, the highest byte first.
    pub fn put_u32(&mut self, place: usize, value: u32)
        requires { place + 4 ≤ PAGE_BYTES }
        ensures replaced { self.new ≡ take place self.old ++ (field_bytes 4 value ++ drop (place + 4) self.old) }
        ensures reads_back { number_at 4 self.new place ≡ value }
    {
        fields::put_u32(&mut self.bytes, place, value);
    }

    /// Puts the number into the eight bytes from that place, the highest byte first.
    pub fn put_u64(&mut self, place: usize, value: u64)
        requires { place + 8 ≤ PAGE_BYTES }
        ensures replaced { self.new ≡ take place self.old ++ (field_bytes 8 value ++ drop (place + 8) self.old) }
        ensures reads_back { number_at 8 self.new place ≡ value }
    {
        fields::put_u64(&mut self.bytes, place, value);
    }
}
