//! The bytes of a text.

ghost use Rattle.std.specs.Prelude.{◌↔◌, ◌≡◌, ◌≤◌, IsTrue, length};
ghost use Rattle.std.specs.List.{AllByRecursion};
ghost use Rattle.values.specs.Text.{IsPrintable, IsText};

use crate::list::{Duplicate, Seq};
use std::alloc::{AllocError, Global};
use std::marker::Model;

/// The most bytes of a text.
pub const TEXT_BYTES: usize = 200;

/// A text: up to 200 bytes of printable ASCII. Contracts see the bytes.
#[derive(Debug, Drop)]
pub struct Text {
    bytes: Seq<u8>,
}

impl Model for Text {
    ghost use Rattle.std.specs.Prelude.{List, ℕ};
    ghost use Rattle.values.specs.Text.{IsText};

    ghost Value = { List ℕ };

    ghost view = { λ t. t.bytes };

    ghost invariant = { λ t. IsText t.bytes };
}

impl Text {
    /// The text of these bytes; takes no memory.
    pub fn new(bytes: Seq<u8>) -> Text
        requires { IsText bytes }
        ensures { result ≡ bytes }
    {
        Text { bytes }
    }

    /// The bytes of the text.
    pub fn bytes(&self) -> &[u8]
        ensures value { result.now ≡ self.now }
        ensures is_text { IsText self.now }
    {
        self.bytes.as_slice()
    }
}

impl Duplicate for Text {
    fn copy(&self, alloc: Global) -> Result<Text, AllocError> {
        Ok(Text {
            bytes: self.bytes.copy(alloc)?,
        })
    }
}

/// Whether the bytes are those of a text.
pub fn is_text(bytes: &[u8]) -> bool
    ensures { IsTrue result ↔ IsText bytes.now }
{
    bytes.len() <= TEXT_BYTES && bytes.iter().all(|byte| is_printable(*byte))
}

/// Whether a byte is printable ASCII.
pub fn is_printable(byte: u8) -> bool
    ensures { IsTrue result ↔ IsPrintable byte }
{
    (b' '..=b'~').contains(&byte)
}
