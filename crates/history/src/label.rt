//! The label of a snapshot.

ghost use Rattle.std.specs.Prelude.{◌≡◌, IsTrue};
ghost use Rattle.std.specs.List.{list_all};
ghost use Rattle.history.specs.Label.{is_printable, is_label};

use retro_base::LABEL_BYTES;
use std::alloc::{AllocError, Global};
use std::marker::Model;
use values::Duplicate;

/// The label of a snapshot: up to 64 bytes of printable ASCII. Contracts see the bytes.
#[derive(Debug, Drop)]
pub struct Label {
    bytes: Vec<u8>,
}

impl Model for Label {
    ghost use Rattle.std.specs.Prelude.{List, ℕ, IsTrue};
    ghost use Rattle.history.specs.Label.{is_label};

    ghost Value = { List ℕ };

    ghost view = { λ l. l.bytes.items };

    ghost invariant = { λ l. IsTrue (is_label l.bytes.items) };
}

impl Label {
    /// The label of these bytes; takes no memory.
    pub fn new(bytes: Vec<u8>) -> Label
        requires { IsTrue (is_label bytes.items) }
        ensures { result ≡ bytes.items }
    {
        Label { bytes }
    }

    /// The bytes of the label.
    pub fn bytes(&self) -> &[u8]
        ensures value { result.now ≡ self.now }
        ensures is_label { IsTrue (is_label self.now) }
    {
        &self.bytes
    }

    /// The bytes of the label; takes no memory.
    pub fn into_bytes(self) -> Vec<u8>
        ensures value { result.items ≡ self }
        ensures is_label { IsTrue (is_label self) }
    {
        self.bytes
    }
}

impl Duplicate for Label {
    fn copy(&self, alloc: Global) -> Result<Label, AllocError> {
        Ok(Label {
            bytes: Vec::from_slice(alloc, &self.bytes)?,
        })
    }
}

fn are_printable(bytes: &[u8]) -> bool
    ensures { result ≡ list_all is_printable bytes.now }
{
    bytes.iter().all(|byte| *byte >= 32 && *byte <= 126)
}

/// Whether these bytes are a label.
pub fn is_label(bytes: &[u8]) -> bool
    ensures { result ≡ is_label bytes.now }
{
    bytes.len() <= LABEL_BYTES && are_printable(bytes)
}
