//! The names of sessions.

ghost use Rattle.std.specs.Prelude.{◌≡◌};
ghost use Rattle.std.specs.List.{list_all};
ghost use Rattle.script.specs.Name.{is_name_byte, is_session_name, IsSessionName};

use std::marker::Model;
use values::Seq;

// The most bytes of a session's name.
const SESSION_NAME_BYTES: usize = 16;

/// The name of a session: 1 to 16 lower-case letters and digits, neither `copier` nor `flusher`.
/// Contracts see the bytes.
#[derive(Debug, Drop)]
pub struct SessionName {
    bytes: Seq<u8>,
}

impl Model for SessionName {
    ghost use Rattle.std.specs.Prelude.{List, ℕ};
    ghost use Rattle.script.specs.Name.{IsSessionName};

    ghost Value = { List ℕ };

    ghost view = { λ n. n.bytes };

    ghost invariant = { λ n. IsSessionName n.bytes };
}

impl SessionName {
    /// The name of these bytes.
    pub fn new(bytes: Seq<u8>) -> SessionName
        requires { IsSessionName bytes }
        ensures { result ≡ bytes }
    {
        SessionName { bytes }
    }

    /// The bytes of the name.
    pub fn bytes(&self) -> &[u8]
        ensures value { result.now ≡ self.now }
        ensures is_name { IsSessionName self.now }
    {
        self.bytes.as_slice()
    }
}

/// Whether these bytes may be the name of a session.
pub fn is_session_name(bytes: &[u8]) -> bool
    ensures { result ≡ is_session_name bytes.now }
{
    bytes.len() >= 1
        && bytes.len() <= SESSION_NAME_BYTES
        && all_name_bytes(bytes)
        && bytes != b"copier".as_slice()
        && bytes != b"flusher".as_slice()
}

fn all_name_bytes(bytes: &[u8]) -> bool
    ensures { result ≡ list_all is_name_byte bytes.now }
{
    bytes.iter().all(|byte| is_name_byte(*byte))
}

fn is_name_byte(byte: u8) -> bool
    ensures { result ≡ is_name_byte byte }
{
    matches!(byte, b'a'..=b'z' | b'0'..=b'9')
}
