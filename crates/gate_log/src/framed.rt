//! Bodies as an append writes them.

ghost use Rattle.std.specs.Prelude.{◌≡◌, ◌<◌, ◌≤◌, ◌+◌, ◌^◌, ◌++◌, [], ◌∷◌, length, OnOk, IfOk, OnErr, IfErr, drop};
ghost use Rattle.retro_base.specs.Fields.{field_bytes};
ghost use Rattle.retro_base.specs.Framing.{sized};
ghost use Rattle.retro_base.specs.declared.refusal.Refusal.TheVariants.{OutOfMemory};

use retro_base::{Refusal, put_u32};
use std::alloc::Global;
use std::marker::Model;

/// A body as an append writes it: its length, the body, and the closed gate of the next record, in one piece.
#[derive(Drop)]
pub struct Framed {
    bytes: Vec<u8>,
}

impl Model for Framed {
    ghost use Rattle.std.specs.Prelude.{ℕ, List};
    ghost use Rattle.std.specs.Coded.{coded_ℕ, coded_list};

    ghost Value = { List ℕ };

    ghost coded = { coded_list coded_ℕ };

    ghost use Rattle.gate_log.specs.Framed.{body_of, IsFramed};

    ghost view = { body_of };

    ghost invariant = { IsFramed };
}

impl Framed {
    /// Frames a body. The only refusal is want of memory.
    pub fn new(alloc: Global, body: &[u8]) -> Result<Framed, Refusal>
        requires { length body.now < 2 ^ 32 }
        ensures ok { IfOk result (λ framed. framed ≡ body.now) }
        ensures err { IfErr result (λ refusal. refusal ≡ OutOfMemory) }
    {
        let mut builder = FramedBuilder::with_capacity(alloc, body.len())?;
        builder.extend_from_slice(body)?;
        builder.finish()
    }

    /// How many bytes the body has.
    pub fn len(&self) -> u64
        ensures same { result ≡ length self.now }
        ensures short { result < 2 ^ 32 }
    {
        self.bytes.len() as u64 - 5
    }

    /// The bytes that an append writes behind the record's gate.
    pub fn as_bytes(&self) -> &[u8]
        ensures { result.now ≡ sized self.now ++ 0 ∷ [] }
    {
        &self.bytes
    }

    /// The length of the body, and the body.
    pub(crate) fn sized(&self) -> &[u8]
        ensures { result.now ≡ sized self.now }
    {
        let piece = self.as_bytes();
        &piece[..piece.len() - 1]
    }
}

/// A body while it is written, behind room for its length, so that it is framed where it stands. Contracts see the
/// bytes of the body so far.
#[derive(Drop)]
pub struct FramedBuilder {
    bytes: Vec<u8>,
}

impl Model for FramedBuilder {
    ghost use Rattle.std.specs.Prelude.{◌≤◌, ℕ, List, length, drop};
    ghost use Rattle.std.specs.Coded.{coded_ℕ, coded_list};

    ghost Value = { List ℕ };

    ghost coded = { coded_list coded_ℕ };

    ghost view = { λ builder. drop 4 builder.bytes.items };

    ghost invariant = { λ builder. 4 ≤ length builder.bytes.items };
}

impl FramedBuilder {
    /// An empty body. The only refusal is want of memory.
    pub fn new(alloc: Global) -> Result<FramedBuilder, Refusal>
        ensures ok { IfOk result (λ builder. builder ≡ []) }
        ensures err { IfErr result (λ refusal. refusal ≡ OutOfMemory) }
    {
        FramedBuilder::with_capacity(alloc, 0)
    }

    /// An empty body with room for that many bytes: up to as many nothing moves, `finish` included. The only
    /// refusal is want of memory.
    pub fn with_capacity(alloc: Global, count: usize) -> Result<FramedBuilder, Refusal>
        requires { count < 2 ^ 32 }
        ensures ok { IfOk result (λ builder. builder ≡ []) }
        ensures err { IfErr result (λ refusal. refusal ≡ OutOfMemory) }
    {
        let mut bytes = Vec::with_capacity(alloc, count + 5)?;
        bytes.extend_from_slice(&[0; 4])?;
        Ok(FramedBuilder { bytes })
    }

    /// Adds a byte. The only refusal is want of memory, and then the body is as it was.
    pub fn push(&mut self, byte: u8) -> Result<(), Refusal>
        ensures ok { OnOk result (self.new ≡ self.old ++ byte ∷ []) }
        ensures err { IfErr result (λ refusal. refusal ≡ OutOfMemory) }
        ensures same { OnErr result (self.new ≡ self.old) }
    {
        self.extend_from_slice(&[byte])
    }

    /// Adds these bytes. The only refusal is want of memory, and then the body is as it was.
    pub fn extend_from_slice(&mut self, bytes: &[u8]) -> Result<(), Refusal>
        ensures ok { OnOk result (self.new ≡ self.old ++ bytes.now) }
        ensures err { IfErr result (λ refusal. refusal ≡ OutOfMemory) }
        ensures same { OnErr result (self.new ≡ self.old) }
    {
        self.bytes.extend_from_slice(bytes)?;
        Ok(())
    }

    /// Adds a number in two bytes, the highest first. The only refusal is want of memory.
    #[tactic(auto, unfolding(retro_base::specs::Fields::field_bytes))]
    pub fn put_u16(&mut self, value: u16) -> Result<(), Refusal>
        ensures bytes { OnOk result (self.new ≡ self.old ++ field_bytes 2 value) }
        ensures count { OnOk result (length self.new ≡ length self.old + 2) }
        ensures memory { IfErr result (λ refusal. refusal ≡ OutOfMemory) }
    {
        self.extend_from_slice(&value.to_be_bytes())
    }

    /// Adds a number in four bytes, the highest first. The only refusal is want of memory.
    #[tactic(auto, unfolding(retro_base::specs::Fields::field_bytes))]
    pub fn put_u32(&mut self, value: u32) -> Result<(), Refusal>
        ensures bytes { OnOk result (self.new ≡ self.old ++ field_bytes 4 value) }
        ensures count { OnOk result (length self.new ≡ length self.old + 4) }
        ensures memory { IfErr result (λ refusal. refusal ≡ OutOfMemory) }
    {
        self.extend_from_slice(&value.to_be_bytes())
    }

    /// Adds a number in eight bytes, the highest first. The only refusal is want of memory.
    #[tactic(auto, unfolding(retro_base::specs::Fields::field_bytes))]
    pub fn put_u64(&mut self, value: u64) -> Result<(), Refusal>
        ensures bytes { OnOk result (self.new ≡ self.old ++ field_bytes 8 value) }
        ensures count { OnOk result (length self.new ≡ length self.old + 8) }
        ensures memory { IfErr result (λ refusal. refusal ≡ OutOfMemory) }
    {
        self.extend_from_slice(&value.to_be_bytes())
    }

    /// Frames the body. The only refusal is want of memory.
    pub fn finish(self) -> Result<Framed, Refusal>
        requires { length self < 2 ^ 32 }
        ensures ok { IfOk result (λ framed. framed ≡ self) }
        ensures err { IfErr result (λ refusal. refusal ≡ OutOfMemory) }
    {
        let mut bytes = self.bytes;
        put_length(&mut bytes);
        bytes.push(0)?;
        Ok(Framed { bytes })
    }
}

// Puts the length of the body that stands behind the first four bytes into them.
fn put_length(bytes: &mut Vec<u8>)
    requires room { 4 ≤ length bytes.old.items }
    requires short { length (drop 4 bytes.old.items) < 2 ^ 32 }
    ensures { bytes.new.items ≡ sized (drop 4 bytes.old.items) }
{
    let count = bytes.len() - 4;
    put_u32(bytes, 0, count as u32);
}
