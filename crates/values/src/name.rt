//! Names of tables, columns and indexes, and the test of what a name is.

ghost use Rattle.std.specs.Prelude.{◌↔◌, ◌≡◌, IsTrue};
ghost use Rattle.std.specs.List.{list_all};
ghost use Rattle.values.specs.Name.{IsName, begins_word, continues_word};

use crate::list::{Duplicate, Seq};
use std::alloc::{AllocError, Global};
use std::cmp::Ordering;
use std::marker::Model;

/// The most bytes of a name.
pub const NAME_BYTES: usize = 32;

/// A name: 1 to 32 bytes, a letter or an underscore and then letters, digits and underscores. Contracts see the bytes.
#[derive(Debug, Drop)]
pub struct Name {
    bytes: Seq<u8>,
}

impl Model for Name {
    ghost use Rattle.std.specs.Prelude.{List, ℕ};
    ghost use Rattle.values.specs.Name.{IsName};

    ghost Value = { List ℕ };

    ghost view = { λ n. n.bytes };

    ghost invariant = { λ n. IsName n.bytes };
}

impl Name {
    /// The name of these bytes; takes no memory.
    pub fn new(bytes: Seq<u8>) -> Name
        requires { IsName bytes }
        ensures { result ≡ bytes }
    {
        Name { bytes }
    }

    /// The bytes of the name.
    pub fn bytes(&self) -> &[u8]
        ensures value { result.now ≡ self.now }
        ensures is_name { IsName self.now }
    {
        self.bytes.as_slice()
    }
}

impl Duplicate for Name {
    fn copy(&self, alloc: Global) -> Result<Name, AllocError> {
        Ok(Name {
            bytes: self.bytes.copy(alloc)?,
        })
    }
}

impl PartialEq for Name {
    ghost use Rattle.std.specs.Prelude.{◌==◌};
    ghost use Rattle.std.specs.Cmp.Lexicographic.{pointwise};
    ghost use Rattle.std.specs.Cmp.{partial_equiv_from_equiv};
    ghost use Rattle.std.proofs.lemmas.Cmp.{nat_list_eq_equiv};

    ghost eq = { pointwise ◌==◌ };

    ghost laws = { partial_equiv_from_equiv nat_list_eq_equiv };

    fn eq(&self, other: &Name) -> bool {
        self.bytes() == other.bytes()
    }
}

impl Eq for Name {
    ghost use Rattle.std.proofs.lemmas.Cmp.{nat_list_eq_equiv};

    ghost laws = { nat_list_eq_equiv };
}

impl PartialOrd for Name {
    ghost use Rattle.std.specs.Ordering.{nat_cmp, as_partial_cmp};
    ghost use Rattle.std.specs.Cmp.Lexicographic.{slice_cmp, texts_po};

    ghost partial_cmp = { as_partial_cmp (slice_cmp nat_cmp) };

    ghost laws = { texts_po };

    fn partial_cmp(&self, other: &Name) -> Option<Ordering> {
        Some(self.cmp(other))
    }
}

impl Ord for Name {
    ghost use Rattle.std.specs.Ordering.{nat_cmp};
    ghost use Rattle.std.specs.Cmp.Lexicographic.{slice_cmp};
    ghost use Rattle.std.specs.Cmp.Rules.{comparing};
    ghost use Rattle.std.proofs.Common.{rules};
    ghost use Rattle.std.proofs.lemmas.Cmp.{nat_list_cmp_total};

    ghost cmp = { slice_cmp nat_cmp };

    ghost total = { nat_list_cmp_total };

    ghost matches_partial_cmp = { Prim.search (comparing, rules) };

    ghost matches_eq = { Prim.search (comparing, rules) };

    fn cmp(&self, other: &Name) -> Ordering {
        self.bytes().cmp(other.bytes())
    }
}

/// Whether the bytes are a name: a letter or an underscore, then up to 31 letters, digits and underscores.
pub fn is_name(bytes: &[u8]) -> bool
    ensures { IsTrue result ↔ IsName bytes.now }
{
    match bytes.split_first() {
        Some((first, rest)) => {
            begins_word(*first) && rest.len() < NAME_BYTES && all_continue(rest)
        }
        None => false,
    }
}

/// Whether all bytes are letters, digits and underscores.
pub fn all_continue(bytes: &[u8]) -> bool
    ensures { result ≡ list_all continues_word bytes.now }
{
    bytes.iter().all(|byte| continues_word(*byte))
}

/// Whether a byte is a letter or an underscore.
pub fn begins_word(byte: u8) -> bool
    ensures { result ≡ begins_word byte }
{
    byte.is_ascii_alphabetic() || byte == b'_'
}

/// Whether a byte is a letter, a digit or an underscore.
pub fn continues_word(byte: u8) -> bool
    ensures { result ≡ continues_word byte }
{
    begins_word(byte) || byte.is_ascii_digit()
}
