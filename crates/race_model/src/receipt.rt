//! What the vault tells the desk.

ghost use Rattle.std.specs.Prelude.{◌≡◌};

use std::marker::Model;

/// How many captures the archive held behind a batch. Contracts see the count.
#[derive(Clone, Copy, Debug, PartialEq, Eq)]
pub struct Receipt {
    held: u64,
}

impl Model for Receipt {
    ghost use Rattle.std.specs.Prelude.{ℕ};

    ghost Value = { ℕ };

    ghost view = { λ r. r.held };

    ghost inverse = { λ held. record { held = held } };
}

impl Receipt {
    /// The receipt for this many captures.
    pub fn of(held: u64) -> Receipt
        ensures { result ≡ held }
    {
        Receipt { held }
    }

    /// How many captures the archive held.
    pub fn held(&self) -> u64
        ensures { result ≡ self.now }
    {
        self.held
    }
}
