//! Values that were worked out.

ghost use Rattle.std.specs.Prelude.{◌≡◌, IfOk};
ghost use Rattle.evaluation.specs.Bound.{seen};

use std::alloc::{AllocError, Global};
use values::{Duplicate, Value};

/// A value that was worked out: one that stands in a row or a statement, or a new one.
#[derive(Debug, Drop)]
pub enum Worked<'a> {
    Standing(&'a Value),
    New(Value),
}

impl Worked<'_> {
    /// The value.
    pub fn get(&self) -> &Value
        ensures { result.now ≡ seen self.now }
    {
        match self {
            Worked::Standing(value) => value,
            Worked::New(value) => value,
        }
    }

    /// The value itself, or a copy of one that stands elsewhere.
    pub fn into_value(self, alloc: Global) -> Result<Value, AllocError>
        ensures { IfOk result (λ value. value ≡ seen self.entry) }
    {
        match self {
            Worked::Standing(value) => value.copy(alloc),
            Worked::New(value) => Ok(value),
        }
    }
}
