//! A value that lies elsewhere.

ghost use Rattle.std.specs.Prelude.{◌≡◌, IfOk};

use std::alloc::{AllocError, Global};
use std::marker::Model;

/// A value that lies elsewhere, so that what contains it stays small. Contracts see the value.
#[derive(Drop)]
pub struct Apart<T> {
    value: Box<T>,
}

impl<T> Model for Apart<T> {
    ghost Value = { T };

    ghost view = { λ a. a.value.value };
}

impl<T: Drop> Apart<T> {
    /// Lays the value elsewhere.
    pub fn new(alloc: Global, value: T) -> Result<Apart<T>, AllocError>
        ensures { IfOk result (λ apart. apart ≡ value) }
    {
        Ok(Apart {
            value: Box::new(alloc, value)?,
        })
    }

    /// The value.
    pub fn into_inner(self) -> T
        ensures { result ≡ self }
    {
        Box::into_inner(self.value)
    }
}
