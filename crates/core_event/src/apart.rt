//! Values that are kept apart.
ghost use Rattle.std.specs.Prelude.{◌≡◌, IfOk};

use crate::NoMemory;
use std::alloc::{AllocError, Global};
use std::marker::Model;

/// A value that is kept apart, so that what holds it is small. A contract sees the value.
#[derive(Drop)]
pub struct Apart<T> {
    value: Box<T>,
}

impl<T> Model for Apart<T> {
    ghost Value = { T };

    ghost view = { λ a. a.value.value };
}

impl<T> Apart<T> {
    /// The value, kept apart. It takes memory for the value alone; where that wants, the value is let go.
    pub fn of(alloc: Global, value: T) -> Result<Apart<T>, NoMemory>
    where
        T: Drop,
        ensures { IfOk result (λ kept. kept ≡ value) }
    {
        match Box::new(alloc, value) {
            Ok(value) => Ok(Apart { value }),
            Err(_) => Err(AllocError),
        }
    }

    /// The value, which is kept apart no longer. It takes no memory.
    pub fn into_value(self) -> T
        ensures { result ≡ self }
    {
        let Apart { value } = self;
        Box::into_inner(value)
    }

    /// The value.
    pub fn value(&self) -> &T
        ensures { result.now ≡ self.now }
    {
        self.value.as_ref()
    }
}

impl<T: Clone> Clone for Apart<T> {
    ghost is_clone = { T.is_clone };

    fn clone(&self) -> Result<Apart<T>, NoMemory> {
        Ok(Apart {
            value: self.value.clone()?,
        })
    }
}
