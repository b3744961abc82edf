ghost use Rattle.std.specs.Prelude.{◌≡◌, None, Some, IfOk, is_some, is_none};
ghost use Rattle.std.specs.Option.{option_map};

use crate::lists::OutOfMemory;
use std::alloc::Global;
use std::marker::Model;

/// A value on the heap, or none, so that what holds it is small to move. Contracts see the option.
pub struct OptionalBox<T> {
    held: Option<Box<T>>,
}

impl<T: Drop> Drop for OptionalBox<T> {
    fn drop(self) {
        let OptionalBox { held: _ } = self;
    }
}

impl<T> Model for OptionalBox<T> {
    ghost use Rattle.std.specs.Prelude.{Option};
    ghost use Rattle.std.specs.Option.{option_map};

    ghost Value = { Option T };

    ghost view = { λ o. option_map (λ b. b.value) o.held };
}

impl<T> OptionalBox<T> {
    /// No value.
    pub fn none() -> OptionalBox<T>
        ensures { result ≡ None }
    {
        OptionalBox { held: None }
    }

    /// This value.
    pub fn some(alloc: Global, value: T) -> Result<OptionalBox<T>, OutOfMemory>
    where
        T: Drop,
        ensures { IfOk result (λ made. made ≡ Some value) }
    {
        Ok(OptionalBox {
            held: Some(Box::new(alloc, value)?),
        })
    }

    /// This value, if it is one.
    pub fn of(alloc: Global, value: Option<T>) -> Result<OptionalBox<T>, OutOfMemory>
    where
        T: Drop,
        ensures { IfOk result (λ made. made ≡ value) }
    {
        match value {
            Some(value) => OptionalBox::some(alloc, value),
            None => Ok(OptionalBox::none()),
        }
    }

    /// The value, if there is one.
    pub fn get(&self) -> Option<&T>
        ensures { option_map (λ value. value.now) result ≡ self.now }
    {
        match &self.held {
            Some(value) => Some(value),
            None => None,
        }
    }

    /// Whether there is a value.
    pub fn is_some(&self) -> bool
        ensures { result ≡ is_some self.now }
    {
        self.held.is_some()
    }

    /// Whether there is none.
    pub fn is_none(&self) -> bool
        ensures { result ≡ is_none self.now }
    {
        self.held.is_none()
    }
}
