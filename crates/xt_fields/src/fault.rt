ghost use Rattle.std.specs.Prelude.{◌≡◌};
ghost use Rattle.xt_fields.specs.declared.fault.FieldErr.TheVariants.{OutOfMemory};

use std::alloc::{AllocError, AllocFailed};
use thiserror::Error;

/// Why a field wasn't read.
#[derive(Clone, Copy, Debug, Error)]
pub enum FieldErr {
    #[error("no memory was left")]
    OutOfMemory,
    /// Too few bytes are left.
    #[error("too few bytes are left")]
    Short,
    /// The written length passes the limit.
    #[error("the length passes its limit")]
    Over,
    /// The bytes of a text aren't UTF-8.
    #[error("the text isn't UTF-8")]
    NotText,
    /// The value is outside the limits of its field.
    #[error("the value is outside its limits")]
    Unfit,
}

impl From<AllocError> for FieldErr {
    ghost from_gives = { λ _ e. e ≡ OutOfMemory };

    fn from(_e: AllocError) -> FieldErr {
        FieldErr::OutOfMemory
    }
}

impl<T: Drop> From<AllocFailed<T>> for FieldErr {
    ghost from_gives = { λ _ e. e ≡ OutOfMemory };

    fn from(_e: AllocFailed<T>) -> FieldErr {
        FieldErr::OutOfMemory
    }
}
