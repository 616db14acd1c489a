//! Why a dump could not be read.

ghost use Rattle.std.specs.Prelude.{◌≡◌};
ghost use Rattle.dump_text.specs.declared.dump_error.DumpError.TheVariants as errors;

use std::alloc::{AllocError, AllocFailed};

/// Why the bytes gave no dump.
#[derive(Clone, Copy, Debug, PartialEq, Eq)]
pub enum DumpError {
    /// No memory was left.
    NoMemory,
    /// The bytes are no dump: this line, from 1, is the first that differs from those of every dump.
    Bad { line: u32 },
}

impl From<AllocError> for DumpError {
    ghost from_gives = { λ _ e. e ≡ errors.NoMemory };

    fn from(_error: AllocError) -> DumpError {
        DumpError::NoMemory
    }
}

impl<T: Drop> From<AllocFailed<T>> for DumpError {
    ghost from_gives = { λ _ e. e ≡ errors.NoMemory };

    fn from(_failed: AllocFailed<T>) -> DumpError {
        DumpError::NoMemory
    }
}
