//! Why nothing was read.

ghost use Rattle.std.specs.Prelude.{◌≡◌, ◌<◌, ◌^◌};
ghost use Rattle.heap_audit.specs.Texts.FirstWrong.{behind};
ghost use Rattle.heap_audit.specs.declared.reading.reading_error.ReadingError.TheVariants as errors;

use dump_text::DumpError;
use std::alloc::{AllocError, AllocFailed};

/// Why the bytes gave nothing.
#[derive(Clone, Copy, Debug, PartialEq, Eq)]
pub enum ReadingError {
    /// No memory was left.
    NoMemory,
    /// The bytes aren't what is read: this line, counted from 1, is the first that is wrong.
    Bad { line: usize },
}

/// Why a part was not read whose dump could not be read, behind so many lines.
pub fn behind(lines: usize, error: DumpError) -> ReadingError
    requires { lines < 2 ^ 32 }
    ensures { result ≡ behind lines error }
{
    match error {
        DumpError::NoMemory => ReadingError::NoMemory,
        DumpError::Bad { line } => ReadingError::Bad {
            line: lines + line as usize,
        },
    }
}

impl From<AllocError> for ReadingError {
    ghost from_gives = { λ _ e. e ≡ errors.NoMemory };

    fn from(_error: AllocError) -> ReadingError {
        ReadingError::NoMemory
    }
}

impl<T: Drop> From<AllocFailed<T>> for ReadingError {
    ghost from_gives = { λ _ e. e ≡ errors.NoMemory };

    fn from(_failed: AllocFailed<T>) -> ReadingError {
        ReadingError::NoMemory
    }
}
