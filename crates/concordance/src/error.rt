//! Why there is no concordance.

use std::alloc::AllocError;
use thiserror::Error;

/// Why there is no concordance.
#[derive(Clone, Copy, Debug, PartialEq, Eq, Error)]
pub enum ConcordError {
    /// A word in this line, the first that has one, has more than 64 letters.
    #[error("line {line}: word too long")]
    WordTooLong { line: u32 },
    /// So many pages were asked for, and there was room for so many words, which was less.
    #[error("heap full asked {asked} room {room}")]
    HeapFull { asked: u32, room: u32 },
    /// Memory was wanting.
    #[error("out of memory")]
    NoMemory,
}

impl From<AllocError> for ConcordError {
    ghost use Rattle.std.specs.Prelude.{◌≡◌};
    ghost use Rattle.concordance.specs.declared.error.ConcordError.TheVariants.{NoMemory};

    ghost from_gives = { λ _ e. e ≡ NoMemory };

    fn from(_: AllocError) -> ConcordError {
        ConcordError::NoMemory
    }
}
