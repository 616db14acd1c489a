//! What can go wrong.

use ael_runtime::Failure;
use std::alloc::AllocError;
use thiserror::Error;

/// A mistake in a text, or one that it makes while it runs.
#[derive(Clone, Copy, Debug, Error)]
pub(crate) enum Mistake {
    #[error("neither a word of the text before it nor a number below 2^62")]
    UnknownWord,
    #[error("it has no counterpart")]
    Unmatched,
    #[error("nothing is left on the stack")]
    StackEmpty,
    #[error("not a number")]
    NotNumber,
    #[error("a division by 0")]
    ZeroDivisor,
    #[error("a check failed")]
    CheckFailed,
    #[error("the other thread has stopped")]
    Deserted,
    #[error("{0}")]
    Heap(#[from] Failure),
    #[error("out of memory")]
    NoMemory(#[from(alloc)] AllocError),
}
