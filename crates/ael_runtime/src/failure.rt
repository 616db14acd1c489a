//! Why a call of the runtime isn't made.

use plain_state::End;
use thiserror::Error;

/// Why a call isn't made. After all of these but `Ended` the mutator goes on, and each root has what it had.
#[derive(Clone, Copy, Debug, PartialEq, Eq, Error)]
pub enum Failure {
    /// The mutator has this end, or comes to it by this call. It makes no more calls.
    #[error("the mutator has an end: {0}")]
    Ended(End),
    /// It can make no more records.
    #[error("the mutator can make no more records")]
    RecordsOut,
    /// What should lead to a record is a number.
    #[error("not a record")]
    NotRecord,
    /// A record has no such word, a frame no such slot, or the board no such word.
    #[error("out of range")]
    OutOfRange,
    /// A number of 2^62 or more, or too long a record.
    #[error("too large")]
    TooLarge,
}
