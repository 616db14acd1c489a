//! Why a call is refused.

use plain_state::End;
use record_layout::LAST_SERIAL;
use thiserror::Error;

/// The most records that a mutator makes: it has no more serials.
pub const MOST_RECORDS: u64 = LAST_SERIAL;

/// Why an instruction can't be begun. If there are several reasons, the first one counts.
#[derive(Clone, Copy, Debug, PartialEq, Eq, Error)]
pub enum Refused {
    /// The mutator has this end.
    #[error("the mutator has an end: {0:?}")]
    Ended(End),
    /// It has begun an instruction or an end, which no act has answered yet.
    #[error("the mutator has a call under way")]
    Calling,
    /// A text can't hold the instruction: a register above 7, a number of 2^62 or more, or a jump's target above 65,536.
    #[error("an operand is none that its place allows")]
    Operand,
    /// The instruction makes a record, and the mutator has made `MOST_RECORDS`.
    #[error("the mutator can make no more records")]
    Records,
    /// The instruction is `out`, and the heap was opened without printing.
    #[error("the mutator may not print")]
    Printing,
}
