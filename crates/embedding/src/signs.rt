//! Why an actor stops, and the sign on the board that says so.

ghost use Rattle.std.specs.Prelude.{◌≡◌, None, OnOk};
ghost use Rattle.embedding.specs.Signs.{FindsQuiet, HasSignedOff};

use ael_runtime::{Failure, Local, Mutator, Root};
use std::sync::Wait;
use thiserror::Error;

/// The word of the board for the sign, which is 0 as long as nobody has put it up.
const SIGN: u8 = 1;

const STOPPED: u64 = 1;

/// The root for what is looked at on the board.
pub const FOUND: Root = Root::R3;

/// Why an actor stops before its work is done.
#[derive(Clone, Copy, Debug, PartialEq, Eq, Error)]
pub enum Stop {
    #[error("{0}")]
    Failed(#[from] Failure),
    #[error("there is a record in place of a number")]
    NoNumber,
    #[error("its partner has stopped")]
    PartnerStopped,
}

/// What comes of an actor's work.
pub type Outcome = Result<u64, Stop>;

/// Puts up the sign, and leaves.
pub fn announce<R: Wait>(rt: &R, mut spare: Local<'_>) -> Mutator
    requires no_end { spare.worker.account.end ≡ None }
    ensures of_heap { result.table ≡ spare.entry.table }
    ensures rests { result.worker.task ≡ None }
    ensures signed { HasSignedOff result }
{
    spare.set_number(rt, FOUND, STOPPED).unwrap();
    spare.share(rt, SIGN, FOUND).unwrap();
    spare.leave(rt)
}

/// Stops if the sign is up. Who waits for a partner looks here each time.
pub fn heed<R: Wait>(rt: &R, local: &mut Local<'_>) -> Result<(), Stop>
    ensures of_heap { local.new.table ≡ local.old.table }
    ensures quiet { OnOk result (FindsQuiet local.old local.new) }
{
    local.read_shared(rt, FOUND, SIGN)?;
    if local.number(FOUND) != Some(0) {
        return Err(Stop::PartnerStopped);
    }
    Ok(())
}
