//! Why an instruction wasn't executed.

ghost use Rattle.std.specs.Prelude.{◌≡◌};
ghost use Rattle.plain_machine.specs.declared.stop.Stop.TheVariants.{Ended, OutOfMemory};

use plain_state::{End, NoMemory};

/// Why a mutator didn't execute an instruction.
#[derive(Clone, Copy)]
pub enum Stop {
    /// The instruction is the mutator's end.
    Ended(End),
    /// There was no memory for what it leaves.
    OutOfMemory,
}

impl From<End> for Stop {
    ghost from_gives = { λ why stop. stop ≡ Ended why };

    fn from(why: End) -> Stop {
        Stop::Ended(why)
    }
}

impl From<NoMemory> for Stop {
    ghost from_gives = { λ _ stop. stop ≡ OutOfMemory };

    fn from(_no_memory: NoMemory) -> Stop {
        Stop::OutOfMemory
    }
}
