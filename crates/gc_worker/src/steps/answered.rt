ghost use Rattle.std.specs.Prelude.{◌≡◌};
ghost use Rattle.gc_worker.specs.Steps.Direct.{answered_by};

use crate::steps::stepped::Stepped;

/// How a call stands after an act of its mutator.
#[derive(Clone, Copy, Debug, PartialEq, Eq)]
pub enum Answered {
    /// It is under way.
    Open,
    /// It had its effect.
    Executed,
    /// The mutator came to its end.
    Ended,
}

impl Stepped {
    /// How a call stands after this act.
    pub fn answered(self) -> Answered
        ensures { result ≡ answered_by self }
    {
        match self {
            Stepped::Effect(_) => Answered::Executed,
            Stepped::Ended(..) => Answered::Ended,
            Stepped::Idle | Stepped::Moved | Stepped::Flipped(_) | Stepped::Traced => {
                Answered::Open
            }
        }
    }
}
