//! What an order has of a step.

ghost use Rattle.std.specs.Prelude.{◌≡◌};
ghost use Rattle.gc_worker.specs.Plain.Marks.{mark_of};

use gc_worker::Stepped;
use plain_heap::{End, Mark};

/// What an order has of the step, if anything.
pub fn mark(told: Stepped) -> Option<Mark>
    ensures { result ≡ mark_of told }
{
    match told {
        Stepped::Idle | Stepped::Moved => None,
        Stepped::Effect(m) => Some(Mark::Step(m)),
        Stepped::Flipped(asked) => Some(Mark::Flip(asked)),
        Stepped::Traced => Some(Mark::Traced),
        Stepped::Ended(m, End::HeapFull { asked, room, live }) => Some(Mark::Full {
            m,
            asked,
            room,
            live,
        }),
        Stepped::Ended(m, _) => Some(Mark::Step(m)),
    }
}
