//! The marks of an order.

use std::fmt;

/// One entry of an order, the list of what happened in a run.
#[derive(Clone, Copy, Debug, PartialEq, Eq)]
pub enum Mark {
    /// A mutator executed its next instruction, or got the end that stands in its place.
    Step(u8),
    /// The two spaces changed their parts, since a mutator had asked for so many pages.
    Flip(u32),
    /// A mutator ended for want of room: pages asked for, words of room, and words copied in this
    /// epoch.
    Full {
        m: u8,
        asked: u32,
        room: u32,
        live: u32,
    },
    /// All is copied that was reachable at the last flip.
    Traced,
}

impl fmt::Display for Mark {
    ghost use Rattle.std.specs.Prelude.{Some};
    ghost use Rattle.plain_heap.specs.Print.{mark_text};

    ghost output = { λ mark. Some (mark_text mark) };

    fn fmt<W: fmt::Write>(&self, f: &mut fmt::Formatter<W>) -> fmt::Result {
        match self {
            Mark::Step(m) => write!(f, "{m}"),
            Mark::Flip(asked) => write!(f, "F{asked}"),
            Mark::Full {
                m,
                asked,
                room,
                live,
            } => write!(f, "X{m},{asked},{room},{live}"),
            Mark::Traced => f.write_str("T"),
        }
    }
}
