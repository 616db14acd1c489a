//! How a mutator ends.

ghost use Rattle.std.specs.Prelude.{Some};
ghost use Rattle.plain_state.specs.End.{text_of};

use std::fmt;

/// Why a mutator runs no further.
#[derive(Clone, Copy, Debug, PartialEq, Eq)]
pub enum End {
    /// It executed `halt`.
    Halt,
    /// A register that should hold a reference held a number.
    NotPointer,
    /// A register that should hold a number held a reference.
    NotNumber,
    /// A length over 4095, or over 4094 of a mixed record, an index past a record's length, or a board
    /// word past 15.
    OutOfRange,
    /// A word of a weak cell was to be stored into or exchanged.
    WeakCell,
    /// A reference was to be stored in a raw record, or behind the fields of a mixed one.
    IntoRaw,
    /// A division by 0.
    ZeroDivisor,
    /// The program counter left the code.
    JumpOut,
    /// As many instructions were executed as the mutator may execute.
    TurnsOut,
    /// The 65,537th number was to be printed.
    OutputFull,
    /// No room for a new record: pages asked for, words of room, and words that the collector has
    /// copied in this epoch.
    HeapFull { asked: u32, room: u32, live: u32 },
}

impl fmt::Display for End {
    ghost output = { λ end. Some (text_of end) };

    fn fmt<W: fmt::Write>(&self, f: &mut fmt::Formatter<W>) -> fmt::Result {
        match self {
            End::Halt => f.write_str("halt"),
            End::NotPointer => f.write_str("not a pointer"),
            End::NotNumber => f.write_str("not a number"),
            End::OutOfRange => f.write_str("out of range"),
            End::WeakCell => f.write_str("weak cell"),
            End::IntoRaw => f.write_str("pointer into raw"),
            End::ZeroDivisor => f.write_str("zero divisor"),
            End::JumpOut => f.write_str("jump out"),
            End::TurnsOut => f.write_str("turns out"),
            End::OutputFull => f.write_str("output full"),
            End::HeapFull { asked, room, live } => {
                write!(f, "heap full asked {asked} room {room} live {live}")
            }
        }
    }
}
