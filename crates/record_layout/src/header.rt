ghost use Rattle.std.specs.Prelude.{◌^◌, ◌<◌, ◌≤◌};

use crate::bits::SERIAL_MASK;
use heap_words::Kind;

/// The greatest serial that a header can have.
pub const LAST_SERIAL: u64 = SERIAL_MASK;

/// The header of a record.
#[derive(Clone, Copy, Debug, PartialEq, Eq)]
pub struct Header {
    pub kind: Kind,
    /// The number of words after the header.
    pub len: u16,
    /// The record's number among those that its mutator made, from 1.
    pub serial: u64,
    /// The mutator that made the record.
    pub mutator: u8,
    pub ghost short: { len ≤ 4095 },
    pub ghost counted: { serial < 2 ^ 40 },
}
