ghost use Rattle.std.specs.Prelude.{◌≤◌};

/// What stands in place of an old record's header while a worker copies the record. The worker keeps the header.
#[derive(Clone, Copy, Debug, PartialEq, Eq)]
pub struct Busy {
    /// The number of words after the old record's first.
    pub len: u16,
    pub worker: u8,
    pub ghost short: { len ≤ 4095 },
}
