ghost use Rattle.std.specs.Prelude.{◌≤◌};

/// What stands in place of an old record's header once the record is copied: the forwarding address of a copying
/// collector (Baker 1978; Appel, Ellis and Li 1988). It keeps the length, so that the old space can still be walked.
#[derive(Clone, Copy, Debug, PartialEq, Eq)]
pub struct Forward {
    /// The number of words after the old record's first.
    pub len: u16,
    /// The address of the copy's header.
    pub addr: u32,
    pub ghost short: { len ≤ 4095 },
}
