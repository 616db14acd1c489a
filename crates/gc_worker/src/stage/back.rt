use record_access::Access;

/// What a worker goes back to after a round of the duty.
#[derive(Clone, Copy)]
pub enum Back {
    /// To the look at the page on which the access faulted.
    ToAccess(Access),
    /// To the access to the target of a cell, once the epoch is traced.
    ToTarget(Access),
    /// To the allocation of a record, from its beginning.
    ToPlace,
    /// To the beginning of a checkpoint, from its first round.
    ToSnap,
    /// To the next round.
    ToScanner,
}
