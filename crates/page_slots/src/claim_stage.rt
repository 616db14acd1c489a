use crate::claimed::Claimed;

/// What a claim is about to do.
#[derive(Clone, Copy)]
pub enum ClaimStage {
    /// Load the place that this worker has announced for a copy.
    LooksAtPlace(u8),
    /// Load the gate, whether the epoch is still the claim's.
    LooksAtGate,
    /// Exchange the page's word for this worker's own.
    Exchanges,
    /// Nothing more: it has come to this.
    Ended(Claimed),
}
