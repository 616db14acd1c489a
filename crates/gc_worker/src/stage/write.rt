use alloc_end::Place;
use record_access::Access;

/// What writes a word on an open page next.
#[derive(Clone, Copy)]
pub enum Write {
    /// This access.
    OfAccess(Access),
    /// This allocation.
    OfPlace(Place),
}
