/// For whom a round is made.
#[derive(Clone, Copy)]
pub enum Caller {
    /// A mutator that faulted on this page.
    Faulted(u32),
    /// A mutator that lacks room for a new record.
    Allocates,
    /// A scanner beside so many mutators.
    Scans(u8),
}
