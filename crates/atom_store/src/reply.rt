/// What an atomic step replies.
#[derive(Clone, Copy, Debug, PartialEq, Eq)]
pub enum Reply {
    /// The word that was loaded.
    Value(u64),
    /// The value was stored.
    Done,
    /// The values were exchanged.
    Won,
    /// The word had this other value, and keeps it.
    Lost(u64),
}
