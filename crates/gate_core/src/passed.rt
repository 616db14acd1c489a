/// What a passage comes to.
#[derive(Clone, Copy)]
pub enum Passed {
    /// It was made, and this is the gate's word since.
    Went(u64),
    /// This word of the gate forbids it.
    NotYet(u64),
}
