/// What a flip comes to.
#[derive(Clone, Copy)]
pub enum Flipped {
    /// The spaces are exchanged. The flipper had asked for so many pages.
    Went(u32),
    /// This word of the gate forbids it: a mutator runs, or one is behind.
    NotYet(u64),
}
