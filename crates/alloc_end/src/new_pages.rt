/// Pages that were claimed, and are made ready one word and one page at a time.
#[derive(Clone, Copy)]
pub struct NewPages {
    /// Their first word.
    pub first: u32,
    /// The word to be cleared next, or the page to be marked or opened next.
    pub next: u32,
}
