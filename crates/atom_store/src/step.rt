/// An atomic step on the word at a place.
#[derive(Clone, Copy, Debug, PartialEq, Eq)]
pub enum Step {
    Load(usize),
    /// A place and the value to store.
    Store(usize, u64),
    /// A place, the value that the word must have, and the value that it then gets.
    Exchange(usize, u64, u64),
}
