/// A word of the old record, by its number from the header, which has number 0.
#[derive(Clone, Copy)]
pub struct LoadedWord {
    pub number: u32,
    pub word: u64,
}
