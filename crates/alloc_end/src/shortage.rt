/// Why pages could not be claimed: numbers of pages and of words, by the words read.
#[derive(Clone, Copy)]
pub struct Shortage {
    /// The pages asked for.
    pub asked: u32,
    /// The words between FRONT and LOW.
    pub room: u32,
    /// Those of them that had to be kept for the records still to be copied.
    pub owed: u32,
    /// Whether the epoch was found traced.
    pub traced: bool,
    /// The words copied in this epoch.
    pub live: u32,
    /// The pages of the space that were in use.
    pub size: u32,
}
