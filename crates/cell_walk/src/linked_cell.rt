/// A cell that the walk has come to.
#[derive(Clone, Copy)]
pub struct LinkedCell {
    /// The address of its header. Its target and its link are the two words behind that.
    pub at: u32,
    /// How many cells may still come, this one with them.
    pub most: u32,
}
