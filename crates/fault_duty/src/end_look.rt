/// A look at the end of the copied area.
#[derive(Clone, Copy)]
pub struct EndLook {
    /// The word of TRACED.
    pub traced: u64,
    /// The address of FRONT.
    pub front: u32,
}
