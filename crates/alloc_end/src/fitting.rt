use space_map::AreaWord;

/// An area into which the pages that are asked for fit.
#[derive(Clone, Copy)]
pub struct Fitting {
    /// Whether the epoch was found traced, so that no room has to be kept.
    pub traced: bool,
    /// The area that was read.
    pub area: AreaWord,
}
