use crate::findings::Findings;

/// The choice of a page among the board and the full pages.
#[derive(Clone, Copy)]
pub struct Choice {
    pub seen: Findings,
    /// The address of FRONT, below which the full pages lie.
    pub front: u32,
}
