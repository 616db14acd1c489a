use crate::spot::Spot;

/// A word that leads into the old space, and the old address that it leads to.
#[derive(Clone, Copy)]
pub struct Asked {
    pub spot: Spot,
    pub old: u32,
}
