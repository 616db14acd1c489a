/// Where a scan ended.
#[derive(Clone, Copy)]
pub struct Ending {
    /// The first word that it did not pass. Behind a record that ends on a later page, that is the next record's.
    pub cursor: u32,
    /// Whether FRONT ended it inside the page.
    pub at_front: bool,
}
