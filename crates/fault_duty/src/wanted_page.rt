use space_map::PageWord;

/// The page that a mutator faulted on, and what its word says.
#[derive(Clone, Copy)]
pub struct WantedPage {
    pub page: u32,
    pub says: PageWord,
}
