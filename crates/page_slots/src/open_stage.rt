use crate::opened::Opened;

/// What an opening is about to do.
#[derive(Clone, Copy)]
pub enum OpenStage {
    /// Store the word that opens the page.
    StoresOpen,
    /// Nothing more: the page is open.
    Ended(Opened),
}
