use crate::save_end::SaveEnd;

/// What a save is about to do.
#[derive(Clone, Copy)]
pub enum SaveStage {
    /// Exchange what is said of the page: this worker saves it.
    Exchanges,
    /// Load this word of the page.
    LoadsWord(u32),
    /// Store this word of the page, which was loaded, where it is saved.
    StoresImage(u32, u64),
    /// Store that the page is saved.
    StoresSaved,
    /// Nothing more: it has come to this.
    Ended(SaveEnd),
}
