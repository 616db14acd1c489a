use crate::allocated::Allocated;
use crate::fitting::Fitting;
use crate::new_pages::NewPages;

/// What an allocation is about to do.
#[derive(Clone, Copy)]
pub enum PlaceStage {
    /// Load TRACED, whether room has to be kept for copies.
    LoadsTraced,
    /// Load the number of the space's pages in use: the epoch was found traced or not.
    LoadsSize(bool),
    /// Load the area, whether pages for the record fit: the epoch was found traced or not, in a space of so many pages in use.
    LoadsArea(bool, u32),
    /// Move LOW below these pages, by exchange of the area that was read.
    ExchangesArea(Fitting),
    /// Store 0 in the next word of the pages claimed.
    StoresZero(NewPages),
    /// Store that the next of the pages claimed is new, since a checkpoint was begun before.
    StoresNew(NewPages),
    /// Open the next of the pages claimed.
    OpensPage(NewPages),
    /// Store the count of a mixed record's fields in the word behind the run's place.
    StoresCount,
    /// Store a cell's target in the word behind the run's place.
    StoresTarget,
    /// Store 0 as a cell's link, in the word behind its target.
    StoresLink,
    /// Store the header at the run's place.
    StoresHeader,
    /// Nothing more: it has come to this.
    Ended(Allocated),
}
