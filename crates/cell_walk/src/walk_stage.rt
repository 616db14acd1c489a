use crate::linked_cell::LinkedCell;
use crate::walk_end::WalkEnd;

/// What a walk is about to do.
#[derive(Clone, Copy)]
pub enum WalkStage {
    /// Load the turn's word.
    LoadsTurn,
    /// Exchange the word that it read for the one that says that the turn is taken in this epoch.
    TakesTurn(u64),
    /// Load the word that says where the cell is that was linked last.
    LoadsWeak,
    /// Load this cell's target.
    LoadsTarget(LinkedCell),
    /// Load the first word of the old record at this address, to which the target leads.
    LoadsTargetHeader(LinkedCell, u32),
    /// Store this word as the cell's target.
    StoresTarget(LinkedCell, u64),
    /// Load the cell's link.
    LoadsLink(LinkedCell),
    /// Nothing more: it has come to this.
    Ended(WalkEnd),
}
