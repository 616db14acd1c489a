use crate::may_write::MayWrite;
use crate::save::Save;

/// What a look before a write is about to do.
#[derive(Clone, Copy)]
pub enum GuardStage {
    /// Load what is said of the page.
    Looks,
    /// Make the next step of its own save of the page.
    Saves(Save),
    /// Nothing more: the page may be written.
    Ended(MayWrite),
}
