use crate::save::Save;
use crate::save_round_end::SaveRoundEnd;

/// What a save round is about to do.
#[derive(Clone, Copy)]
pub enum SaveRoundStage {
    /// Load the gate: a scanner takes the epoch from there.
    LoadsGate,
    /// Load the number of the last checkpoint that was begun.
    LoadsSnap,
    /// Load the number of the last checkpoint that was finished.
    LoadsDone,
    /// Load the gate again: a scanner's checkpoint must have run in the epoch.
    LoadsGateAgain,
    /// Load the word of this page. The word by which another worker was found saving a page, if one was.
    LoadsPage(u32, Option<u64>),
    /// Load what is said of this page, which is open. The word by which another worker was found saving a page, if one was.
    LoadsSave(u32, Option<u64>),
    /// Make the next step of its own save of a page.
    Saves(Save),
    /// Exchange the number of the last checkpoint that was finished: all pages are saved.
    ExchangesDone,
    /// Nothing more: it has come to this.
    Ended(SaveRoundEnd),
}
