use crate::choice::Choice;
use crate::end_look::EndLook;
use crate::findings::Findings;
use crate::round_end::RoundEnd;
use crate::wanted_page::WantedPage;
use cell_walk::Walk;
use page_slots::Claim;
use space_map::PageWord;

/// What a round is about to do.
#[derive(Clone, Copy)]
pub enum DutyStage {
    /// Load the gate: its epoch must be the round's, and a scanner takes it from there.
    LoadsGate,
    /// Load TRACED, whether the epoch is traced already. This is the gate's word, where a mutator is behind.
    LoadsTraced(Option<u64>),
    /// Load the word of the page that a mutator faulted on.
    LoadsWanted(Findings, u32),
    /// Load the area, whether that page is full.
    LoadsFrontFor(Findings, WantedPage),
    /// Load the area, below whose FRONT a page is to be chosen.
    LoadsFront(Findings),
    /// Load the word of this page: the first that nobody has opened or scanned is claimed.
    LoadsPage(Choice, u32),
    /// Make the next step of the claim.
    Claims(Claim),
    /// All pages are open. Load the gate again: nobody may be behind. This is the word of TRACED.
    EndGate(u64),
    /// Load the area again: this is the word of TRACED.
    EndArea(u64),
    /// Load the word of this page again: it must be open.
    EndPage(EndLook, u32),
    /// Load the word of the filling page.
    EndFilling(EndLook),
    /// Load the area once more: FRONT must still be there. The filling page's word says this, or there is none.
    EndAreaAgain(EndLook, PageWord),
    /// Make the next step of the walk over the chain of cells. This is the word of TRACED.
    Walks(u64, Walk),
    /// All cells are passed. Exchange TRACED from this word.
    Traces(u64),
    /// Nothing more: it has come to this.
    Ended(RoundEnd),
}
