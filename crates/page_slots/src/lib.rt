//! The claim of a page by a worker that is going to scan it, and the opening of the page once it is scanned.
//!
//! After a flip no page of the to-space is open to mutators. Each copied page, and the board, is scanned once in the epoch by
//! one worker, which claims it first: it exchanges the page's word, which says no epoch or an earlier one, for its own. A
//! mutator or a scanner that was stopped for long may still hold a word of an earlier epoch; its exchange is lost then, or the
//! looks before it end the claim. On a full page another worker's copy may still be unfinished. Each worker announces the
//! place that it is about to copy to, so who claims a full page looks at all announced places first, and then at the gate
//! again. The board holds no copies, and the filling page is claimed only when nobody copies, so there are no such looks.
//!
//! [`Claim`] and [`Open`] are machines: they name their next atomic step, and take the reply. [`ClaimStage`] and [`OpenStage`]
//! list what they do in turn.
#![tactic(auto)]

mod claim;
mod claim_stage;
mod claimed;
mod laws;
mod open;
mod open_stage;
mod opened;

pub use claim::Claim;
pub use claim_stage::ClaimStage;
pub use claimed::Claimed;
pub use laws::{
    claims_go_on, claims_win_pages_of_earlier_epochs, openings_go_on, openings_open_pages,
    rows_are_worked_out,
};
pub use open::Open;
pub use open_stage::OpenStage;
pub use opened::Opened;
