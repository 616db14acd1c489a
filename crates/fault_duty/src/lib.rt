//! The duty: what a worker does next so that the epoch gets traced.
//!
//! A mutator that meets a closed page, or lacks room while the epoch is not traced, makes a round of the duty, and so do
//! scanners without end. A round claims one page: the one that the mutator met, or else the first that nobody has claimed,
//! the board before the full pages. When all of them are open, the page that holds FRONT is left, which is scanned as far as
//! it is filled; and when that is open too, and FRONT stands where it stood, nothing is left to copy: the round walks over
//! the chain of cells, as one worker an epoch can, and marks the epoch as traced. If another worker has to come on first,
//! the round ends with the word that shows it, and if the epoch is traced already, it tells that. Nobody waits here.
//!
//! [`Duty`] is a machine: it names its next atomic step and takes the reply, or makes the step itself on plain words.
//! [`DutyStage`] lists what it does in turn, and [`RoundEnd`] what it comes to. Scanning and opening the page that it has
//! claimed is its caller's next work.
#![tactic(auto)]

mod caller;
mod choice;
mod duty;
mod duty_stage;
mod end_look;
mod findings;
mod laws;
mod page_state;
mod round_end;
mod wanted_page;

pub use caller::Caller;
pub use choice::Choice;
pub use duty::Duty;
pub use duty_stage::DutyStage;
pub use end_look::EndLook;
pub use findings::Findings;
pub use laws::{
    rounds_claim_or_mark, rounds_go_on, rounds_without_work_show_why, rows_are_worked_out,
    scanners_end_with_the_mutators, walks_stay_sound,
};
pub use page_state::PageState;
pub use round_end::RoundEnd;
pub use wanted_page::WantedPage;
