//! What is saved for a checkpoint, page by page, while the program runs.
//!
//! A checkpoint begins when a number is raised; nothing is copied then. Afterwards each page that was open at that time is
//! saved once: its words are copied to where the table has room for them. A word says of each page for which checkpoint it is
//! saved, being saved by which worker, or new. Who saves a page exchanges that word first, so that nobody else does. A mutator
//! looks at the word before it writes one of the page, and saves the page itself if nobody has; while another is saving it, it
//! looks again. So a page has its words of the beginning until they are saved. Pages that nobody writes are saved by rounds,
//! one page in a round. The round that finds all pages saved marks the checkpoint as done.
//!
//! [`Save`], [`Guard`] and [`SaveRound`] are machines: they name their next atomic step, and take the reply. [`SaveStage`],
//! [`GuardStage`] and [`SaveRoundStage`] list what they do in turn.
#![tactic(auto)]

mod guard;
mod guard_stage;
mod laws;
mod may_write;
mod save;
mod save_caller;
mod save_end;
mod save_round;
mod save_round_end;
mod save_round_stage;
mod save_stage;
mod save_state;

pub use guard::Guard;
pub use guard_stage::GuardStage;
pub use laws::{
    looks_end_on_kept_pages, looks_go_on, machines_stay_sound, rows_are_worked_out,
    save_rounds_go_on, save_rounds_mark_what_is_kept, save_rounds_show_why, saves_copy_pages,
    saves_go_on,
};
pub use may_write::MayWrite;
pub use save::Save;
pub use save_caller::SaveCaller;
pub use save_end::SaveEnd;
pub use save_round::SaveRound;
pub use save_round_end::SaveRoundEnd;
pub use save_round_stage::SaveRoundStage;
pub use save_stage::SaveStage;
pub use save_state::SaveState;
