//! The gate, at which all mutators stop for a flip or a checkpoint, the flip, and the beginning of a checkpoint.
//!
//! One word counts the mutators that are live, that run, and that are behind: those that have not forwarded their registers
//! since the last flip. A mutator looks at it before each instruction. Who lacks room requests a flip; the others park. When
//! nobody runs, and nobody is behind from the flip before, the mutator that requested it flips: it settles how many pages of
//! the other space are in use, resets that space, and makes the gate that of the next epoch. From then on all pages are closed,
//! because their words are of earlier epochs. Each stopped mutator forwards its own registers, and none runs on before all have
//! done so.
//!
//! Who is to begin a checkpoint requests it as a flip is requested. When nobody runs, it raises the number of the last
//! checkpoint, and clears the request. Whoever runs on reads that number, and the number of the last checkpoint that was
//! finished: if they differ, that checkpoint runs.
//!
//! [`Gate`] is the machine of a [`Passage`]: a load of the gate, and the exchange that makes the passage where the word read
//! allows it. [`Flip`] is that of a flip, [`Snap`] that of the beginning of a checkpoint, and [`Recall`] reads which checkpoint
//! runs. They name their next atomic step, and take the reply. [`GateStage`], [`FlipStage`], [`SnapStage`] and [`RecallStage`]
//! list what they do in turn.
#![tactic(auto)]

mod flip;
mod flip_stage;
mod flipped;
mod gate;
mod gate_stage;
mod laws;
mod passage;
mod passed;
mod recall;
mod reset;
mod snap;

pub use flip::Flip;
pub use flip_stage::FlipStage;
pub use flipped::Flipped;
pub use gate::Gate;
pub use gate_stage::GateStage;
pub use laws::{
    checkpoint_rows_are_worked_out, checkpoints_begin_where_nobody_runs,
    clearing_changes_the_request_alone, flips_are_made_where_all_is_still,
    passages_and_flips_go_on, passages_are_made_where_allowed, recalls_and_snaps_go_on,
    recalls_tell_what_they_read, rows_are_worked_out,
};
pub use passage::Passage;
pub use passed::Passed;
pub use recall::Recall;
pub use recall::recall_stage::RecallStage;
pub use recall::recalled::Recalled;
pub use reset::Reset;
pub use snap::Snap;
pub use snap::snap_stage::SnapStage;
pub use snap::snapped::Snapped;
