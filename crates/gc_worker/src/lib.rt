//! One worker of the collected heap: a mutator or a scanner, with all machines as one.
//!
//! A worker names its next atomic step and takes the reply. What it holds between two steps is one stage, beside its
//! registers and its account; each machine is a variant of the stage. The crate defines what a worker wants, what a reply
//! makes of it and what its step is to the plain machine, and what the proofs of the heap know of it at each stage.
//!
//! It also says which histories of calls and flips are legal, and what is so along each of them: what a load gets, which records
//! stay, and when a heap is full.
#![tactic(auto)]

mod calls;
mod config;
mod cycle_laws;
mod history_laws;
mod laws;
mod open_error;
mod opening;
mod readers;
mod registers;
mod stage;
mod state;
mod steps;
mod task;
mod worker;

pub use calls::call::Call;
pub use calls::did::Did;
pub use calls::entry::Entry;
pub use config::{Config, MOST_TURNS};
pub use cycle_laws::{
    claims_are_for_records, flips_are_first, flips_set_sizes, low_falls_by_claims, sizes_stay,
};
pub use history_laws::{
    histories_keep_the_last_checkpoint, loads_get_the_last_store, records_keep_their_shape,
};
pub use laws::{
    answers_leave_the_others, beginnings_are_kept, checkpoints_are_begun, checkpoints_are_kept,
    checkpoints_are_safe, counts_are_apart, direct_loads_go_by_stages, ended_machines_make_way,
    heaps_open, lost_cells_are_empty, pages_are_opened_by_claims, places_fit, readying_stands,
    registers_lead_back, scanners_go_last, steps_keep, stories_keep, tasks_may_begin,
    traced_pages_are_open, what_is_represented_stands, what_stands_is_so, what_was_copied_was_live,
    who_is_gone_saw_why, workers_go_on, workers_want,
};
pub use open_error::OpenError;
pub use opening::opening_words;
pub use readers::{epoch_said, live_said};
pub use stage::Stage;
pub use stage::after::After;
pub use stage::back::Back;
pub use stage::forwarding_register::ForwardingRegister;
pub use stage::goal::Goal;
pub use stage::write::Write;
pub use steps::allocating::Making;
pub use steps::answered::Answered;
pub use steps::direct::loading::{loads_header, loads_value, looks_at_record, looks_at_value};
pub use steps::stepped::Stepped;
pub use task::Task;
pub use worker::Worker;
