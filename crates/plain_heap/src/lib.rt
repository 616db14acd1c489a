//! The plain machine as definitions, and its laws: a heap that never moves or frees a record, and an order of its steps.
//! What the collected heap prints is measured against it.
#![tactic(auto)]

mod action;
mod laws;
mod mark;

pub use action::Action;
pub use laws::{
    alone_mutators_are_independent, call_leaves_the_others, call_makes_the_new_record,
    checkpoints_have_one_text, only_reached_records_are_printed, only_snap_begins_checkpoints,
    only_stores_change_words, orders_keep_the_last_checkpoint, reached_states_are_consistent,
    reaching_is_reachable, shapes_stay, steps_find_the_last_store, stories_keep_the_last_flip,
    tracing_empties_cells, worked_checkpoints_are_printed,
};
pub use mark::Mark;
pub use plain_state::{End, NoMemory};
