//! The state of the collected heap: the table of its words decoded, what each worker knows, the invariant that every step
//! keeps, and what it means that the heap represents a state of the plain machine.
//!
//! The crate has definitions and laws, and nothing that runs.
#![tactic(auto)]

mod laws;
mod sizes;

pub use laws::{
    broken_configurations_are_told, checkpoints_are_said, flipped_configuration_stands,
    memory_follows_table, one_place_changes_alone, requested_configuration_stands, rows_are_read,
    rows_change_alone, what_is_quiet_stands_still, what_is_represented_stands,
    what_stands_is_sound, worked_configuration_stands,
};
