//! The machine whose heap is collected: mutators and scanners over the words of a table, stepped in any order.
#![tactic(auto)]

mod laws;
mod machine;
mod marks;
mod opening;
mod readers;
mod slot;

pub use gc_worker::{Config, OpenError, Stepped};
pub use laws::{
    checkpoints_are_told, claims_are_made_or_set_aside, copied_pages_are_won_once,
    cycles_empty_lost_cells, cycles_keep_what_is_live, events_meet, full_heaps_are_filled,
    fulls_follow_flips, instructions_flip_once, large_heaps_are_never_full,
    missing_workers_are_idle, no_page_is_won_twice, runs_are_plain_runs, runs_find_the_last_store,
    runs_follow, sizes_grow_at_flips, what_stands_is_told,
};
pub use machine::Core;
pub use marks::mark;
