//! A mutator that has a heap to itself: none of its steps is in vain, and a core's run of it gets on and ends.
//!
//! What it has still to pay before its instruction is done falls with each of its steps, and is below a bound of the pages that a space
//! may have when an instruction begins, twice as high where checkpoints can be begun. So in a core's run of it alone it has its end, or
//! has executed an instruction for each time that so many steps are in the run; and since it has no more than its turns, it comes to
//! its end. The crate has laws, and nothing that runs.
#![tactic(auto)]

mod laws;

pub use laws::{
    lone_heaps_open, lone_mutators_go_on, lone_runs_end, lone_steps_lower, lone_tasks_begin,
};
