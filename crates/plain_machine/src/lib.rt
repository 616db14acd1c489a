//! The plain machine, executed: its states, one instruction, an order of instructions, and what is printed.
#![tactic(auto)]

mod effects;
mod heap;
mod instructions;
mod mutator;
mod order;
mod printing;
mod search;
mod state;
mod step;
mod stop;

pub use heap::record::PlainRecord;
pub use order::{has_weak, plain_run};
pub use printing::{print, push_lines, push_order};
pub use state::{PlainState, plain_step};
