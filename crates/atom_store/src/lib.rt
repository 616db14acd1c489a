//! Shared memory one step at a time.
//!
//! A step is one load, store or compare-exchange of one word. A machine that works on shared memory names its next step
//! and takes the reply; who owns the memory makes the step. [`Atoms`] is memory that makes steps, and [`PlainAtoms`] such
//! memory in a vector, for a caller that runs its machines by turns.
#![tactic(auto)]

mod atoms;
mod laws;
mod no_memory;
mod plain_atoms;
mod reply;
mod step;
mod turn;

pub use atoms::Atoms;
pub use laws::steps_touch_one_word;
pub use no_memory::NoMemory;
pub use plain_atoms::PlainAtoms;
pub use reply::Reply;
pub use step::Step;
pub use turn::Turn;
