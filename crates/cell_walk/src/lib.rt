//! The walk over the weak cells that were copied in an epoch, which replaces their targets.
//!
//! What only cells lead to is not copied, so the copy of a cell has the old target at first. It is linked to a chain: the word
//! WEAK is the address of the cell that was linked last, and one more; a cell's link is that of the one linked before it, and one
//! more, or 0. When all else of the epoch is done, one worker wins the turn, by exchange of the word WEAKTURN, and walks along
//! the links. Each target that still leads into the old space is replaced: where a forward stands there, by the pointer to the
//! copy; else by the number 0, since nothing but cells led there.
//!
//! [`Walk`] is a machine: it names its next atomic step, and takes the reply. [`WalkStage`] lists what it does in turn.
#![tactic(auto)]

mod laws;
mod linked_cell;
mod walk;
mod walk_end;
mod walk_stage;

pub use laws::{
    chains_are_walked, targets_are_replaced_once, turns_are_taken_by_exchange, walks_go_on,
    walks_stay_sound, worked_chain_is_walked,
};
pub use linked_cell::LinkedCell;
pub use walk::Walk;
pub use walk_end::WalkEnd;
pub use walk_stage::WalkStage;
