//! The copy of one record out of the old space, and the forward that it leaves.
//!
//! A record is copied in many atomic steps, beside mutators and other workers that copy. So its old header is first
//! exchanged for a word that names the worker; who meets that word waits. The worker keeps the header, announces where the
//! copy is going to be, reserves that room by moving FRONT past it, copies the words, and says of each page that begins in
//! the copy that this record lies over its first word. Then it stores the forward in the old header's place, which from
//! then on leads every worker to the one copy.
//!
//! The copy of a cell, a record of kind weak, is linked then: its link gets the word WEAK, which leads to the cell linked
//! last, and WEAK is exchanged for a word that leads to this copy. So a chain leads through all copied cells, and a worker
//! walks over it once all else of the epoch is traced, to find the targets that nothing else led to.
//!
//! [`Evac`] is a machine: it names its next atomic step and takes the reply, or makes the step itself on plain words.
//! [`EvacStage`] lists what it does in turn.
#![tactic(auto)]

mod evac;
mod evac_stage;
mod kept_header;
mod laws;
mod loaded_word;
mod reserved;
mod to;

pub use evac::Evac;
pub use evac_stage::EvacStage;
pub use kept_header::KeptHeader;
pub use laws::{
    cells_are_linked_by_exchange, copies_are_made_in_order, copies_go_on, one_copy_is_found,
    worked_copy_is_made,
};
pub use loaded_word::LoadedWord;
pub use reserved::Reserved;
pub use to::To;
