//! The allocation of new records, at the high end of the to-space.
//!
//! Copied records fill the space from its low end up to FRONT. New records lie apart from them, on pages that are claimed from
//! the high end down to LOW and are open from the start: they lead to records of the to-space alone, so nobody scans them in
//! the epoch in which they are made. A mutator has a run of such pages and places its records in it one behind the other.
//! If one doesn't fit there, it claims pages for it. While the epoch is not traced, the words between FRONT and LOW have
//! to suffice for all records that may still be copied, so a claim is made only if that many are left. If it can't be
//! made, the allocation tells the numbers that it read, with them how many pages of the space are in use.
//! The store of its header makes a record. If it is mixed, the count of its fields is stored before that; if it is a cell, its
//! target and its link are, which is 0.
//!
//! If a checkpoint was begun, a page is marked as new before it is opened: what it has is no part of that checkpoint.
//!
//! [`Place`] is a machine: it names its next atomic step and takes the reply, or makes the step itself on plain words.
//! [`PlaceStage`] lists what it does in turn. After its result it tells the [`Run`] that the mutator has then.
#![tactic(auto)]

mod allocated;
mod fitting;
mod laws;
mod new_pages;
mod place;
mod place_stage;
mod run;
mod shortage;

pub use allocated::Allocated;
pub use fitting::Fitting;
pub use laws::{
    allocations_go_on, claims_keep_the_reserve, full_heaps_are_short_of_room, new_pages_are_marked,
    records_are_placed_in_cleared_pages, rows_are_worked_out,
};
pub use new_pages::NewPages;
pub use place::Place;
pub use place_stage::PlaceStage;
pub use run::Run;
pub use shortage::Shortage;
