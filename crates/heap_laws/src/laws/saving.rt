//! What each step keeps of a checkpoint in progress.

mod pages;
mod rounds;
mod rows;
mod snaps;
mod spares;

pub use pages::{pages_are_saved, says_are_found, stock_pages_are_marked, written_pages_are_open};
pub use rounds::{checkpoints_end, rounds_follow, savers_forget, savers_learn};
pub use rows::{
    flips_are_spared, passed_rounds_have_saved, rows_are_spared, savers_change, saves_are_read,
    saves_change_alone, saves_open,
};
pub use snaps::{
    askers_are_alone, frozen_heaps_show, requests_are_spared, snappers_step, snaps_are_kept,
};
pub use spares::{
    flippers_are_spared, new_pages_are_spared, passages_are_spared, stores_are_spared,
    tracing_is_spared,
};
