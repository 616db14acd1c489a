//! Where records begin on a page, and the walk over the records of a space.
//!
//! Records lie packed and over the ends of pages, so who enters a page can't tell where a record begins there. The crossing
//! map says it: for each page of the copied part of a space, the address of the record that lies over the page's first word
//! (Appel, Ellis and Li 1988). [`crossed`] says of which pages a record has to be noted, and [`covers`] reads what is noted.
//!
//! [`walk_next`] goes over a space record by record. A record's first word says its length: its header, the forward to its
//! copy, or the word of a worker that is copying it. What a place that is reserved for a copy will hold, its worker's kept
//! header says; such a place is passed over.
#![tactic(auto)]

mod area;
mod crossing;
mod first_word;
mod laws;
mod walk;
mod walked;

pub use area::Area;
pub use crossing::covers;
pub use first_word::record_size;
pub use laws::{walk_next_is_next_in_walk, worked_spaces_are_walked};
pub use space_map::crossed;
pub use walk::walk_next;
pub use walked::Walked;
