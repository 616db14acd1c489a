//! A modelled memory management unit: the protection of pages that Appel and Li ask of an operating system (1991).
//!
//! Each page has a word that says in which epoch mutators may access it. So raising the epoch protects all pages at once
//! (their PROTN), and storing one word opens one page (UNPROT). A mutator's access begins with a check that allows it or
//! faults (TRAP), and the collector reaches protected words by a second mapping (MAP2).
#![tactic(auto)]

mod page_words;
mod primitives;
mod protection;

pub use page_words::{pack, read};
pub use primitives::{check, protect_all, second_map, unprotect};
pub use protection::Protection;
pub use space_map::PageWord;
