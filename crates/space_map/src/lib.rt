//! The memory of the collected heap: two spaces of pages and the board, and the table of words in which they lie
//! beside the words that the collector shares.
//!
//! The formats of all shared words but those of records are defined here, in `specs`, and these words are made and read
//! here. What stands above speaks of rows in place of places, and of words decoded.
#![tactic(auto)]

mod area_word;
mod bad_pages;
mod crossing;
mod gate_word;
mod laws;
mod page_word;
mod save_word;
mod spaces;

pub use area_word::AreaWord;
pub use bad_pages::BadPages;
pub use crossing::crossed;
pub use gate_word::GateWord;
pub use laws::{
    area_words_are_unambiguous, gate_words_are_unambiguous, page_words_are_unambiguous,
    rows_lie_apart, save_words_are_unambiguous, whole_rows_lie_apart,
};
pub use page_word::PageWord;
pub use save_word::SaveWord;
pub use spaces::{
    FEWEST_PAGES, LAST_WORKER, MOST_MUTATORS, MOST_PAGES, MOST_SCANNERS, PAGE_WORDS, Spaces,
};
