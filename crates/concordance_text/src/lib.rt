//! The concordance of a text: its words in order, each with the numbers of the lines in which it stands.
#![tactic(auto)]

mod laws;
mod letters;
mod lines;
mod listing;
mod long_words;
mod part;

pub use laws::{
    lines_are_added, one_concordance, some_concordance, texts_are_worked_out, words_are_runs,
};
pub use letters::{Letters, MOST_LETTERS, lower_cased, separates};
pub use lines::first_line;
pub use listing::{WordMap, add_lines, told};
pub use long_words::first_too_long;
pub use part::{MOST_PARTS, Part, Parts, parts};
