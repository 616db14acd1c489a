//! The text of the benchmark: mutators that each build a search tree, and look each of its keys up.
#![tactic(auto)]

mod keys;
mod laws;
mod text;

pub use keys::{key_count, seed_behind};
pub use laws::benchmarks_are_texts;
pub use text::bench_text;
