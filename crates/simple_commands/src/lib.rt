//! Command lines of simple commands of `clap`: exactly which words they take, and exactly what was
//! given.
//!
//! `clap` says of a simple command what `takes` is, and that words which are taken fail only for
//! want of memory. Here it is also said that words which aren't taken are refused, and that each
//! value was accepted by the parser of its argument, so that numbers can be read back.
#![tactic(auto)]

mod options;
mod parsing;
mod readers;

pub use options::{Numbers, add_operands, add_options, number_of};
pub use parsing::{WordsError, parse};
pub use readers::{is_given, wide_number};
