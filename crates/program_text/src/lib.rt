//! The assembler: the text of mutators, read to a program, and the listing of a program.
#![tactic(auto)]

mod errors;
mod items;
mod laws;
mod listing;
mod text;

pub use errors::asm_error::{AsmError, error_text};
pub use laws::listing_is_a_text;
pub use listing::list;
pub use text::assemble;
