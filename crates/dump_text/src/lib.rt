//! The dump of a heap as it is printed, read back.
#![tactic(auto)]

mod dump;
mod dump_error;
mod head;
mod kept;
mod laws;
mod lines;
mod number;
mod reading;
mod word;

pub use dump::Dump;
pub use dump_error::DumpError;
pub use head::Head;
pub use kept::Kept;
pub use laws::texts_tell_one_dump;
pub use number::numeral;
pub use reading::{read, read_head};
pub use word::after;
