//! The first word of a record of the collected heap: its header, or what stands in place of it once the collector
//! has taken the record.
#![tactic(auto)]

mod bits;
mod busy;
mod forward;
mod header;
mod laws;
mod packing;
mod reading;

pub use busy::Busy;
pub use forward::Forward;
pub use header::{Header, LAST_SERIAL};
pub use heap_words::Kind;
pub use laws::first_words_are_distinct;
pub use packing::{pack, pack_busy, pack_forward};
pub use reading::{read, read_busy, read_forward};
