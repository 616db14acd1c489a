//! The output of a run, read back: the lines of its mutators, the order of what happened, and the dump of its heap.
#![tactic(auto)]

mod audit_error;
mod auditing;
mod laws;
mod places;
mod reading;
mod records;
mod told_heap;
mod verdict;
mod walks;

pub use audit_error::AuditError;
pub use auditing::audit;
pub use laws::{places_show_what_is_represented, texts_tell_one_output};
pub use places::place::Place;
pub use reading::first_other::first_other_line;
pub use reading::lines::{MutatorLines, read_lines};
pub use reading::order::read_order;
pub use reading::part::{Part, read_part};
pub use reading::reading_error::ReadingError;
pub use records::copied_records::CopiedRecords;
pub use records::owners::Owners;
pub use told_heap::ToldHeap;
pub use verdict::{At, Verdict};
pub use walks::{RecordAt, Walks};
