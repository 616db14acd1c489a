//! Machine: an access of a word of a record or of the board, as one instruction makes it.
//!
//! The access to a value of a record looks at the word of the header's page, which must be open, and loads the header. That
//! says whether the record has such a value, and what stands there; of a mixed record the count says the latter, so it is
//! loaded too. A word on another page than the one read before it wants a look at that page first. Then the value's word is
//! loaded, stored or exchanged; the target of a cell is loaded once the epoch is traced. A word of the board wants one look.
//! An exchange that was lost is tried again from the word that stands there then, unless a `cas` expects another.
//!
//! [`Access`] is a machine: it names its next atomic step and takes the reply. [`AccessStage`] lists what it does in turn,
//! [`Accessed`] what it comes to.
#![tactic(auto)]

mod access;
mod access_stage;
mod access_words;
mod accessed;
mod board_access;
mod field_access;
mod laws;
mod mixed_access;
mod record_access;
mod stored_value;

pub use access::Access;
pub use access_stage::AccessStage;
pub use access_words::held;
pub use accessed::Accessed;
pub use board_access::{BoardAccess, BoardSwap, BoardUse};
pub use field_access::{FieldAccess, FieldExchange, FieldUse, Role};
pub use laws::{accesses_are_worked_out, accesses_go_on};
pub use mixed_access::MixedAccess;
pub use record_access::{RecordAccess, RecordUse};
pub use stored_value::role_stored;
