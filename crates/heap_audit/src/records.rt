//! What stands in a dump's heap: its records, who made them, and how each is shown.

pub mod cell;
pub mod copied_records;
pub mod owners;
pub mod record;
