//! What a history has. No value of these types is made.

pub mod call;
pub mod did;
pub mod entry;
