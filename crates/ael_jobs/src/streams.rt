//! Where bytes come from and go.

pub mod memory;
pub mod reading;
pub mod sink;
pub mod source;
pub mod standard;
pub mod sure;
pub mod writing;
