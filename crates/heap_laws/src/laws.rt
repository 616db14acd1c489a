//! The laws, by what the steps do.

pub mod allocating;
pub mod answers;
pub mod cells;
pub mod composing;
pub mod copying;
pub mod fields;
pub mod flipping;
pub mod gating;
pub mod lifting;
pub mod opening;
pub mod saving;
pub mod scanning;
pub mod targets;
pub mod tracing;
pub mod walking;
