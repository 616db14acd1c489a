//! The first place at which a dump shows anything else than the plain state.

pub mod first_place;
pub mod place;
pub mod showing;
