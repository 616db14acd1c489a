use crate::spaces::{FEWEST_PAGES, MOST_PAGES};
use thiserror::Error;

/// A space can't have so many pages.
#[derive(Clone, Copy, Debug, PartialEq, Eq, Error)]
#[error("a space has {} to {} pages", FEWEST_PAGES, MOST_PAGES)]
pub struct BadPages;
