/// The page is saved for the checkpoint, or no part of it: its words may be written.
#[derive(Clone, Copy, Debug, PartialEq, Eq)]
pub struct MayWrite;
