/// The page is open to mutators in its epoch.
#[derive(Clone, Copy, Debug, PartialEq, Eq)]
pub struct Opened;
