/// What the check before an access answers.
#[derive(Clone, Copy, Debug, PartialEq, Eq)]
pub enum Protection {
    Allowed,
    /// The page, which has to be opened first.
    Fault(u32),
}
