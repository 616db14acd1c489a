/// What a page's word says to a round of an epoch.
#[derive(Clone, Copy, PartialEq, Eq)]
pub enum PageState {
    /// The page is open in this epoch.
    Opened,
    /// A worker scans it in this epoch.
    Scanned,
    /// It was opened or scanned in an earlier epoch only, or never.
    Waits,
    /// It was opened or scanned in a later epoch.
    Past,
}
