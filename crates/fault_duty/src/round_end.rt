/// What a round comes to.
#[derive(Clone, Copy)]
pub enum RoundEnd {
    /// This page is claimed: it is to be scanned, and opened.
    ScanPage(u32),
    /// This page is claimed as the filling one: it is to be scanned up to FRONT, and opened.
    ScanInPlace(u32),
    /// All is scanned, and TRACED says so now.
    Marked,
    /// The epoch is traced already: TRACED said so.
    Traced,
    /// All mutators have left, as this word of the gate says.
    AllLeft(u64),
    /// There is nothing to do now, as this word shows.
    NothingNow(u64),
}
