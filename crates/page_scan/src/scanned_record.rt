/// A record of which the scan knows where its fields end. All three are addresses.
#[derive(Clone, Copy)]
pub struct ScannedRecord {
    pub at: u32,
    /// The first word behind its fields: those are its words from the first field up to this.
    pub fields_end: u32,
    /// Where the next record begins.
    pub next: u32,
}
