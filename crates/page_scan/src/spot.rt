use crate::scanned_record::ScannedRecord;

/// The word at which a scan stands, by its address.
#[derive(Clone, Copy)]
pub enum Spot {
    OnBoard(u32),
    /// A field of a record.
    InRecord(ScannedRecord, u32),
}
