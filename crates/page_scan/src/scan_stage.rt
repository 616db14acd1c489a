use crate::asked::Asked;
use crate::ending::Ending;
use crate::headed_record::HeadedRecord;
use crate::scanned_record::ScannedRecord;
use crate::spot::Spot;

/// What the machine does next.
#[derive(Clone, Copy)]
pub enum ScanStage {
    /// Loads the page's crossing word.
    LoadsCross,
    /// Loads the first word of the record at this address, which lies over the page's first word.
    LoadsFirst(u32),
    /// Loads the number of fields of this mixed record.
    LoadsCount(HeadedRecord),
    /// Loads a word of the board, or a field.
    LoadsWord(Spot),
    /// Waits for the answer to what it asked.
    Asks(Asked),
    /// Stores the pointer to the copy, which is at this address, in place of the one that it asked about.
    StoresCopy(Asked, u32),
    /// Loads the area, since the place behind this record may be FRONT.
    LoadsFront(ScannedRecord),
    /// Loads the first word of the record behind this one.
    LoadsNext(ScannedRecord),
    /// Has no next step.
    Ended(Ending),
}
