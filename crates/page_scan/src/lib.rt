//! The scan of one page of the to-space, or of the board: what makes a page safe for mutators to see.
//!
//! A copied record still has pointers into the old space. Its page is closed until a worker that has claimed it has looked
//! at each field on the page, and has put in place of each pointer into the old space one to the copy of the record that it
//! leads to. Behind a record's header all words are fields, or none are, by its kind; but behind that of a mixed record stands
//! the count of its fields, then come these, and then plain numbers. So the scan reads the count of each mixed record, and passes
//! over the numbers. Records lie packed and over the ends of pages, so a scan begins with the record that lies over the
//! page's first word, whose address the page's crossing word says. A page that holds FRONT is scanned as the filling page:
//! there is no record at FRONT yet, so the scan ends there.
//!
//! [`Scan`] is a machine: it names its next atomic step and takes the reply, or makes the step itself on plain words. It
//! asks for the copy of a record by the result [`Scanned::Ask`], and goes on when it is answered. [`ScanStage`] lists what
//! it does in turn.
#![tactic(auto)]

mod asked;
mod ending;
mod headed_record;
mod laws;
mod scan;
mod scan_stage;
mod scanned;
mod scanned_record;
mod spot;

pub use asked::Asked;
pub use ending::Ending;
pub use headed_record::HeadedRecord;
pub use laws::{
    each_word_is_looked_at_once, pages_are_scanned, scans_go_on, worked_pages_are_scanned,
};
pub use scan::Scan;
pub use scan_stage::ScanStage;
pub use scanned::Scanned;
pub use scanned_record::ScannedRecord;
pub use spot::Spot;
