//! Whether a cell's target shows the value of the plain cell.

ghost use Rattle.std.specs.Prelude.{◌*◌, ◌<◌, ◌↔◌, IsTrue};
ghost use Rattle.space_map.specs.Spaces.{past_heaps};
ghost use Rattle.heap_state.specs.Meaning.Represents.{IsEmptied, IsInHeap};
ghost use Rattle.heap_audit.specs.Copied.{AreCopied};
ghost use Rattle.heap_audit.specs.Records.{TargetShows};
ghost use Rattle.heap_audit.specs.Told.{dump_told};
ghost use Rattle.heap_audit.specs.Walks.{AreWalks, walked};

use crate::records::copied_records::CopiedRecords;
use crate::told_heap::ToldHeap;
use crate::walks::{RecordAt, Walks};
use heap_words::Word;
use plain_machine::PlainRecord;
use plain_state::Value;

/// Whether the walk over the chain of copied cells may have emptied a cell whose plain value this is.
fn is_emptied(heap: &ToldHeap, copied: &CopiedRecords, found: RecordAt, value: Value) -> bool
    requires copied { AreCopied (dump_told heap.now) copied.now }
    requires walked { IsInHeap (dump_told heap.now) (walked found) }
    requires low { found.at < 2 * past_heaps }
    ensures { IsTrue result ↔ IsEmptied (dump_told heap.now) (walked found) value }
{
    let Value::Reference(identity) = value else {
        return false;
    };
    let is_empty = Word(heap.word(found.at + 1)).as_number() == Some(0);
    is_empty && heap.may_have_emptied() && copied.lie_over(found.at) && !copied.have(identity)
}

/// Whether a record's word 1 shows the target of a plain record, if this is a cell.
pub fn target_shows(
    heap: &ToldHeap,
    walks: &Walks,
    copied: &CopiedRecords,
    wanted: &PlainRecord,
    found: RecordAt,
) -> bool
    requires walks { AreWalks (dump_told heap.now) walks.now }
    requires copied { AreCopied (dump_told heap.now) copied.now }
    requires walked { IsInHeap (dump_told heap.now) (walked found) }
    requires low { found.at < 2 * past_heaps }
    ensures { IsTrue result ↔ TargetShows (dump_told heap.now) wanted.now (walked found) }
{
    if !wanted.is_cell() {
        return true;
    }
    let word = heap.word(found.at + 1);
    if !walks.leads(heap, word) {
        return false;
    }
    match wanted.target() {
        Some(value) => heap.denoted(word) == Some(value) || is_emptied(heap, copied, found, value),
        None => true,
    }
}
