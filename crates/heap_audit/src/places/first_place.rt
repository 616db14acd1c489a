//! The first place of a dump that doesn't show a plain state.

ghost use Rattle.std.specs.Prelude.{◌*◌, ◌<◌, IfOk, IfSome, None};
ghost use Rattle.space_map.specs.Spaces.{past_heaps};
ghost use Rattle.heap_audit.specs.Copied.{AreCopied};
ghost use Rattle.heap_audit.specs.Firsts.{TellsFirst};
ghost use Rattle.heap_audit.specs.Places.{HasForm, IsShort, TellsFirstUnseen, TellsFirstWrongSpace, TellsSpace, WordSeen};
ghost use Rattle.heap_audit.specs.Records.{OwnersOfHeap};
ghost use Rattle.heap_audit.specs.Told.{dump_told};
ghost use Rattle.heap_audit.specs.Walks.{AreWalks};

use crate::places::place::Place;
use crate::places::showing::{wrong_board_word, wrong_register};
use crate::records::copied_records::CopiedRecords;
use crate::records::owners::Owners;
use crate::records::record::wrong_word;
use crate::told_heap::ToldHeap;
use crate::walks::{Walks, least};
use plain_machine::PlainState;
use plain_state::NoMemory;
use space_map::PAGE_WORDS;
use std::alloc::Global;

/// The first place of a space that isn't in order, if the space is walked.
fn wrong_in_space(heap: &ToldHeap, space: u8) -> Option<Place>
    requires { space < 2 }
    ensures { TellsSpace (dump_told heap.now) space result }
{
    if !heap.is_walked(space) {
        return None;
    }
    let size = heap.size(space);
    if size > u64::from(heap.spaces.pages()) {
        return Some(Place::Size(space));
    }
    let (front, low) = (heap.front(space), heap.low(space));
    if front > low || u64::from(low) > u64::from(PAGE_WORDS) * size {
        return Some(Place::Area(space));
    }
    None
}

/// The first place at which a space that is walked isn't in order.
fn wrong_space(heap: &ToldHeap) -> Option<Place>
    ensures { TellsFirstWrongSpace (dump_told heap.now) result }
{
    match wrong_in_space(heap, 0) {
        Some(place) => Some(place),
        None => wrong_in_space(heap, 1),
    }
}

/// The first word of the heap at which a walk breaks, or by which a record doesn't show what it should.
fn wrong_heap_word(
    heap: &ToldHeap,
    walks: &Walks,
    owners: &Owners,
    copied: &CopiedRecords,
    plain: &PlainState,
) -> Option<u32>
    requires walks { AreWalks (dump_told heap.now) walks.now }
    requires owners { OwnersOfHeap (dump_told heap.now) owners.now }
    requires copied { AreCopied (dump_told heap.now) copied.now }
    requires ordered { TellsFirstWrongSpace (dump_told heap.now) None }
    ensures first { TellsFirst (WordSeen (dump_told heap.now) plain.now) result }
    ensures short { IfSome result (λ a. a < 2 * past_heaps) }
{
    let mut first = walks.first_break;
    for (i, found) in walks.records.iter().enumerate() {
        if let Some(x) = wrong_word(heap, walks, owners, copied, plain, *found, i < walks.now) {
            first = least(first, Some(found.at + x));
        }
    }
    first
}

/// The first place of a dump at which it doesn't show what it should of a plain state; none if it represents that.
pub fn first_place(
    alloc: Global,
    heap: &ToldHeap,
    plain: &PlainState,
) -> Result<Option<Place>, NoMemory>
    requires form { HasForm (dump_told heap.now) plain.now }
    requires few { (dump_told heap.now).mutators < 256 }
    ensures first { IfOk result (TellsFirstUnseen (dump_told heap.now) plain.now) }
    ensures short { IfOk result (λ r. IfSome r IsShort) }
{
    if let Some(place) = wrong_space(heap) {
        return Ok(Some(place));
    }
    let walks = Walks::of(alloc, heap)?;
    if let Some((m, j)) = wrong_register(heap, &walks, plain) {
        return Ok(Some(Place::Register(m, j)));
    }
    if let Some(x) = wrong_board_word(heap, &walks, plain) {
        return Ok(Some(Place::Board(x)));
    }
    let owners = Owners::of(alloc, heap, walks.records.as_slice())?;
    let copied = CopiedRecords::of(alloc, heap, &walks)?;
    Ok(wrong_heap_word(heap, &walks, &owners, &copied, plain).map(Place::Word))
}
