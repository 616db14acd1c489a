//! The walk over one part of a space.

ghost use Rattle.std.specs.Prelude.{◌≡◌, ◌<◌, ◌≤◌, ◌*◌, ◌-◌, ◌++◌, IfOk, IfSome, OnOk, map};
ghost use Rattle.crossing_map.specs.Walking.{next_in};
ghost use Rattle.heap_audit.specs.Told.{dump_told};
ghost use Rattle.heap_audit.specs.Walks.{break_on, passes_on, reserved_on, walk_on, walked};

use crate::told_heap::ToldHeap;
use crate::walks::RecordAt;
use crossing_map::{Area, Walked, record_size, walk_next};
use plain_state::NoMemory;

/// A part of a space: its copies, or its new records, which lie on pages that are open in an epoch.
#[derive(Clone, Copy)]
pub enum Stretch {
    Copies,
    New(u32),
}

/// What a walk to `end` comes to next.
fn next(heap: &ToldHeap, stretch: Stretch, end: u32, at: u32) -> Walked
    requires in_heap { end ≤ 128 * heap.now.spaces.pages }
    requires inside { at ≤ end }
    ensures { result ≡ next_in (end - at) (passes_on (dump_told heap.now).table stretch) (reserved_on (dump_told heap.now).kept stretch) (dump_told heap.now).table.heap end at }
{
    match stretch {
        Stretch::Copies => {
            let copies = Area {
                front: end,
                low: end,
                end,
            };
            walk_next(heap.spaces, heap.words, &copies, 0, at, heap.kept)
        }
        Stretch::New(epoch) => {
            let new = Area {
                front: at,
                low: at,
                end,
            };
            walk_next(heap.spaces, heap.words, &new, epoch, at, heap.kept)
        }
    }
}

/// Adds the records that a walk meets, and tells where it breaks.
pub fn walk_stretch(
    heap: &ToldHeap,
    stretch: Stretch,
    from: u32,
    end: u32,
    found: &mut Vec<RecordAt>,
) -> Result<Option<u32>, NoMemory>
    requires in_heap { end ≤ 128 * heap.now.spaces.pages }
    requires inside { from ≤ end }
    ensures met { OnOk result (map walked found.new.items ≡ map walked found.old.items ++ walk_on (dump_told heap.now) stretch from end) }
    ensures within { IfOk result (λ place. IfSome place (λ a. a < end)) }
    ensures breaks { IfOk result (λ place. place ≡ break_on (dump_told heap.now) stretch from end) }
{
    let mut at = from;
    while at < end {
        match next(heap, stretch, end, at) {
            Walked::Record { at: place, size } => {
                found.push(RecordAt { at: place, size })?;
                at = place + size;
            }
            Walked::Ended => return Ok(None),
            Walked::Broken { at: place } => {
                if let Some(size) = record_size(heap.word(place)) {
                    found.push(RecordAt { at: place, size })?;
                }
                return Ok(Some(place));
            }
        }
    }
    Ok(None)
}
