ghost use Rattle.std.specs.Prelude.{◌≡◌, ◌+◌, ◌-◌, ◌*◌, ◌/◌, ◌<◌, ◌≤◌, ◌↔◌, false, max, length, IsTrue};
ghost use Rattle.space_map.specs.Table.{table_length};
ghost use Rattle.space_map.specs.Spaces.{IsPageCount, past_heaps};
ghost use Rattle.heap_state.specs.Kept.{reserved_in};
ghost use Rattle.heap_state.specs.Memory.Table.{page_word_in, table_of};
ghost use Rattle.heap_state.specs.Memory.Walk.{is_protected};
ghost use Rattle.crossing_map.specs.Crossing.{pairs_kept};
ghost use Rattle.crossing_map.specs.FirstWord.{item_by};
ghost use Rattle.crossing_map.specs.Walking.{next_in, next_walked, nothing_reserved, passes_closed, passes_none};

use crate::area::Area;
use crate::first_word::record_size;
use crate::walked::Walked;
use record_layout::read;
use space_map::{PAGE_WORDS, PageWord, Spaces};

/// What the walk over a space's records comes to next from an address on, in an epoch whose open pages have its new records.
pub fn walk_next(
    spaces: Spaces,
    words: &[u64],
    area: &Area,
    epoch: u32,
    at: u32,
    kept: &[(u64, u64)],
) -> Walked
    requires whole { table_length spaces.pages ≤ length words.now }
    requires low_behind { area.now.front ≤ area.now.low }
    requires end_behind { area.now.low ≤ area.now.end }
    requires in_heap { area.now.end ≤ 128 * spaces.pages }
    requires inside { at ≤ area.now.end }
    ensures { result ≡ next_walked (table_of spaces.pages words.now) (pairs_kept kept.now) epoch area.now at }
{
    match next_copy(spaces, words, area.front, at, kept) {
        Walked::Ended => next_new(spaces, words, area.end, epoch, at.max(area.low)),
        found => found,
    }
}

fn next_copy(spaces: Spaces, words: &[u64], front: u32, at: u32, kept: &[(u64, u64)]) -> Walked
    requires whole { table_length spaces.pages ≤ length words.now }
    requires in_heap { front ≤ 128 * spaces.pages }
    requires inside { at ≤ 128 * spaces.pages }
    ensures { result ≡ next_in (front - at) passes_none (reserved_in (pairs_kept kept.now)) (table_of spaces.pages words.now).heap front at }
{
    spaces.known();
    let mut next = at;
    while next < front {
        let reserved = reserved_size(kept, next);
        if reserved != 0 {
            next += reserved;
            continue;
        }
        let word = words[spaces.word_place(next)];
        if word != 0 {
            return item(word, next, front);
        }
        next = next_page(next);
    }
    Walked::Ended
}

fn next_new(spaces: Spaces, words: &[u64], end: u32, epoch: u32, at: u32) -> Walked
    requires whole { table_length spaces.pages ≤ length words.now }
    requires in_heap { end ≤ 128 * spaces.pages }
    requires inside { at ≤ 128 * spaces.pages }
    ensures { result ≡ next_in (end - at) (passes_closed (table_of spaces.pages words.now) epoch) nothing_reserved (table_of spaces.pages words.now).heap end at }
{
    spaces.known();
    let mut next = at;
    while next < end {
        let word = words[spaces.word_place(next)];
        if word != 0 && is_open(words[spaces.page_place(spaces.page_of(next))], epoch) {
            return item(word, next, end);
        }
        next = next_page(next);
    }
    Walked::Ended
}

/// The record whose first word stands at this address, if it ends before `end` or there.
fn item(word: u64, at: u32, end: u32) -> Walked
    requires { at < 2 * past_heaps }
    ensures { result ≡ item_by word at end }
{
    match record_size(word) {
        Some(size) if at + size <= end => Walked::Record { at, size },
        _ => Walked::Broken { at },
    }
}

/// The size of the place at this address that is reserved for a record whose header is kept, or 0.
fn reserved_size(kept: &[(u64, u64)], at: u32) -> u32
    ensures size { result ≡ reserved_in (pairs_kept kept.now) at }
    ensures short { result ≤ 4096 }
{
    for (header, place) in kept {
        if *place == u64::from(at) + 1 {
            if let Some(header) = read(*header) {
                return u32::from(header.len) + 1;
            }
        }
    }
    0
}

fn is_open(word: u64, epoch: u32) -> bool
    ensures { IsTrue result ↔ (is_protected epoch (page_word_in word) ≡ false) }
{
    match PageWord::read(word) {
        Some(PageWord::Open(opened)) => opened == epoch,
        _ => false,
    }
}

fn next_page(at: u32) -> u32
    requires { at < 2 * past_heaps }
    ensures { result ≡ 64 * (at / 64 + 1) }
{
    PAGE_WORDS * (at / PAGE_WORDS + 1)
}
