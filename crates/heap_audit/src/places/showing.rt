//! Whether registers and the board show a plain state.

ghost use Rattle.std.specs.Prelude.{◌≡◌, ◌<◌, ◌+◌, ◌*◌, ◌↔◌, ℕ, IfSome, IsTrue, Some};
ghost use Rattle.heap_state.specs.Meaning.Represents.{BoardWordShows, LeadsToRecord, RegisterShows, denoted_in_dump};
ghost use Rattle.heap_audit.specs.Firsts.{TellsFirst};
ghost use Rattle.heap_audit.specs.Places.{HasForm};
ghost use Rattle.heap_audit.specs.Showing.{TellsFirstRegister};
ghost use Rattle.heap_audit.specs.Told.{dump_told};
ghost use Rattle.heap_audit.specs.Walks.{AreWalks};

use crate::told_heap::ToldHeap;
use crate::walks::Walks;
use plain_machine::PlainState;
use plain_state::Value;

/// Whether a word denotes this value, and leads to a record in the heap if it is a pointer.
pub fn shows(heap: &ToldHeap, walks: &Walks, word: u64, value: Value) -> bool
    requires { AreWalks (dump_told heap.now) walks.now }
    ensures { IsTrue result ↔ ((denoted_in_dump (dump_told heap.now) word ≡ Some value) × LeadsToRecord (dump_told heap.now) word) }
{
    heap.denoted(word) == Some(value) && walks.leads(heap, word)
}

/// The first register of mutator m that doesn't show the plain one, if the plain mutator has no end.
fn wrong_register_of(heap: &ToldHeap, walks: &Walks, plain: &PlainState, m: u8) -> Option<u8>
    requires walks { AreWalks (dump_told heap.now) walks.now }
    requires form { HasForm (dump_told heap.now) plain.now }
    requires there { m < (dump_told heap.now).mutators }
    ensures first { TellsFirst (λ j. j < 8 → RegisterShows (dump_told heap.now) plain.now m j) result }
    ensures few { IfSome result (λ j. j < 8) }
{
    if plain.ended(m).is_some() {
        return None;
    }
    for (j, value) in plain.registers(m).iter().enumerate() {
        if !shows(heap, walks, heap.registers[m as usize][j], *value) {
            return Some(j as u8);
        }
    }
    None
}

/// The first register that doesn't show the plain one, by mutator.
pub fn wrong_register(heap: &ToldHeap, walks: &Walks, plain: &PlainState) -> Option<(u8, u8)>
    requires walks { AreWalks (dump_told heap.now) walks.now }
    requires form { HasForm (dump_told heap.now) plain.now }
    requires few { (dump_told heap.now).mutators < 256 }
    ensures { TellsFirstRegister (dump_told heap.now) plain.now result }
{
    for m in 0..heap.registers.len() as u8 {
        if let Some(j) = wrong_register_of(heap, walks, plain, m) {
            return Some((m, j));
        }
    }
    None
}

/// The first word of the board that doesn't show the plain one.
pub fn wrong_board_word(heap: &ToldHeap, walks: &Walks, plain: &PlainState) -> Option<u32>
    requires walks { AreWalks (dump_told heap.now) walks.now }
    requires form { HasForm (dump_told heap.now) plain.now }
    ensures first { TellsFirst (λ x. x < 16 → BoardWordShows (dump_told heap.now) plain.now x) result }
    ensures few { IfSome result (λ x. x < 16) }
{
    let board = heap.spaces.first_word(heap.spaces.board_page());
    for (x, value) in plain.board().iter().enumerate() {
        if !shows(heap, walks, heap.word(board + x as u32), *value) {
            return Some(x as u32);
        }
    }
    None
}
