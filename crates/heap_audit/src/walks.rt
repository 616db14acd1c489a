//! The walks over the heap's records.

pub mod stretch;

ghost use Rattle.std.specs.Prelude.{◌≡◌, ◌<◌, ◌++◌, ◌↔◌, ℕ, All, Contains, false, true, IfOk, IsTrue, OnOk, map, slice_index_or};
ghost use Rattle.heap_state.specs.Meaning.Represents.{IsCopying, IsInOrder, IsWalkedSpace, LeadsToRecord};
ghost use Rattle.heap_state.specs.Memory.Walk.{old_walk_in, walk_in};
ghost use Rattle.heap_audit.specs.Breaks.{BreaksNow, BreaksOld};
ghost use Rattle.heap_audit.specs.Firsts.{TellsFirst, least};
ghost use Rattle.heap_audit.specs.Told.{dump_told};
ghost use Rattle.heap_audit.specs.Walks.{AreWalks, BreaksOver, epoch_before, space_walked, walked};

use crate::told_heap::ToldHeap;
use crate::walks::stretch::{Stretch, walk_stretch};
use heap_words::Word;
use plain_state::NoMemory;
use space_map::PAGE_WORDS;
use std::alloc::Global;

/// A record that is walked: where it begins, and of how many words it is.
#[derive(Clone, Copy, Debug)]
pub struct RecordAt {
    pub at: u32,
    pub size: u32,
}

/// What the walks met: the records of the epoch's space, how many these are, and behind them those of the old one; the first place at
/// which a walk breaks; and by address whether a record begins there.
#[derive(Drop)]
pub struct Walks {
    pub records: Vec<RecordAt>,
    pub now: usize,
    pub first_break: Option<u32>,
    pub begins: Vec<bool>,
}

/// The least of two numbers, where there are any.
pub fn least(a: Option<u32>, b: Option<u32>) -> Option<u32>
    ensures { result ≡ least a b }
{
    match (a, b) {
        (None, _) => b,
        (Some(_), None) => a,
        (Some(x), Some(y)) => { if y < x { b } else { a } }
    }
}

/// The epoch before this one, if there is one.
fn epoch_before(epoch: u32) -> Option<u32>
    ensures { result ≡ epoch_before epoch }
{
    if epoch == 0 { None } else { Some(epoch - 1) }
}

/// Adds the records of a space, whose new records lie on the pages that are open in an epoch, if there is one; and tells the first place
/// at which a walk breaks.
fn walk_space(
    heap: &ToldHeap,
    space: u8,
    opened: Option<u32>,
    found: &mut Vec<RecordAt>,
) -> Result<Option<u32>, NoMemory>
    requires one_of_two { space < 2 }
    requires ordered { IsInOrder (dump_told heap.now).table space }
    ensures met { OnOk result (map walked found.new.items ≡ map walked found.old.items ++ space_walked (dump_told heap.now) opened space) }
    ensures breaks { IfOk result (TellsFirst (λ a. BreaksOver (dump_told heap.now) opened space a → ⊥)) }
{
    let extent = heap.extent(space);
    let below = walk_stretch(heap, Stretch::Copies, extent.start, extent.front, found)?;
    let Some(epoch) = opened else {
        return Ok(below);
    };
    let above = walk_stretch(heap, Stretch::New(epoch), extent.low, extent.end, found)?;
    Ok(least(below, above))
}

/// Adds the records of the epoch's space, and tells the first place at which its walk breaks.
fn walk_now(heap: &ToldHeap, found: &mut Vec<RecordAt>) -> Result<Option<u32>, NoMemory>
    requires { (space : ℕ) → IsWalkedSpace (dump_told heap.now).table space → IsInOrder (dump_told heap.now).table space }
    ensures met { OnOk result (map walked found.new.items ≡ map walked found.old.items ++ walk_in (dump_told heap.now).table (dump_told heap.now).kept) }
    ensures breaks { IfOk result (TellsFirst (λ a. BreaksNow (dump_told heap.now) a → ⊥)) }
{
    let epoch = heap.epoch();
    let space = heap.spaces.to_space(epoch);
    walk_space(heap, space, Some(epoch), found)
}

/// The same of the old space, while the epoch is not traced.
fn walk_old(heap: &ToldHeap, found: &mut Vec<RecordAt>) -> Result<Option<u32>, NoMemory>
    requires ordered { (space : ℕ) → IsWalkedSpace (dump_told heap.now).table space → IsInOrder (dump_told heap.now).table space }
    requires copying { IsCopying (dump_told heap.now).table }
    ensures met { OnOk result (map walked found.new.items ≡ map walked found.old.items ++ old_walk_in (dump_told heap.now).table (dump_told heap.now).kept) }
    ensures breaks { IfOk result (TellsFirst (λ a. BreaksOld (dump_told heap.now) a → ⊥)) }
{
    let epoch = heap.epoch();
    let space = 1 - heap.spaces.to_space(epoch);
    walk_space(heap, space, epoch_before(epoch), found)
}

/// By address whether one of these records begins there, for so many addresses.
fn begins(alloc: Global, count: usize, records: &[RecordAt]) -> Result<Vec<bool>, NoMemory>
    requires { All (λ r. r.at < count) records.now }
    ensures { IfOk result (λ begins. (a : ℕ) → (slice_index_or begins.items a false ≡ true) ↔ ((size : ℕ) × Contains (map walked records.now) (record { at = a; size = size }))) }
{
    let mut begins = vec![in alloc; false; count]?;
    for found in records {
        begins[found.at as usize] = true;
    }
    Ok(begins)
}

impl Walks {
    /// The walks over both spaces, or over the epoch's alone once this is traced.
    pub fn of(alloc: Global, heap: &ToldHeap) -> Result<Walks, NoMemory>
        requires ordered { (space : ℕ) → IsWalkedSpace (dump_told heap.now).table space → IsInOrder (dump_told heap.now).table space }
        ensures { IfOk result (AreWalks (dump_told heap.now)) }
    {
        let mut records = Vec::new(alloc);
        let mut first_break = walk_now(heap, &mut records)?;
        let now = records.len();
        if heap.is_copying() {
            let broken = walk_old(heap, &mut records)?;
            first_break = least(first_break, broken);
        }
        let begins = begins(
            alloc,
            2 * (PAGE_WORDS * heap.spaces.pages()) as usize,
            records.as_slice(),
        )?;
        Ok(Walks {
            records,
            now,
            first_break,
            begins,
        })
    }

    /// Whether a word leads to a record in the heap, if it is a pointer.
    pub fn leads(&self, heap: &ToldHeap, word: u64) -> bool
        requires { AreWalks (dump_told heap.now) self.now }
        ensures { IsTrue result ↔ LeadsToRecord (dump_told heap.now) word }
    {
        match Word(word).as_pointer() {
            Some(address) => {
                let address = address as usize;
                let begins = self.begins.as_slice();
                address < begins.len() && begins[address]
            }
            None => true,
        }
    }
}
