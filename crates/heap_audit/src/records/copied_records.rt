//! The records that were copied in a dump's epoch.

ghost use Rattle.std.specs.Prelude.{◌≡◌, ◌<◌, ◌≤◌, ◌^◌, ◌↔◌, ℕ, IfOk, IsTrue, map, nat_eq};
ghost use Rattle.std.specs.HashSet.{contains};
ghost use Rattle.plain_state.specs.declared.value.Identity.{Identity};
ghost use Rattle.heap_state.specs.Meaning.Represents.{IsInOrder, IsWalkedSpace};
ghost use Rattle.heap_audit.specs.Copied.{AreCopied, IsCopyAmong, header_copied};
ghost use Rattle.heap_audit.specs.Records.{key_of};
ghost use Rattle.heap_audit.specs.Told.{dump_told};
ghost use Rattle.heap_audit.specs.Walks.{AreWalks, walked};

use crate::records::owners::{key, number_of};
use crate::told_heap::{Extent, ToldHeap};
use crate::walks::{RecordAt, Walks};
use plain_state::{Identity, NoMemory};
use record_layout::{Header, read};
use std::alloc::Global;
use std::collections::HashSet;

/// The records that were copied: they lie from `start` to `front`; and if a cell may have been emptied, the numbers of the identities that
/// the headers in their places name.
#[derive(Drop)]
pub struct CopiedRecords {
    pub start: u32,
    pub front: u32,
    pub named: HashSet<u64>,
}

/// The header in its place of a record at an address, if it was copied.
fn copied_header(heap: &ToldHeap, copies: Extent, at: u32) -> Option<Header>
    ensures { result ≡ header_copied (dump_told heap.now) copies at }
{
    if copies.start <= at && at < copies.front {
        read(heap.word(at))
    } else {
        None
    }
}

/// The numbers of the identities of those that were copied among these records.
fn names(
    alloc: Global,
    heap: &ToldHeap,
    copies: Extent,
    records: &[RecordAt],
) -> Result<HashSet<u64>, NoMemory>
    ensures { IfOk result (λ named. (i : Identity) → i.serial < 2 ^ 40
        → IsTrue (contains nat_eq named (key_of i)) ↔ IsCopyAmong (dump_told heap.now) copies (map walked records.now) i) }
{
    let mut named = HashSet::new(alloc);
    for found in records {
        if let Some(header) = copied_header(heap, copies, found.at) {
            named.insert(key(&header))?;
        }
    }
    Ok(named)
}

impl CopiedRecords {
    /// Those of a dump's heap.
    pub fn of(alloc: Global, heap: &ToldHeap, walks: &Walks) -> Result<CopiedRecords, NoMemory>
        requires walks { AreWalks (dump_told heap.now) walks.now }
        requires ordered { (space : ℕ) → IsWalkedSpace (dump_told heap.now).table space → IsInOrder (dump_told heap.now).table space }
        ensures { IfOk result (AreCopied (dump_told heap.now)) }
    {
        let copies = heap.extent(heap.spaces.to_space(heap.epoch()));
        let named = if heap.may_have_emptied() {
            names(alloc, heap, copies, walks.records.as_slice())?
        } else {
            HashSet::new(alloc)
        };
        Ok(CopiedRecords {
            start: copies.start,
            front: copies.front,
            named,
        })
    }

    /// Whether a record that begins there was copied.
    pub fn lie_over(&self, at: u32) -> bool
        ensures { IsTrue result ↔ ((self.now.start ≤ at) × (at < self.now.front)) }
    {
        self.start <= at && at < self.front
    }

    /// Whether one of them has this identity.
    pub fn have(&self, identity: Identity) -> bool
        ensures { IsTrue result ↔ ((identity.serial < 2 ^ 40) × IsTrue (contains nat_eq self.now.named (key_of identity))) }
    {
        identity.serial < 1 << 40 && self.named.contains(&number_of(identity))
    }
}
