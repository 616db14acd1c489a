//! Which record has a header with an identity.

ghost use Rattle.std.specs.Prelude.{◌≡◌, ◌<◌, ◌^◌, IfOk, Some, map, nat_eq};
ghost use Rattle.std.specs.HashMap.{get};
ghost use Rattle.plain_state.specs.declared.value.Identity.{Identity};
ghost use Rattle.heap_audit.specs.Firsts.{TellsFirst, least};
ghost use Rattle.heap_audit.specs.Records.{NoneOwned, key_of};
ghost use Rattle.heap_audit.specs.Told.{dump_told};
ghost use Rattle.heap_audit.specs.Walks.{walked};

use crate::told_heap::{ToldHeap, identity_of};
use crate::walks::RecordAt;
use plain_state::{Identity, NoMemory};
use record_layout::Header;
use std::alloc::Global;
use std::collections::HashMap;

/// The number of an identity.
pub fn number_of(identity: Identity) -> u64
    requires { identity.serial < 2 ^ 40 }
    ensures { result ≡ key_of identity }
{
    u64::from(identity.mutator) * (1 << 40) + identity.serial
}

/// The number of a header's identity.
pub fn key(header: &Header) -> u64
    ensures { result ≡ key_of (record { mutator = header.now.mutator; serial = header.now.serial }) }
{
    number_of(identity_of(header))
}

/// The lesser of an address and the one before, if there is one.
fn nearer(before: Option<u32>, at: u32) -> u32
    ensures { Some result ≡ least before (Some at) }
{
    match before {
        None => at,
        Some(before) => { if at < before { at } else { before } }
    }
}

/// By the number of an identity, the least address at which a record has a header of its own with that identity.
#[derive(Drop)]
pub struct Owners {
    pub first: HashMap<u64, u32>,
}

impl Owners {
    /// Those among these records.
    pub fn of(alloc: Global, heap: &ToldHeap, records: &[RecordAt]) -> Result<Owners, NoMemory>
        ensures { IfOk result (λ owners. (i : Identity) → i.serial < 2 ^ 40
            → TellsFirst (NoneOwned (dump_told heap.now) (map walked records.now) i) (get nat_eq owners.first (key_of i))) }
    {
        let mut first = HashMap::new(alloc);
        for found in records {
            if let Some(header) = heap.own_header(heap.word(found.at)) {
                let key = key(&header);
                let before = first.get(&key).copied();
                first.insert(key, nearer(before, found.at))?;
            }
        }
        Ok(Owners { first })
    }

    /// The least address for a header's identity.
    pub fn first(&self, header: &Header) -> Option<u32>
        ensures { result ≡ get nat_eq self.now.first (key_of (record { mutator = header.now.mutator; serial = header.now.serial })) }
    {
        self.first.get(&key(header)).copied()
    }
}
