//! What all threads share.

use ael_threads::Shared;
use std::marker::Model;
use std::sync::atomic::AtomicU64;

/// What all threads share: what they wait by, the heap, and how many clerks but the first have left it.
#[derive(Drop)]
pub(crate) struct Job<'a, R> {
    pub rt: &'a R,
    pub heap: &'a Shared,
    pub left: &'a AtomicU64,
    pub others: u64,
}

impl<'a, R> Model for Job<'a, R> {
    ghost use Rattle.concordance.specs.Working.{SharedHeap};

    ghost Value = { SharedHeap };

    ghost view = { λ j. record { table = j.heap.now.table.shared.table_id; plan = j.heap.now.table.shared.key } };
}
