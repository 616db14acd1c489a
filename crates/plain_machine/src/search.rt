//! The search for what is reachable.

ghost use Rattle.std.specs.Prelude.{◌≡◌, [], ◌∷◌, ◌++◌, fold, IfOk, MatchOption, OnOk};
ghost use Rattle.plain_heap.specs.Reaching.{fields_at, fields_of, held_by, roots};
ghost use Rattle.plain_machine.specs.Search.{AreOfReachable, followed};

use crate::heap::PlainHeap;
use crate::heap::marks::Marks;
use crate::heap::record::PlainRecord;
use crate::mutator::PlainMutator;
use plain_state::{Identity, NoMemory, Value};
use std::alloc::Global;
use std::marker::Model;

/// The records that are found, by their marks, and those of them whose fields are still to be followed. Contracts see it so.
#[derive(Drop)]
struct Search {
    marks: Marks,
    work: Vec<Identity>,
}

impl Model for Search {
    ghost use Rattle.plain_machine.specs.Search.{Search};

    ghost Value = { Search };

    ghost view = { λ s. record { marks = s.marks; work = s.work.items } };
}

impl Search {
    /// Finds the record to which a value refers.
    fn follow(&mut self, value: Value) -> Result<(), NoMemory>
        ensures { OnOk result (self.new ≡ followed self.old value) }
    {
        let Value::Reference(identity) = value else {
            return Ok(());
        };
        if self.marks.set(identity) {
            self.work.push(identity)?;
        }
        Ok(())
    }

    /// Finds the records to which these values refer.
    fn follow_all(&mut self, values: &[Value]) -> Result<(), NoMemory>
        ensures { OnOk result (self.new ≡ fold followed self.old values.now) }
    {
        for value in values {
            self.follow(*value)?;
        }
        Ok(())
    }

    /// Finds those to which the registers of a mutator refer, if it has no end.
    fn follow_registers(&mut self, mutator: &PlainMutator) -> Result<(), NoMemory>
        ensures { OnOk result (self.new ≡ fold followed self.old (held_by mutator.now)) }
    {
        if mutator.end().is_some() {
            return Ok(());
        }
        self.follow_all(mutator.registers())
    }

    /// Finds those to which the board and the registers refer.
    fn follow_roots(&mut self, heap: &PlainHeap, mutators: &[PlainMutator]) -> Result<(), NoMemory>
        ensures { OnOk result (self.new
            ≡ fold followed self.old (roots (record { heap = heap.now; mutators = mutators.now }))) }
    {
        self.follow_all(heap.board())?;
        for mutator in mutators {
            self.follow_registers(mutator)?;
        }
        Ok(())
    }

    /// Finds those to which the fields of a record refer.
    fn follow_fields(&mut self, content: &PlainRecord) -> Result<(), NoMemory>
        ensures { OnOk result (self.new ≡ fold followed self.old (fields_of content.now)) }
    {
        for (x, value) in content.values().iter().enumerate() {
            if content.is_field(x) {
                self.follow(*value)?;
            }
        }
        Ok(())
    }

    /// Finds those to which the fields of the record with an identity refer.
    fn follow_record(&mut self, heap: &PlainHeap, i: Identity) -> Result<(), NoMemory>
        ensures { OnOk result (self.new ≡ fold followed self.old (fields_at heap.now i)) }
    {
        match heap.record(i) {
            Some(record) => self.follow_fields(record),
            None => Ok(()),
        }
    }

    /// A record whose fields are still to be followed, if there is one.
    fn next(&mut self) -> Option<Identity>
        ensures work { MatchOption result (self.old.work ≡ [])
            (λ i. self.old.work ≡ self.new.work ++ i ∷ []) }
        ensures marks { self.new.marks ≡ self.old.marks }
    {
        self.work.pop()
    }
}

/// Marks for the records of a heap, set for those that are reachable.
pub fn mark_reachable(
    alloc: Global,
    heap: &PlainHeap,
    mutators: &[PlainMutator],
) -> Result<Marks, NoMemory>
    ensures { IfOk result (AreOfReachable (record { heap = heap.now; mutators = mutators.now })) }
{
    let mut search = Search {
        marks: Marks::new(alloc, heap.records())?,
        work: Vec::new(alloc),
    };
    search.follow_roots(heap, mutators)?;
    while let Some(identity) = search.next() {
        search.follow_record(heap, identity)?;
    }
    Ok(search.marks)
}
