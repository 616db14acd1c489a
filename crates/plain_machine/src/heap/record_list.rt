//! The records that a mutator has allocated.

ghost use Rattle.plain_machine.specs.Search.{is_lost};
ghost use Rattle.std.specs.Prelude.{◌≡◌, ◌<◌, ◌+◌, ◌-◌, ◌^◌, [], ◌∷◌, ◌++◌, length, IfOk, IfSome, OnOk, OnErr, option_copied, slice_set};

use crate::heap::marks::Marks;
use crate::heap::record::PlainRecord;
use plain_state::{Identity, NoMemory, Value};
use std::alloc::Global;
use std::marker::Model;

/// The records of one mutator by their serials. Contracts see the list.
#[derive(Debug, Drop)]
pub struct RecordList {
    records: Vec<PlainRecord>,
}

impl Model for RecordList {
    ghost use Rattle.std.specs.Prelude.{List};
    ghost use Rattle.plain_state.specs.State.{Record};

    ghost Value = { List Record };

    ghost view = { λ m. m.records.items };
}

impl RecordList {
    ghost use Rattle.std.specs.List.{list_any};
    ghost use Rattle.plain_state.specs.Cells.{is_cell};
    ghost use Rattle.plain_state.specs.State.{at_serial};
    ghost use Rattle.plain_state.specs.Writing.{with_value};
    ghost use Rattle.plain_machine.specs.Search.{lost_among};

    pub fn new(alloc: Global) -> RecordList
        ensures { result ≡ [] }
    {
        RecordList {
            records: Vec::new(alloc),
        }
    }

    /// The same records once more.
    pub fn copy(&self, alloc: Global) -> Result<RecordList, NoMemory>
        ensures { IfOk result (λ list. list ≡ self.now) }
    {
        let mut records = Vec::new(alloc);
        for record in &self.records {
            records.push(record.copy(alloc)?)?;
        }
        Ok(RecordList { records })
    }

    pub fn len(&self) -> usize
        ensures exact { result ≡ length self.now }
        ensures small { result + 1 < 2 ^ 64 }
    {
        self.records.len()
    }

    /// The records in the order of their serials.
    pub fn as_slice(&self) -> &[PlainRecord]
        ensures { result.now ≡ self.now }
    {
        self.records.as_slice()
    }

    /// The record with a serial. Serials count from 1.
    pub fn get(&self, serial: u64) -> Option<&PlainRecord>
        ensures { option_copied result ≡ at_serial self.now serial }
    {
        let place = serial.checked_sub(1)?;
        self.records.get(place as usize)
    }

    /// Whether one is a cell.
    pub fn has_cells(&self) -> bool
        ensures { result ≡ list_any (λ r. is_cell r.kind) self.now }
    {
        self.records.iter().any(|record| record.is_cell())
    }

    /// Adds the cells that refer to a record whose mark isn't set; these are the records of mutator m.
    pub fn push_lost(&self, m: u8, marks: &Marks, cells: &mut Vec<Identity>) -> Result<(), NoMemory>
        ensures { OnOk result (cells.new.items ≡ cells.old.items ++ lost_among marks.now m self.now) }
    {
        for (place, record) in self.as_slice().iter().enumerate() {
            if is_lost(record, marks) {
                cells.push(Identity {
                    mutator: m,
                    serial: place as u64 + 1,
                })?;
            }
        }
        Ok(())
    }

    /// Adds a record. Where memory is out, nothing changes.
    pub fn push(&mut self, newest: PlainRecord) -> Result<(), NoMemory>
        ensures ok { OnOk result (self.new ≡ self.old ++ newest ∷ []) }
        ensures err { OnErr result (self.new ≡ self.old) }
    {
        self.records.push(newest)?;
        Ok(())
    }

    /// Puts a value into a word of the record with a serial.
    pub fn set_word(&mut self, serial: u64, x: u64, value: Value)
        ensures { IfSome (at_serial self.old serial) (λ r.
            self.new ≡ slice_set self.old (serial - 1) (with_value r x value)) }
    {
        let Some(place) = serial.checked_sub(1) else {
            return;
        };
        if let Some(record) = self.records.get_mut(place as usize) {
            record.set_word(x, value);
        }
    }
}

/// Whether the record is a cell that refers to a record whose mark isn't set.
fn is_lost(content: &PlainRecord, marks: &Marks) -> bool
    ensures { result ≡ is_lost marks.now content.now }
{
    match content.target() {
        Some(Value::Reference(target)) => marks.get(target) == Some(false),
        _ => false,
    }
}
