//! Marks for the records of a heap.

ghost use Rattle.std.specs.Prelude.{◌≡◌, ◌-◌, IfOk, if◌then◌else◌, replicate, slice_set, true, false};
ghost use Rattle.plain_machine.specs.Search.{is_unset, mark_at, mark_of, no_marks, with_mark};

use crate::heap::record_list::RecordList;
use plain_state::{Identity, NoMemory};
use std::alloc::Global;
use std::marker::Model;

/// A mark for each record of one mutator, by the serials. Contracts see the list.
#[derive(Drop)]
struct MarkList {
    marks: Vec<bool>,
}

impl Model for MarkList {
    ghost use Rattle.std.specs.Prelude.{Bool, List};

    ghost Value = { List Bool };

    ghost view = { λ l. l.marks.items };
}

impl MarkList {
    /// Of so many records none is marked.
    fn new(alloc: Global, len: usize) -> Result<MarkList, NoMemory>
        ensures { IfOk result (λ list. list ≡ replicate len false) }
    {
        let marks = vec![in alloc; false; len]?;
        Ok(MarkList { marks })
    }

    /// The mark of a record, if there is one. Serials count from 1.
    fn get(&self, serial: u64) -> Option<bool>
        ensures { result ≡ mark_at self.now serial }
    {
        let place = serial.checked_sub(1)?;
        self.marks.get(place as usize).copied()
    }

    /// Sets the mark of a record.
    fn set(&mut self, serial: u64)
        ensures { self.new ≡ slice_set self.old (serial - 1) true }
    {
        let place = serial.saturating_sub(1) as usize;
        if let Some(mark) = self.marks.get_mut(place) {
            *mark = true;
        }
    }
}

/// A mark for each record of a heap. Contracts see the lists of marks.
#[derive(Drop)]
pub struct Marks {
    lists: Vec<MarkList>,
}

impl Model for Marks {
    ghost use Rattle.std.specs.Prelude.{Bool, List};

    ghost Value = { List (List Bool) };

    ghost view = { λ m. m.lists.items };
}

impl Marks {
    /// Marks for these records, of which none is set.
    pub fn new(alloc: Global, records: &[RecordList]) -> Result<Marks, NoMemory>
        ensures { IfOk result (λ marks. marks ≡ no_marks records.now) }
    {
        let mut lists = Vec::new(alloc);
        for list in records {
            lists.push(MarkList::new(alloc, list.len())?)?;
        }
        Ok(Marks { lists })
    }

    /// The mark of a record, if there is one.
    pub fn get(&self, i: Identity) -> Option<bool>
        ensures { result ≡ mark_of self.now i }
    {
        let list = self.lists.get(i.mutator as usize)?;
        list.get(i.serial)
    }

    /// Sets the mark of a record, and tells whether it was there and not set.
    pub fn set(&mut self, i: Identity) -> bool
        ensures unset { result ≡ is_unset (mark_of self.old i) }
        ensures marks { self.new ≡ (if is_unset (mark_of self.old i) then with_mark self.old i else self.old) }
    {
        if self.get(i) != Some(false) {
            return false;
        }
        if let Some(list) = self.lists.get_mut(i.mutator as usize) {
            list.set(i.serial);
        }
        true
    }
}
