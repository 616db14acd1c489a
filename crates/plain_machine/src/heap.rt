//! The plain heap, which never moves or frees a record.

pub mod checkpoint;
pub mod marks;
pub mod record;
pub mod record_list;

ghost use Rattle.std.specs.Prelude.{◌≡◌, ◌<◌, ◌+◌, [], length, IfOk, IfSome, IsOk, MatchResult, OnOk, OnErr, option_copied, replicate};
ghost use Rattle.plain_state.specs.declared.value.Value.TheVariants.{Number};

use crate::heap::checkpoint::PlainCheckpoint;
use crate::heap::marks::Marks;
use crate::heap::record::PlainRecord;
use crate::heap::record_list::RecordList;
use plain_state::{BOARD_WORDS, End, Identity, Kind, MOST_CHECKPOINTS, NoMemory, Value};
use std::alloc::Global;
use std::marker::Model;

/// The records of each mutator, and the board; how many checkpoints were begun, and the last of these.
/// Contracts see it so.
#[derive(Debug, Drop)]
pub struct PlainHeap {
    records: Vec<RecordList>,
    board: [Value; BOARD_WORDS],
    snaps: u32,
    snapped: PlainCheckpoint,
}

impl Model for PlainHeap {
    ghost use Rattle.std.specs.Prelude.{◌≡◌, length};
    ghost use Rattle.plain_state.specs.declared.sizes.TheConstants.{BOARD_WORDS};
    ghost use Rattle.plain_state.specs.State.{Heap};

    ghost Value = { Heap };

    ghost view = { λ h. record {
      records = h.records.items;
      board = h.board;
      snaps = h.snaps;
      snapped = h.snapped;
    } };

    ghost invariant = { λ h. length h.board ≡ BOARD_WORDS };
}

impl PlainHeap {
    ghost use Rattle.std.specs.Prelude.{false, fold};
    ghost use Rattle.std.specs.List.{list_any};
    ghost use Rattle.std.specs.Option.{option_map_or};
    ghost use Rattle.plain_state.specs.Cells.{is_cell};
    ghost use Rattle.plain_state.specs.State.{none_snapped, record_of, serial_of};
    ghost use Rattle.plain_state.specs.Writing.{stored, with_board, gained, took};
    ghost use Rattle.plain_heap.specs.Emptied.{emptied_cell};
    ghost use Rattle.plain_machine.specs.Search.{lost_cells};
    ghost use Rattle.plain_heap.specs.Call.{values_of, value_in, board_word, store_in, filled};

    /// The heap of so many mutators, none of which has allocated a record.
    pub fn new(alloc: Global, mutators: usize) -> Result<PlainHeap, NoMemory>
        ensures { IfOk result (λ heap. heap ≡ record {
          records = replicate mutators [];
          board = replicate BOARD_WORDS (Number 0);
          snaps = 0;
          snapped = none_snapped;
        }) }
    {
        let mut records = Vec::new(alloc);
        for _mutator in 0..mutators {
            records.push(RecordList::new(alloc))?;
        }
        Ok(PlainHeap {
            records,
            board: [Value::Number(0); BOARD_WORDS],
            snaps: 0,
            snapped: PlainCheckpoint::none(alloc),
        })
    }

    /// The records of each mutator.
    pub fn records(&self) -> &[RecordList]
        ensures { result.now ≡ self.now.records }
    {
        self.records.as_slice()
    }

    /// The words of the board.
    pub fn board(&self) -> &[Value]
        ensures { result.now ≡ self.now.board }
    {
        &self.board
    }

    /// The record with an identity, if it is there.
    pub fn record(&self, i: Identity) -> Option<&PlainRecord>
        ensures { option_copied result ≡ record_of self.now i }
    {
        let records = self.records.get(i.mutator as usize)?;
        records.get(i.serial)
    }

    /// A word of a record, else the end for a word that isn't there.
    pub fn word(&self, i: Identity, x: u64) -> Result<Value, End>
        ensures { result ≡ value_in self.now i x }
    {
        let record = self.record(i).ok_or(End::OutOfRange)?;
        record.word(x).ok_or(End::OutOfRange)
    }

    /// The length of a record.
    pub fn len(&self, i: Identity) -> usize
        ensures { result ≡ length (values_of self.now i) }
    {
        self.record(i).map_or(0, |r| r.len())
    }

    /// A word of the board, or the number 0 for a word that isn't there.
    pub fn board_word(&self, x: u64) -> Value
        ensures { result ≡ board_word self.now x }
    {
        match self.board.get(x as usize) {
            Some(value) => *value,
            None => Value::Number(0),
        }
    }

    /// Puts a value into a word of the board. Where there is no such word, nothing changes.
    pub fn set_board(&mut self, x: u64, value: Value)
        ensures { self.new ≡ with_board self.old x value }
    {
        let x = x as usize;
        if x < self.board.len() {
            self.board[x] = value;
        }
    }

    /// Puts a value into a word of the board, and answers what stood there.
    pub fn swap_board(&mut self, x: u64, value: Value) -> Value
        ensures found { result ≡ board_word self.old x }
        ensures put { self.new ≡ with_board self.old x value }
    {
        let found = self.board_word(x);
        self.set_board(x, value);
        found
    }

    fn set_word(&mut self, i: Identity, x: u64, value: Value)
        ensures { IfSome (record_of self.old i) (λ r. self.new ≡ stored self.old i r x value) }
    {
        if let Some(records) = self.records.get_mut(i.mutator as usize) {
            records.set_word(i.serial, x, value);
        }
    }

    /// Whether a record is a cell.
    fn is_cell(&self, i: Identity) -> bool
        ensures { result ≡ option_map_or (λ r. is_cell r.kind) (record_of self.now i) false }
    {
        self.record(i).is_some_and(|r| r.is_cell())
    }

    /// Empties a cell. If the record is none, nothing changes.
    fn empty(&mut self, i: Identity)
        ensures { self.new ≡ emptied_cell self.old i }
    {
        if self.is_cell(i) {
            self.set_word(i, 0, Value::Number(0));
        }
    }

    /// Empties these cells.
    pub fn empty_all(&mut self, cells: &[Identity])
        ensures { self.new ≡ fold emptied_cell self.old cells.now }
    {
        for cell in cells {
            self.empty(*cell);
        }
    }

    /// Whether there is a cell.
    pub fn has_cells(&self) -> bool
        ensures { result ≡ list_any (list_any (λ r. is_cell r.kind)) self.now.records }
    {
        self.records.iter().any(|list| list.has_cells())
    }

    /// The cells that refer to a record whose mark isn't set.
    pub fn lost_cells(&self, alloc: Global, marks: &Marks) -> Result<Vec<Identity>, NoMemory>
        requires few { length self.now.records < 256 }
        ensures { IfOk result (λ cells. cells.items ≡ lost_cells marks.now self.now) }
    {
        let mut cells = Vec::new(alloc);
        for (m, list) in self.records().iter().enumerate() {
            list.push_lost(m as u8, marks, &mut cells)?;
        }
        Ok(cells)
    }

    /// Whether a record may hold a value in a word, else the end for a value that it may not.
    pub fn admit(&self, i: Identity, x: u64, value: Value) -> Result<(), End>
        ensures { MatchResult result
            (λ _. IsOk (store_in self.now i (record_of self.now i) x value))
            (λ why. store_in self.now i (record_of self.now i) x value ≡ Err why) }
    {
        let record = self.record(i).ok_or(End::OutOfRange)?;
        record.admit(x, value)?;
        Ok(())
    }

    /// Puts a value into a word of a record that may hold it. At an end nothing changes.
    pub fn store(&mut self, i: Identity, x: u64, value: Value) -> Result<(), End>
        ensures outcome { MatchResult result
            (λ _. store_in self.old i (record_of self.old i) x value ≡ Ok self.new)
            (λ why. store_in self.old i (record_of self.old i) x value ≡ Err why) }
        ensures unchanged { OnErr result (self.new ≡ self.old) }
    {
        let record = self.record(i).ok_or(End::OutOfRange)?;
        let value = record.admit(x, value)?;
        self.set_word(i, x, value);
        Ok(())
    }

    /// Begins a checkpoint, which keeps the board and the records. Once there have been the most, or
    /// if memory is out, nothing changes.
    pub fn snap(&mut self, alloc: Global) -> Result<(), NoMemory>
        ensures ok { OnOk result (self.new ≡ took self.old) }
        ensures err { OnErr result (self.new ≡ self.old) }
    {
        if self.snaps == MOST_CHECKPOINTS {
            return Ok(());
        }
        self.snapped = PlainCheckpoint::of(alloc, &self.board, &self.records)?;
        self.snaps += 1;
        Ok(())
    }

    /// Allocates a record for a mutator, each of its words this value.
    pub fn allocate(
        &mut self,
        alloc: Global,
        m: u8,
        kind: Kind,
        len: usize,
        value: Value,
    ) -> Result<Identity, NoMemory>
        requires { m < length self.old.records }
        ensures identity { IfOk result (λ i.
            i ≡ record { mutator = m; serial = serial_of self.old m + 1 }) }
        ensures gained { OnOk result (self.new ≡ gained self.old m (filled kind len value)) }
        ensures unchanged { OnErr result (self.new ≡ self.old) }
    {
        let records = &mut self.records[m as usize];
        records.push(PlainRecord::new(alloc, kind, len, value)?)?;
        Ok(Identity {
            mutator: m,
            serial: records.len() as u64,
        })
    }
}
