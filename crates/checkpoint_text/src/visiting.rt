//! The records of the checkpoint, met one after the other from the board on.

ghost use Rattle.std.specs.Prelude.{◌≡◌, ◌+◌, ◌^◌, ◌<◌, IfOk, OnOk, length, slice_get};
ghost use Rattle.space_map.specs.Spaces.{board_page, first_word};
ghost use Rattle.checkpoint_text.specs.Visits.{is_new, met, met_from, unvisited, added, with_record};
ghost use Rattle.checkpoint_text.specs.Reached.{AreReached, AreListed};
ghost use Rattle.checkpoint_text.specs.Words.{saved_heap};

use crate::saved_record::SavedRecord;
use crate::saved_words::SavedWords;
use heap_words::Word;
use plain_state::{BOARD_WORDS, NoMemory};
use std::alloc::Global;
use std::marker::Model;

/// The records that were met, and by address whether one was met there. Contracts see it so.
#[derive(Drop)]
pub struct Visiting {
    visited: Vec<bool>,
    records: Vec<SavedRecord>,
}

impl Model for Visiting {
    ghost use Rattle.checkpoint_text.specs.Visits.{Visited};

    ghost Value = { Visited };

    ghost view = { λ m. record { visited = m.visited.items; records = m.records.items } };
}

impl Visiting {
    /// No record was met, in a heap of so many words.
    fn new(alloc: Global, words: usize) -> Result<Visiting, NoMemory>
        ensures { IfOk result (λ m. m ≡ unvisited words) }
    {
        Ok(Visiting {
            visited: vec![in alloc; false; words]?,
            records: Vec::new(alloc),
        })
    }

    /// Whether the heap has this address, and no record was met there.
    fn is_new(&self, address: u32) -> bool
        ensures { result ≡ is_new self.now.visited address }
    {
        match self.visited.get(address as usize) {
            Some(visited) => !*visited,
            None => false,
        }
    }

    /// Adds a record that was not met.
    fn add(&mut self, found: SavedRecord) -> Result<(), NoMemory>
        requires { found.address < length self.old.visited }
        ensures { OnOk result (self.new ≡ with_record self.old found) }
    {
        self.records.push(found)?;
        self.visited[found.address as usize] = true;
        Ok(())
    }

    /// Meets a word: the record to which it refers is added, if it was not met before.
    fn meet(&mut self, words: &SavedWords, word: u64) -> Result<(), NoMemory>
        ensures { OnOk result (self.new ≡ met (saved_heap words.now) word self.old) }
    {
        let Some(address) = Word(word).as_pointer() else {
            return Ok(());
        };
        let Some(record) = words.record(address) else {
            return Ok(());
        };
        if self.is_new(record.address) {
            self.add(record)?;
        }
        Ok(())
    }

    /// Meets so many words from an address on.
    fn meet_from(&mut self, words: &SavedWords, first: u64, count: u64) -> Result<(), NoMemory>
        requires { first + count < 2 ^ 64 }
        ensures { OnOk result (self.new ≡ met_from (saved_heap words.now) first count self.old) }
    {
        for x in 0..count {
            self.meet(words, words.word(first + x))?;
        }
        Ok(())
    }

    /// The record that was met so many others after.
    fn record(&self, x: usize) -> Option<SavedRecord>
        ensures { result ≡ slice_get self.now.records x }
    {
        self.records.get(x).copied()
    }
}

/// The records to which the board leads, in the order in which they are met.
fn reached(alloc: Global, words: &SavedWords) -> Result<Vec<SavedRecord>, NoMemory>
    ensures { IfOk result (λ records. AreReached (saved_heap words.now) (first_word (board_page words.now.spaces.pages)) records.items) }
{
    let mut visiting = Visiting::new(alloc, words.heap_len())?;
    visiting.meet_from(words, words.board(), BOARD_WORDS as u64)?;
    let mut next = 0;
    while let Some(record) = visiting.record(next) {
        visiting.meet_from(words, record.first_value(), record.field_count())?;
        next += 1;
    }
    Ok(visiting.records)
}

/// The records to which the board leads, by mutator and serial.
pub fn listed(alloc: Global, words: &SavedWords) -> Result<Vec<SavedRecord>, NoMemory>
    ensures { IfOk result (λ records. AreListed (saved_heap words.now) (first_word (board_page words.now.spaces.pages)) records.items) }
{
    let mut records = reached(alloc, words)?;
    records.sort_unstable_by_key(|record| (record.identity.mutator, record.identity.serial));
    Ok(records)
}
