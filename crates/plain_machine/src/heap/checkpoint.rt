//! The checkpoint that is kept.

ghost use Rattle.std.specs.Prelude.{◌≡◌, IfOk};

use crate::heap::record_list::RecordList;
use plain_state::{NoMemory, Value};
use std::alloc::Global;
use std::marker::Model;

/// The board and the records of each mutator, as they were when the checkpoint began. Contracts see it so.
#[derive(Debug, Drop)]
pub struct PlainCheckpoint {
    board: Vec<Value>,
    records: Vec<RecordList>,
}

impl Model for PlainCheckpoint {
    ghost use Rattle.plain_state.specs.State.{Snapped};

    ghost Value = { Snapped };

    ghost view = { λ c. record { board = c.board.items; records = c.records.items } };
}

impl PlainCheckpoint {
    ghost use Rattle.plain_state.specs.State.{none_snapped};

    /// What is kept before the first checkpoint.
    pub fn none(alloc: Global) -> PlainCheckpoint
        ensures { result ≡ none_snapped }
    {
        PlainCheckpoint {
            board: Vec::new(alloc),
            records: Vec::new(alloc),
        }
    }

    /// The checkpoint that keeps this board and these records.
    pub fn of(
        alloc: Global,
        board: &[Value],
        records: &[RecordList],
    ) -> Result<PlainCheckpoint, NoMemory>
        ensures { IfOk result (λ c. c ≡ record { board = board.now; records = records.now }) }
    {
        let mut kept = Vec::new(alloc);
        for list in records {
            kept.push(list.copy(alloc)?)?;
        }
        Ok(PlainCheckpoint {
            board: board.to_vec(alloc)?,
            records: kept,
        })
    }
}
