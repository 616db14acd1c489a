//! What the plain machine is made of: values, records, a heap that never moves or frees a record,
//! mutators and their ends. The machine whose heap is collected is measured against it.
#![tactic(auto)]

mod end;
mod kind;
mod no_memory;
mod operation;
mod sizes;
mod value;

pub use end::End;
pub use kind::Kind;
pub use no_memory::NoMemory;
pub use operation::Operation;
pub use sizes::{
    BOARD_WORDS, LAST_WORKER, LONGEST_RECORD, MOST_CHECKPOINTS, MOST_INSTRS, MOST_ITEMS,
    MOST_MUTATORS, MOST_PRINTED, MOST_SCANNERS, NUMBERS, PAGE_WORDS, REGISTERS,
};
pub use value::{Identity, Value};
