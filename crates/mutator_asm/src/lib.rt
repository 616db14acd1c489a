//! The programs of mutators: their instructions and schedules; and as definitions, which program a text means, and the listing of each.
#![tactic(auto)]

mod code;
mod instr;
mod item;
mod jump;
mod laws;
mod mistake;
mod operand;
mod program;
mod schedule;
mod section;
mod spelling;
mod validity;

pub use code::Code;
pub use instr::Instr;
pub use item::{Item, TIMES_MAX};
pub use jump::Jump;
pub use laws::{fetched_instr, never_both, one_fault, one_program, some_reading};
pub use mistake::Mistake;
pub use operand::Operand;
pub use plain_state::NoMemory;
pub use program::Program;
pub use schedule::Schedule;
pub use section::Section;
