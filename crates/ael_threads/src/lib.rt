//! The heap on real threads: each worker has a seat at the words that all share.
//!
//! What a seat knows is kept by a rule of the table of words. The rule rests on the one law of a worker's step, whatever the step is.
//!
//! On a heap with room for checkpoints `snap` begins one. Once the heap is closed its words tell the last of them.
#![tactic(auto)]

mod caller;
mod calls;
mod closing;
mod laws;
mod mutator;
mod opening;
mod pace;
mod programs;
mod rounds;
mod scanner;
mod seats;
mod shared;
mod site;
mod view;
mod words;

pub use calls::ACTS;
pub use gc_worker::{
    Call, Config, Did, Entry, OpenError, Stepped, loads_get_the_last_store,
    records_keep_their_shape, who_is_gone_saw_why,
};
pub use laws::{
    acts_make_calls, board_words_stay, lone_calls_come_to_the_same, unread_boards_share_nothing,
};
pub use mutator::refused::{MOST_RECORDS, Refused};
pub use mutator::{Mutator, Reg};
pub use mutator_asm::{Instr, Operand, Program};
pub use opening::Seats;
pub use pace::{NoPace, Pace};
pub use plain_state::End;
pub use programs::outputs::{Outputs, Printed, RunError};
pub use programs::running::run;
pub use rounds::Round;
pub use scanner::Scanner;
pub use shared::{Rule, Shared};
pub use view::{Hand, Plan, View, WonClaim};
pub use words::Words;
