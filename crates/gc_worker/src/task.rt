pub mod due;

use mutator_asm::Instr;
use plain_state::End;

/// What a mutator begins when it next looks at the gate.
#[derive(Clone, Copy, Debug)]
pub enum Task {
    Calls(Instr),
    /// An end that stands in place of an instruction.
    Stops(End),
}
