//! The jumps to a label.

ghost use Rattle.std.specs.Prelude.{◌≡◌};
ghost use Rattle.mutator_asm.specs.Instr.{jump_to};

use crate::instr::Instr;

/// A jump, without its target.
#[derive(Clone, Copy)]
pub enum Jump {
    /// `jmp L`.
    Always,
    /// `jz ra L`.
    IfZero(u8),
    /// `jal rd L`.
    Link(u8),
}

impl Jump {
    /// The jump to an instruction.
    pub fn to(self, target: u32) -> Instr
        ensures { result ≡ jump_to self target }
    {
        match self {
            Jump::Always => Instr::Jmp(target),
            Jump::IfZero(a) => Instr::Jz(a, target),
            Jump::Link(d) => Instr::Jal(d, target),
        }
    }
}
