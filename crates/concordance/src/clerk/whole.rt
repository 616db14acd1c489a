//! A clerk that has taken in all others, so that nobody else makes a call.

ghost use Rattle.std.specs.Prelude.{◌≡◌, ◌<◌, ◌↔◌, ℕ, IsTrue};
ghost use Rattle.plain_state.specs.declared.sizes.TheConstants.{REGISTERS};
ghost use Rattle.plain_state.specs.declared.value.Value.TheVariants as values;
ghost use Rattle.mutator_asm.specs.Program.{is_valid};
ghost use Rattle.concordance.specs.Gathering.{CanGet, HasAll, HasGot, register_set, value_got, whole_desk_of, whole_register};

use crate::clerk::Clerk;
use ael_threads::{Did, Reg};
use mutator_asm::Instr;
use std::sync::Wait;

impl<'h> Clerk<'h> {
    /// Its mutator executes an instruction that reads a word of the board, a value of a record or a record's length.
    pub(crate) fn gets<R: Wait>(&mut self, rt: &R, instr: Instr)
        requires all { HasAll self.old }
        requires valid { IsTrue (is_valid instr) }
        requires can { CanGet (whole_desk_of self.old) instr }
        ensures { HasGot self.old (register_set instr) (value_got (whole_desk_of self.old) instr) self.new }
    {
        match self.call(rt, instr) {
            Did::Done => {}
            Did::Trap(_) => unreachable!("its operands are what it asks for"),
        }
    }

    /// Whether a register leads nowhere: it holds 0.
    pub(crate) fn leads_nowhere(&self, register: u8) -> bool
        requires { register < REGISTERS }
        ensures { IsTrue result ↔ (whole_register (whole_desk_of self.now) register ≡ values.Number 0) }
    {
        match self.mutator.reg(register) {
            Reg::Number(n) => n == 0,
            Reg::Pointer(_) => false,
        }
    }

    /// The number that a register holds.
    pub(crate) fn number_in(&self, register: u8) -> u64
        requires register { register < REGISTERS }
        requires number { (n : ℕ) × (whole_register (whole_desk_of self.now) register ≡ values.Number n) }
        ensures { whole_register (whole_desk_of self.now) register ≡ values.Number result }
    {
        match self.mutator.reg(register) {
            Reg::Number(n) => n,
            Reg::Pointer(_) => unreachable!("it holds a number"),
        }
    }
}
