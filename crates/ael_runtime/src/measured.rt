//! The length that is known of a record, so that it need not be looked at each time.

ghost use Rattle.std.specs.Prelude.{◌≡◌, ℕ, true};
ghost use Rattle.mutator_asm.specs.declared.instr.Instr.TheVariants.{Ld};
ghost use Rattle.mutator_asm.specs.declared.operand.Operand.{Operand};
ghost use Rattle.gc_worker.specs.declared.calls.did.Did.TheVariants.{Done};
ghost use Rattle.ael_runtime.specs.KnownLengths.{StaysKnown, SparesRegister};

use ael_threads::Did;
use mutator_asm::Instr;

/// A register, and how many words its record has at least.
#[derive(Clone, Copy)]
pub(crate) struct Measured {
    pub register: u8,
    pub len: u64,
}

/// Whether an instruction is known to leave what this register holds. After any other one the length is looked up anew.
fn spares(instr: Instr, register: u8) -> bool
    ensures { result ≡ true → SparesRegister instr register }
{
    match instr {
        Instr::Li(to, _) | Instr::Mov(to, _) | Instr::Ld(to, _, _) => to != register,
        Instr::St(..) => true,
        _ => false,
    }
}

/// What is still known after a call.
pub(crate) fn known_after(known: Option<Measured>, instr: Instr, did: Did) -> Option<Measured>
    ensures { StaysKnown known instr did result }
{
    match (known, did) {
        (Some(measured), Did::Done) if spares(instr, measured.register) => known,
        _ => None,
    }
}

/// What is still known after a load into a register that had its effect.
#[inline(always)]
pub(crate) fn known_after_load(known: Option<Measured>, into: u8) -> Option<Measured>
    ensures { (base : ℕ) (x : Operand) → StaysKnown known (Ld into base x) Done result }
{
    match known {
        Some(measured) if measured.register != into => known,
        _ => None,
    }
}
