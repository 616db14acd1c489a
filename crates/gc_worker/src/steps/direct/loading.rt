//! The direct `ld`: how its worker catches up. These functions get numbers alone and stand apart, so that the common case has nothing in
//! memory.

ghost use Rattle.std.specs.Prelude.{◌≡◌, ℕ, ◌<◌, Some, true};
ghost use Rattle.plain_state.specs.declared.sizes.TheConstants.{LONGEST_RECORD};
ghost use Rattle.mutator_asm.specs.declared.operand.Operand.TheVariants as operands;
ghost use Rattle.mutator_asm.specs.declared.instr.Instr.TheVariants.{Ld};
ghost use Rattle.gc_worker.specs.declared.task.Task.TheVariants.{Calls};
ghost use Rattle.gc_worker.specs.Laws.Between.{IsIdle, with_task};
ghost use Rattle.gc_worker.specs.Workers.Fits.{MayBegin};
ghost use Rattle.record_access.specs.Access.{field_of};
ghost use Rattle.gc_worker.specs.Steps.Direct as direct;
ghost use Rattle.gc_worker.specs.Steps.Direct.{CatchesUp, MayCatchUp, at_access};

use crate::stage::Stage;
use crate::steps::answered::Answered;
use crate::worker::Worker;
use mutator_asm::{Instr, Operand};
use record_access::{AccessStage, FieldAccess, FieldUse, RecordAccess, RecordUse, Role};

/// The stage at which `ld` looks at the record's page.
#[inline(always)]
pub fn looks_at_record(at: u32, value: u64, into: u8) -> AccessStage
    ensures { result ≡ direct.looks_at_record at value into }
{
    let usage = RecordUse::Loads(into);
    AccessStage::LooksAtRecord(RecordAccess { at, value, usage })
}

/// The stage at which it loads the record's header.
#[inline(always)]
pub fn loads_header(at: u32, value: u64, into: u8) -> AccessStage
    ensures { result ≡ direct.loads_header at value into }
{
    let usage = RecordUse::Loads(into);
    AccessStage::LoadsHeader(RecordAccess { at, value, usage })
}

/// A value that stands behind its record's header with this role.
#[inline(always)]
fn value_of(at: u32, value: u64, role: Role) -> FieldAccess
    requires { value < LONGEST_RECORD }
    ensures { result ≡ field_of at 1 role value }
{
    FieldAccess {
        at,
        first: 1,
        word: value as u32 + 1,
        role,
    }
}

/// The stage at which it looks at the value's page, which is another.
#[inline(always)]
pub fn looks_at_value(at: u32, value: u64, role: Role, into: u8) -> AccessStage
    requires { value < LONGEST_RECORD }
    ensures { result ≡ direct.looks_at_value at value role into }
{
    AccessStage::LooksAtField(value_of(at, value, role), FieldUse::Loads(into))
}

/// The stage at which it loads the value.
#[inline(always)]
pub fn loads_value(at: u32, value: u64, role: Role, into: u8) -> AccessStage
    requires { value < LONGEST_RECORD }
    ensures { result ≡ direct.loads_value at value role into }
{
    AccessStage::LoadsField(value_of(at, value, role), into)
}

impl Worker {
    /// The instruction is begun, and the next look at the gate is still to come.
    #[inline(never)]
    pub fn begin_load(&mut self, into: u8, base: u8, value: u64)
        requires idle { IsIdle self.old }
        requires may_begin { MayBegin self.old.account self.old.registers (Some (Calls (Ld into base (operands.Number value)))) }
        ensures { self.new ≡ with_task self.old (Calls (Ld into base (operands.Number value))) }
    {
        self.begin(&Instr::Ld(into, base, Operand::Number(value)));
    }

    /// At the gate: there is a request, or the register holds no pointer.
    #[inline(never)]
    pub fn load_at_gate(&mut self, into: u8, base: u8, value: u64, word: u64) -> Answered
        requires looks { self.old.stage ≡ Stage.Looks }
        requires idle { IsIdle self.old }
        requires may_begin { MayBegin self.old.account self.old.registers (Some (Calls (Ld into base (operands.Number value)))) }
        requires may { MayCatchUp (with_task self.old (Calls (Ld into base (operands.Number value)))) word }
        ensures { CatchesUp (with_task self.old (Calls (Ld into base (operands.Number value)))) word result self.new }
    {
        self.catches_up_at_gate(Instr::Ld(into, base, Operand::Number(value)), word)
    }

    /// At the record's page, which isn't open.
    #[inline(never)]
    pub fn load_at_page(&mut self, into: u8, base: u8, value: u64, at: u32, word: u64) -> Answered
        requires { MayCatchUp (at_access self.old (Ld into base (operands.Number value)) (direct.looks_at_record at value into)) word }
        ensures { CatchesUp (at_access self.old (Ld into base (operands.Number value)) (direct.looks_at_record at value into)) word result self.new }
    {
        let instr = Instr::Ld(into, base, Operand::Number(value));
        self.catches_up(instr, looks_at_record(at, value, into), word)
    }

    /// At the record's header: the record is mixed or a cell, or it has no such value.
    #[inline(never)]
    pub fn load_at_header(&mut self, into: u8, base: u8, value: u64, at: u32, word: u64) -> Answered
        requires { MayCatchUp (at_access self.old (Ld into base (operands.Number value)) (direct.loads_header at value into)) word }
        ensures { CatchesUp (at_access self.old (Ld into base (operands.Number value)) (direct.loads_header at value into)) word result self.new }
    {
        let instr = Instr::Ld(into, base, Operand::Number(value));
        self.catches_up(instr, loads_header(at, value, into), word)
    }

    /// At the value's page, which is another and isn't open.
    #[inline(never)]
    pub fn load_at_value_page(
        &mut self,
        into: u8,
        base: u8,
        value: u64,
        at: u32,
        role: Role,
        word: u64,
    ) -> Answered
        requires short { value < LONGEST_RECORD }
        requires may { MayCatchUp (at_access self.old (Ld into base (operands.Number value)) (direct.looks_at_value at value role into)) word }
        ensures { CatchesUp (at_access self.old (Ld into base (operands.Number value)) (direct.looks_at_value at value role into)) word result self.new }
    {
        let instr = Instr::Ld(into, base, Operand::Number(value));
        self.catches_up(instr, looks_at_value(at, value, role, into), word)
    }
}
