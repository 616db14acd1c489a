//! Records: they are made, read and written.

ghost use Rattle.std.specs.Prelude.{◌≡◌, ◌≢◌, ◌+◌, ◌<◌, [], ◌∷◌, true, false, IfErr, IfOk, IsOk, OnOk};
ghost use Rattle.plain_state.specs.declared.sizes.TheConstants.{NUMBERS, REGISTERS};
ghost use Rattle.mutator_asm.specs.declared.instr.Instr.TheVariants.{Ld, Len, St};
ghost use Rattle.mutator_asm.specs.declared.operand.Operand.TheVariants as operands;
ghost use Rattle.plain_heap.specs.Action.{is_reference};
ghost use Rattle.ael_threads.specs.declared.mutator.refused.TheConstants.{MOST_RECORDS};
ghost use Rattle.ael_runtime.specs.declared.root.TheConstants.{SCRATCH};
ghost use Rattle.ael_runtime.specs.Calling.{HadEffects, HadEffectsOnceSeen, done};
ghost use Rattle.ael_runtime.specs.Failing.{MakeFails, RecordFails, StoreFails, WordFails};
ghost use Rattle.ael_runtime.specs.Making as making;
ghost use Rattle.ael_runtime.specs.Reading.{held, len_of, root_register, seen_heap, record_word};

use crate::failure::Failure;
use crate::local::Local;
use crate::root::{Root, SCRATCH};
use ael_threads::{Did, MOST_RECORDS};
use mutator_asm::{Instr, Operand};
use plain_state::LONGEST_RECORD;
use std::sync::Wait;

/// The instruction that makes such a record.
fn making(to: u8, fields: u16, numbers: u16) -> Instr
    ensures { result ≡ making.making to fields numbers }
{
    let (fields, numbers) = (u64::from(fields), u64::from(numbers));
    if numbers == 0 {
        Instr::New(to, Operand::Number(fields))
    } else if fields == 0 {
        Instr::Raw(to, Operand::Number(numbers))
    } else {
        Instr::Mix(to, Operand::Number(fields), Operand::Number(numbers))
    }
}

/// Whether it is too long.
fn is_too_long(fields: u16, numbers: u16) -> bool
    ensures { result ≡ making.is_too_long fields numbers }
{
    let (fields, numbers) = (u64::from(fields), u64::from(numbers));
    let most = if numbers == 0 || fields == 0 {
        LONGEST_RECORD
    } else {
        LONGEST_RECORD - 1
    };
    most < fields + numbers
}

impl<'h> Local<'h> {
    /// The root leads to a new record, with this number of fields, each a number or a record, and of plain numbers behind them. All are 0. It
    /// is too large exactly if it has more than `LONGEST_RECORD` words, or as many of both sorts; that is told before `RecordsOut`.
    pub fn make<R: Wait>(
        &mut self,
        rt: &R,
        to: Root,
        fields: u16,
        numbers: u16,
    ) -> Result<(), Failure>
        ensures of_heap { self.new.table ≡ self.old.table }
        ensures fits { OnOk result ((making.is_too_long fields numbers ≡ false) × (self.old.worker.account.serial < MOST_RECORDS)) }
        ensures made { OnOk result (making.HasMade self.old (making.kind_for fields numbers) (fields + numbers) (root_register to) self.new) }
        ensures effects { OnOk result (HadEffects self.old (done (making.making (root_register to) fields numbers) ∷ []) (root_register to) self.new) }
        ensures fails { IfErr result (λ why. MakeFails (making.is_too_long fields numbers) self.old (making.making (root_register to) fields numbers) why self.new) }
    {
        if let Some(end) = self.ended() {
            return Err(Failure::Ended(end));
        }
        if is_too_long(fields, numbers) {
            return Err(Failure::TooLarge);
        }
        if self.serial() >= MOST_RECORDS {
            return Err(Failure::RecordsOut);
        }
        if let Did::Trap(end) = self.call(rt, making(to.register(), fields, numbers)) {
            return Err(Failure::Ended(end));
        }
        self.remember(to.register(), u64::from(fields) + u64::from(numbers));
        Ok(())
    }

    /// How many words the record of a root has.
    pub fn len<R: Wait>(&mut self, rt: &R, of: Root) -> Result<u64, Failure>
        ensures of_heap { self.new.table ≡ self.old.table }
        ensures record { IsOk result → is_reference (held self.old (root_register of)) ≡ true }
        ensures len { IfOk result (λ len. len ≡ len_of (seen_heap self.new) (held self.old (root_register of))) }
        ensures effects { OnOk result (HadEffects self.old (done (Len SCRATCH (root_register of)) ∷ []) SCRATCH self.new) }
        ensures fails { IfErr result (λ why. RecordFails self.old (root_register of) why self.new) }
    {
        self.measure(rt, of.register())
    }

    /// The root holds word `at` of the record of another.
    pub fn load<R: Wait>(&mut self, rt: &R, to: Root, of: Root, at: u16) -> Result<(), Failure>
        ensures of_heap { self.new.table ≡ self.old.table }
        ensures value { OnOk result (held self.new (root_register to) ≡ record_word (seen_heap self.new) (held self.old (root_register of)) at) }
        ensures within { OnOk result (at < len_of (seen_heap self.new) (held self.old (root_register of))) }
        ensures effects { OnOk result (HadEffectsOnceSeen self.old (root_register of) (done (Ld (root_register to) (root_register of) (operands.Number at)) ∷ []) (root_register to) self.new) }
        ensures fails { IfErr result (λ why. WordFails self.old (root_register of) at why self.new) }
    {
        self.fetch(rt, to.register(), of.register(), u64::from(at))
    }

    /// Word `at` of the record of a root becomes what another root holds. If the record can't hold that there, the mutator has an end: a
    /// record in place of a plain number, or anything in a weak cell.
    pub fn store<R: Wait>(&mut self, rt: &R, of: Root, at: u16, what: Root) -> Result<(), Failure>
        ensures of_heap { self.new.table ≡ self.old.table }
        ensures value { OnOk result (record_word (seen_heap self.new) (held self.old (root_register of)) at ≡ held self.old (root_register what)) }
        ensures within { OnOk result (at < len_of (seen_heap self.new) (held self.old (root_register of))) }
        ensures effects { OnOk result (HadEffectsOnceSeen self.old (root_register of) (done (St (root_register of) (operands.Number at) (root_register what)) ∷ []) SCRATCH self.new) }
        ensures fails { IfErr result (λ why. StoreFails self.old (root_register of) at (root_register what) why self.new) }
    {
        self.keep(rt, of.register(), u64::from(at), what.register())
    }

    /// The length of the record in a register, which the register for scratch then has too.
    pub(crate) fn measure<R: Wait>(&mut self, rt: &R, of: u8) -> Result<u64, Failure>
        requires register { of < REGISTERS }
        requires other { of ≢ SCRATCH }
        ensures of_heap { self.new.table ≡ self.old.table }
        ensures record { IsOk result → is_reference (held self.old of) ≡ true }
        ensures len { IfOk result (λ len. len ≡ len_of (seen_heap self.new) (held self.old of)) }
        ensures effects { OnOk result (HadEffects self.old (done (Len SCRATCH of) ∷ []) SCRATCH self.new) }
        ensures fails { IfErr result (λ why. RecordFails self.old of why self.new) }
    {
        if let Some(end) = self.ended() {
            return Err(Failure::Ended(end));
        }
        if self.number_in(of).is_some() {
            return Err(Failure::NotRecord);
        }
        self.does(rt, Instr::Len(SCRATCH, of));
        let Some(len) = self.number_in(SCRATCH) else {
            unreachable!("it holds the length")
        };
        self.remember(of, len);
        Ok(len)
    }

    /// Looks whether the record in a register has this word, if that isn't known.
    fn reach<R: Wait>(&mut self, rt: &R, of: u8, at: u64) -> Result<(), Failure>
        requires register { of < REGISTERS }
        requires other { of ≢ SCRATCH }
        ensures of_heap { self.new.table ≡ self.old.table }
        ensures within { OnOk result (at < len_of (seen_heap self.new) (held self.old of)) }
        ensures effects { OnOk result (HadEffectsOnceSeen self.old of [] SCRATCH self.new) }
        ensures fails { IfErr result (λ why. WordFails self.old of at why self.new) }
    {
        if self.knows(of, at) {
            return Ok(());
        }
        let len = self.measure(rt, of)?;
        if at >= len {
            return Err(Failure::OutOfRange);
        }
        Ok(())
    }

    /// A register holds a word of the record in a register.
    pub(crate) fn fetch<R: Wait>(&mut self, rt: &R, to: u8, of: u8, at: u64) -> Result<(), Failure>
        requires to { to < REGISTERS }
        requires of { of < REGISTERS }
        requires other { of ≢ SCRATCH }
        requires at { at < NUMBERS }
        ensures of_heap { self.new.table ≡ self.old.table }
        ensures value { OnOk result (held self.new to ≡ record_word (seen_heap self.new) (held self.old of) at) }
        ensures within { OnOk result (at < len_of (seen_heap self.new) (held self.old of)) }
        ensures effects { OnOk result (HadEffectsOnceSeen self.old of (done (Ld to of (operands.Number at)) ∷ []) to self.new) }
        ensures fails { IfErr result (λ why. WordFails self.old of at why self.new) }
    {
        self.reach(rt, of, at)?;
        self.loads(rt, to, of, at);
        Ok(())
    }

    /// A word of the record in a register becomes what a register holds.
    pub(crate) fn keep<R: Wait>(&mut self, rt: &R, of: u8, at: u64, what: u8) -> Result<(), Failure>
        requires of { of < REGISTERS }
        requires what { what < REGISTERS }
        requires others { (of ≢ SCRATCH) × (what ≢ SCRATCH) }
        requires at { at < NUMBERS }
        ensures of_heap { self.new.table ≡ self.old.table }
        ensures value { OnOk result (record_word (seen_heap self.new) (held self.old of) at ≡ held self.old what) }
        ensures within { OnOk result (at < len_of (seen_heap self.new) (held self.old of)) }
        ensures effects { OnOk result (HadEffectsOnceSeen self.old of (done (St of (operands.Number at) what) ∷ []) SCRATCH self.new) }
        ensures fails { IfErr result (λ why. StoreFails self.old of at what why self.new) }
    {
        self.reach(rt, of, at)?;
        match self.call(rt, Instr::St(of, Operand::Number(at), what)) {
            Did::Done => Ok(()),
            Did::Trap(end) => Err(Failure::Ended(end)),
        }
    }
}
