//! What a mutator reads in its registers.

pub mod seen_value;

ghost use Rattle.std.specs.Prelude.{◌≡◌, ◌^◌, ◌<◌, IfOk, if◌then◌else◌, slice_index};
ghost use Rattle.plain_state.specs.declared.value.Value.TheVariants.{Number};
ghost use Rattle.plain_state.specs.Operation.{one_if};
ghost use Rattle.plain_heap.specs.Action.{are_same, board_place, is_reference, is_zero, next_of, as_number, operand, reference_in, register};
ghost use Rattle.gc_worker.specs.Plain.Seen.{length_named, mixed_named};
ghost use Rattle.gc_worker.specs.Steps.Stepped.{FitsValue, seen_by};

use crate::registers::seen_value::value_in;
use crate::state::State;
use mutator_asm::Operand;
use plain_state::{BOARD_WORDS, End, Identity, LONGEST_RECORD, NUMBERS, Value};

impl State {
    /// The word in a register.
    #[tactic(auto, using(crate::proofs::Words::Read::register_word, crate::proofs::Words::Read::no_register_word))]
    pub fn word(&self, r: u8) -> u64
        ensures { result ≡ slice_index self.now.registers r }
    {
        match self.registers.get(r as usize) {
            Some(word) => *word,
            None => 0,
        }
    }

    /// What a register holds.
    #[tactic(auto, using(crate::proofs::Words::Read::register_seen, crate::proofs::Words::Read::no_register_seen))]
    pub fn value(&self, r: u8) -> Value
        ensures exact { result ≡ register (seen_by self.now) r }
        ensures fits { FitsValue result }
    {
        match self.registers.get(r as usize) {
            Some(word) => value_in(*word),
            None => Value::Number(0),
        }
    }

    /// The number in a register, else the end for a pointer.
    pub fn number(&self, r: u8) -> Result<u64, End>
        ensures exact { result ≡ as_number (register (seen_by self.now) r) }
        ensures fits { IfOk result (λ n. n < NUMBERS) }
    {
        match self.value(r) {
            Value::Number(n) => Ok(n),
            Value::Reference(_) => Err(End::NotNumber),
        }
    }

    /// The record in a register, else the end for a number.
    pub fn reference(&self, r: u8) -> Result<Identity, End>
        ensures exact { result ≡ reference_in (register (seen_by self.now) r) }
        ensures fits { IfOk result (λ i. i.serial < 2 ^ 32) }
    {
        match self.value(r) {
            Value::Number(_) => Err(End::NotPointer),
            Value::Reference(identity) => Ok(identity),
        }
    }

    /// The number that an operand names.
    pub fn operand(&self, x: Operand) -> Result<u64, End>
        ensures { result ≡ operand (seen_by self.now) x }
    {
        match x {
            Operand::Reg(r) => self.number(r),
            Operand::Number(n) => Ok(n),
        }
    }

    /// The word of the board that an operand names.
    pub fn board_place(&self, x: Operand) -> Result<u64, End>
        ensures exact { result ≡ board_place (seen_by self.now) x }
        ensures fits { IfOk result (λ x. x < BOARD_WORDS) }
    {
        let x = self.operand(x)?;
        if x < BOARD_WORDS as u64 {
            Ok(x)
        } else {
            Err(End::OutOfRange)
        }
    }

    /// The length of a record that an operand names.
    pub fn length(&self, x: Operand) -> Result<u16, End>
        ensures { result ≡ length_named (seen_by self.now) x }
    {
        let number = self.operand(x)?;
        if number <= LONGEST_RECORD {
            Ok(number as u16)
        } else {
            Err(End::OutOfRange)
        }
    }

    /// The fields and the length of a mixed record that two operands name.
    pub fn mixed_length(&self, fields: Operand, raw: Operand) -> Result<(u16, u16), End>
        ensures { result ≡ mixed_named (seen_by self.now) fields raw }
    {
        let fields = self.operand(fields)?;
        let raw = self.operand(raw)?;
        match fields.checked_add(raw) {
            Some(len) if len < LONGEST_RECORD => Ok((fields as u16, len as u16)),
            _ => Err(End::OutOfRange),
        }
    }

    /// The number of the next instruction.
    #[inline(always)]
    pub fn next(&self) -> u64
        ensures exact { result ≡ next_of (seen_by self.now) }
        ensures number { result < NUMBERS }
    {
        (self.counter % NUMBERS + 1) % NUMBERS
    }

    /// 1 where two registers hold equal numbers or lead to one record, else 0.
    pub fn are_same(&self, a: u8, b: u8) -> u64
        ensures exact { result ≡ one_if (are_same (register (seen_by self.now) a) (register (seen_by self.now) b)) }
        ensures number { result < NUMBERS }
    {
        u64::from(self.value(a) == self.value(b))
    }

    /// 1 where a register holds a pointer, else 0.
    pub fn is_reference(&self, a: u8) -> u64
        ensures exact { result ≡ one_if (is_reference (register (seen_by self.now) a)) }
        ensures number { result < NUMBERS }
    {
        u64::from(self.reference(a).is_ok())
    }

    /// The target where a register holds the number 0, else the number of the next instruction.
    pub fn target_if_zero(&self, a: u8, target: u32) -> u64
        ensures { result ≡ (if is_zero (register (seen_by self.now) a) then target else next_of (seen_by self.now)) }
    {
        match self.value(a) {
            Value::Number(0) => u64::from(target),
            Value::Number(_) | Value::Reference(_) => self.next(),
        }
    }
}
