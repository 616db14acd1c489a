//! A mutator of the plain machine.

ghost use Rattle.std.specs.Prelude.{◌≡◌, ◌+◌, ◌<◌, ◌^◌, ◌++◌, [], ◌∷◌, Some, OnOk, OnErr};

use mutator_asm::Operand;
use plain_state::{End, Identity, NUMBERS, NoMemory, REGISTERS, Value};
use std::alloc::Global;
use std::marker::Model;

/// What a mutator is between two instructions. Contracts see it so.
#[derive(Debug, Drop)]
pub struct PlainMutator {
    counter: u64,
    registers: [Value; REGISTERS],
    printed: Vec<u64>,
    executed: u32,
    end: Option<End>,
}

impl Model for PlainMutator {
    ghost use Rattle.std.specs.Prelude.{◌≡◌, length};
    ghost use Rattle.plain_state.specs.declared.sizes.TheConstants.{REGISTERS};
    ghost use Rattle.plain_state.specs.State.{Mutator};

    ghost Value = { Mutator };

    ghost view = { λ k. record {
      counter = k.counter;
      registers = k.registers;
      printed = k.printed.items;
      executed = k.executed;
      end = k.end;
    } };

    ghost invariant = { λ k. length k.registers ≡ REGISTERS };
}

impl PlainMutator {
    ghost use Rattle.plain_heap.specs.Action.{register, as_number, reference_in, operand, next_of};
    ghost use Rattle.plain_heap.specs.Call.{jumped, went_on, set_register};
    ghost use Rattle.plain_heap.specs.Order.{fresh};

    /// A mutator before its first instruction.
    pub fn new(alloc: Global) -> PlainMutator
        ensures { result ≡ fresh }
    {
        PlainMutator {
            counter: 0,
            registers: [Value::Number(0); REGISTERS],
            printed: Vec::new(alloc),
            executed: 0,
            end: None,
        }
    }

    pub fn counter(&self) -> u64
        ensures { result ≡ self.now.counter }
    {
        self.counter
    }

    pub fn registers(&self) -> &[Value]
        ensures { result.now ≡ self.now.registers }
    {
        &self.registers
    }

    pub fn printed(&self) -> &[u64]
        ensures { result.now ≡ self.now.printed }
    {
        self.printed.as_slice()
    }

    pub fn executed(&self) -> u32
        ensures { result ≡ self.now.executed }
    {
        self.executed
    }

    pub fn end(&self) -> Option<End>
        ensures { result ≡ self.now.end }
    {
        self.end
    }

    /// What a register holds.
    pub fn register(&self, r: u8) -> Value
        ensures { result ≡ register self.now r }
    {
        match self.registers.get(r as usize) {
            Some(value) => *value,
            None => Value::Number(0),
        }
    }

    /// The number in a register, else the end for a reference.
    pub fn number(&self, r: u8) -> Result<u64, End>
        ensures { result ≡ as_number (register self.now r) }
    {
        match self.register(r) {
            Value::Number(n) => Ok(n),
            Value::Reference(_) => Err(End::NotNumber),
        }
    }

    /// The reference in a register, else the end for a number.
    pub fn reference(&self, r: u8) -> Result<Identity, End>
        ensures { result ≡ reference_in (register self.now r) }
    {
        match self.register(r) {
            Value::Number(_) => Err(End::NotPointer),
            Value::Reference(identity) => Ok(identity),
        }
    }

    /// The number that an operand names.
    pub fn operand(&self, x: Operand) -> Result<u64, End>
        ensures { result ≡ operand self.now x }
    {
        match x {
            Operand::Reg(r) => self.number(r),
            Operand::Number(n) => Ok(n),
        }
    }

    /// The number of the next instruction.
    pub fn next(&self) -> u64
        ensures { result ≡ next_of self.now }
    {
        (self.counter % NUMBERS + 1) % NUMBERS
    }

    /// Goes on at an instruction.
    pub fn jump(&mut self, target: u64)
        requires { self.old.executed + 1 < 2 ^ 32 }
        ensures { self.new ≡ jumped self.old target }
    {
        self.counter = target;
        self.executed += 1;
    }

    /// Goes on with the next instruction.
    pub fn go_on(&mut self)
        requires { self.old.executed + 1 < 2 ^ 32 }
        ensures { self.new ≡ went_on self.old }
    {
        self.jump(self.next());
    }

    pub fn set_register(&mut self, d: u8, value: Value)
        ensures { self.new ≡ set_register self.old d value }
    {
        let d = d as usize;
        if d < self.registers.len() {
            self.registers[d] = value;
        }
    }

    /// A register takes a value, and the mutator goes on with the next instruction.
    pub fn load(&mut self, d: u8, value: Value)
        requires { self.old.executed + 1 < 2 ^ 32 }
        ensures { self.new ≡ went_on (set_register self.old d value) }
    {
        self.set_register(d, value);
        self.go_on();
    }

    /// Prints a number. Where memory is out, nothing changes.
    pub fn print(&mut self, number: u64) -> Result<(), NoMemory>
        ensures ok { OnOk result
            (self.new ≡ record self.old { printed = self.old.printed ++ number ∷ [] }) }
        ensures err { OnErr result (self.new ≡ self.old) }
    {
        self.printed.push(number)?;
        Ok(())
    }

    pub fn set_end(&mut self, end: End)
        ensures { self.new ≡ record self.old { end = Some end } }
    {
        self.end = Some(end);
    }
}
