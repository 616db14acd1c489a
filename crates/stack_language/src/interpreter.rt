//! How a thread runs a program.

ghost use Rattle.std.specs.Prelude.{◌≡◌, ◌≢◌, true, OnOk};
ghost use Rattle.plain_state.specs.declared.value.Value.TheVariants as values;
ghost use Rattle.plain_state.specs.Writing.{with_board};
ghost use Rattle.plain_heap.specs.Action.{is_reference};
ghost use Rattle.plain_heap.specs.Call.{board_word};
ghost use Rattle.ael_runtime.specs.Reading.{heap_before, held, value_number, root_register, seen_heap, record_word};

use crate::mistake::Mistake;
use crate::op::{Meaning, Op};
use crate::program::Program;
// The root of the stack leads to a pair of what is on top and what is below, or holds 0. The next two have what an instruction takes.
use ael_runtime::Root::{R0 as STACK, R1 as TOP, R2 as SECOND, R3 as SPARE};
use ael_runtime::{Failure, Local, Root};
use std::sync::Wait;
use std::sync::atomic::{AtomicBool, Ordering};
use std::thread::yield_now;

// The words of a pair.
const FIRST: u16 = 0;

const REST: u16 = 1;

/// Where a frame keeps the place behind the call of its word. The slots before it are locals.
const CALLER: u16 = 4;

/// What the threads share: the program, and whether one of them has stopped.
#[derive(Drop)]
pub(crate) struct Job {
    pub program: Program,
    pub stopped: AtomicBool,
}

/// A thread's part of the heap, where it is in the program, and what it has printed.
#[derive(Drop)]
pub(crate) struct Interpreter<'r, 'j, 'h, R> {
    pub rt: &'r R,
    pub job: &'j Job,
    pub local: Local<'h>,
    pub next: usize,
    pub line: u32,
    pub printed: Vec<u64>,
}

impl<'r, 'j, 'h, R: Wait> Interpreter<'r, 'j, 'h, R> {
    /// Runs a word of the text to its end.
    pub fn run(&mut self, word: &str) -> Result<(), Mistake>
        ensures { self.new.local.table ≡ self.old.local.table }
    {
        let program = &self.job.program;
        let place = program.words.get(word).ok_or(Mistake::UnknownWord)?;
        self.next = program.ops.len();
        self.call(*place)?;
        for _ in self.rt.forever() {
            let Some((meaning, line)) = program.ops.get(self.next) else {
                break;
            };
            self.line = *line;
            self.next += 1;
            self.step(*meaning)?;
        }
        Ok(())
    }

    fn step(&mut self, meaning: Meaning) -> Result<(), Mistake>
        ensures { self.new.local.table ≡ self.old.local.table }
    {
        let (takes, op, puts) = meaning;
        if takes > 0 {
            self.pop(TOP)?;
        }
        if takes > 1 {
            self.pop(SECOND)?;
        }
        self.act(op)?;
        if puts {
            self.pair(STACK, TOP, STACK)?;
        }
        Ok(())
    }

    fn act(&mut self, op: Op) -> Result<(), Mistake>
        ensures { self.new.local.table ≡ self.old.local.table }
    {
        let rt = self.rt;
        let top = self.number(TOP);
        match op {
            Op::Number(n) => self.local.set_number(rt, TOP, n)?,
            Op::Compute(operation) => {
                let computed = operation.apply(self.number(SECOND)?, top?);
                self.local
                    .set_number(rt, TOP, computed.map_err(|_| Mistake::ZeroDivisor)?)?;
            }
            Op::Equal => {
                let is_same = self.local.same(rt, SECOND, TOP)?;
                self.local.set_number(rt, TOP, u64::from(is_same))?;
            }
            Op::Dup => self.pair(STACK, TOP, STACK)?,
            Op::Swap => {
                self.pair(STACK, TOP, STACK)?;
                self.local.copy(rt, TOP, SECOND)?;
            }
            Op::Pair => self.pair(TOP, SECOND, TOP)?,
            Op::Part(at) => self.local.load(rt, TOP, TOP, at)?,
            Op::SetFirst => self.local.store(rt, TOP, FIRST, SECOND)?,
            Op::Fetch(slot) => self.local.restore(rt, TOP, slot)?,
            Op::Keep(slot) => self.local.save(rt, slot, TOP)?,
            Op::Call(place) => self.call(place)?,
            Op::Return => {
                self.local.restore(rt, TOP, CALLER)?;
                self.local.pop_frame(rt)?;
                self.next = self.number(TOP)? as usize;
            }
            Op::Jump(place) => self.next = place,
            Op::JumpIfZero(place) if matches!(top, Ok(0)) => self.next = place,
            Op::Send => self.leave_at(board_word(top?)?)?,
            Op::Receive => self.take_from(board_word(top?)?)?,
            Op::Print => self.printed.push(top?)?,
            Op::Check if matches!(top, Ok(0)) => return Err(Mistake::CheckFailed),
            Op::Drop | Op::JumpIfZero(_) | Op::Check => {}
        }
        Ok(())
    }

    /// A root leads to a new pair of what two roots hold.
    fn pair(&mut self, to: Root, first: Root, rest: Root) -> Result<(), Mistake>
        requires others { (root_register first ≢ root_register to) × (root_register first ≢ 3) × (root_register to ≢ 3) }
        ensures of_heap { self.new.local.table ≡ self.old.local.table }
        ensures first { OnOk result (record_word (seen_heap self.new.local) (held self.new.local (root_register to)) 0 ≡ held self.old.local (root_register first)) }
    {
        self.local.copy(self.rt, SPARE, rest)?;
        self.local.make(self.rt, to, 2, 0)?;
        self.local.store(self.rt, to, REST, SPARE)?;
        self.local.store(self.rt, to, FIRST, first)?;
        Ok(())
    }

    /// Takes what is on top of the stack to a root.
    fn pop(&mut self, to: Root) -> Result<(), Mistake>
        ensures of_heap { self.new.local.table ≡ self.old.local.table }
        ensures there { OnOk result (is_reference (held self.old.local 0) ≡ true) }
    {
        if !self.local.is_record(STACK) {
            return Err(Mistake::StackEmpty);
        }
        self.local.load(self.rt, to, STACK, FIRST)?;
        self.local.load(self.rt, STACK, STACK, REST)?;
        Ok(())
    }

    fn number(&self, of: Root) -> Result<u64, Mistake> {
        self.local.number(of).ok_or(Mistake::NotNumber)
    }

    /// Goes on at a word, which has a new frame.
    fn call(&mut self, place: usize) -> Result<(), Mistake>
        ensures { self.new.local.table ≡ self.old.local.table }
    {
        self.local.push_frame(self.rt, CALLER + 1)?;
        self.local.set_number(self.rt, TOP, self.next as u64)?;
        self.local.save(self.rt, CALLER, TOP)?;
        self.next = place;
        Ok(())
    }

    /// Waits until 0 stands on a word of the board, and leaves the second value there.
    fn leave_at(&mut self, word: u8) -> Result<(), Mistake>
        ensures of_heap { self.new.local.table ≡ self.old.local.table }
        ensures left { OnOk result (seen_heap self.new.local ≡ with_board (heap_before self.new.local) word (held self.old.local 2)) }
    {
        for _ in self.rt.forever() {
            let is_alone = self.job.stopped.load(Ordering::SeqCst);
            self.local.read_shared(self.rt, TOP, word)?;
            if self.local.number(TOP) == Some(0) {
                self.local.share(self.rt, word, SECOND)?;
                return Ok(());
            }
            if is_alone {
                break;
            }
            yield_now();
        }
        Err(Mistake::Deserted)
    }

    /// Waits until something else stands on a word of the board, and takes it.
    fn take_from(&mut self, word: u8) -> Result<(), Mistake>
        ensures of_heap { self.new.local.table ≡ self.old.local.table }
        ensures value { OnOk result (held self.new.local 1 ≡ board_word (heap_before self.new.local) word) }
        ensures there { OnOk result (value_number (held self.new.local 1) ≢ Some 0) }
        ensures empty { OnOk result (seen_heap self.new.local ≡ with_board (heap_before self.new.local) word (values.Number 0)) }
    {
        for _ in self.rt.forever() {
            let is_alone = self.job.stopped.load(Ordering::SeqCst);
            self.local.take(self.rt, TOP, word)?;
            if self.local.number(TOP) != Some(0) {
                return Ok(());
            }
            if is_alone {
                break;
            }
            yield_now();
        }
        Err(Mistake::Deserted)
    }
}

/// The number of a word of the board.
fn board_word(number: u64) -> Result<u8, Mistake> {
    u8::try_from(number).map_err(|_| Mistake::Heap(Failure::OutOfRange))
}
