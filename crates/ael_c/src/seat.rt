//! What a handle leads to.

ghost use Rattle.std.specs.Prelude.{◌≡◌, Some, false};
ghost use Rattle.ael_c.specs.Calls.{MakesCall, Polls, Leaves, ReadsRegister, Scans, Tells};
ghost use Rattle.ael_c.specs.Handles.{OnMutator, OnScanner, is_mutator, may_go};

use crate::answer::Answer;
use crate::mutator_seat::MutatorSeat;
use crate::scanner_seat::ScannerSeat;
use ael_threads::Instr;

/// A seat of either kind. Each call is for one of them, and of the other it is refused.
#[derive(Drop)]
pub enum Seat {
    Mutator(MutatorSeat),
    Scanner(ScannerSeat),
}

impl Seat {
    pub fn call(&mut self, instr: Option<Instr>) -> Answer
        ensures { OnMutator (MakesCall instr) self.old result self.new }
    {
        match self {
            Seat::Mutator(seat) => seat.call(instr),
            Seat::Scanner(_) => Answer::BadHandle,
        }
    }

    pub fn poll(&mut self) -> Answer
        ensures { OnMutator Polls self.old result self.new }
    {
        match self {
            Seat::Mutator(seat) => seat.poll(),
            Seat::Scanner(_) => Answer::BadHandle,
        }
    }

    pub fn leave(&mut self) -> Answer
        ensures { OnMutator Leaves self.old result self.new }
    {
        match self {
            Seat::Mutator(seat) => seat.leave(),
            Seat::Scanner(_) => Answer::BadHandle,
        }
    }

    pub fn reg(&self, i: u32, value: &mut u64) -> Answer
        ensures told { OnMutator (ReadsRegister i value.old value.new) self.now result self.now }
        ensures kept { is_mutator (Some self.now) ≡ false → value.new ≡ value.old }
    {
        match self {
            Seat::Mutator(seat) => seat.reg(i, value),
            Seat::Scanner(_) => Answer::BadHandle,
        }
    }

    pub fn tell(&self, serial: &mut u64, epoch: &mut u32) -> Answer
        ensures told { OnMutator (Tells serial.new epoch.new) self.now result self.now }
        ensures kept { is_mutator (Some self.now) ≡ false → (serial.new ≡ serial.old) × (epoch.new ≡ epoch.old) }
    {
        match self {
            Seat::Mutator(seat) => seat.tell(serial, epoch),
            Seat::Scanner(_) => Answer::BadHandle,
        }
    }

    pub fn scan(&mut self) -> Answer
        ensures { OnScanner Scans self.old result self.new }
    {
        match self {
            Seat::Scanner(seat) => seat.scan(),
            Seat::Mutator(_) => Answer::BadHandle,
        }
    }

    /// Whether nobody waits for it, so that it may be freed.
    pub fn may_go(&self) -> bool
        ensures { result ≡ may_go self.now }
    {
        match self {
            Seat::Mutator(seat) => seat.has_left(),
            Seat::Scanner(seat) => seat.rests(),
        }
    }
}
