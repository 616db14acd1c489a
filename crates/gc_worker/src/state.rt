ghost use Rattle.std.specs.Prelude.{◌≡◌};
ghost use Rattle.gc_worker.specs.Steps.Stepped.{uncounted};

use crate::stage::Stage;
use crate::task::due::Due;
use alloc_end::Run;
use mutator_asm::Instr;
use plain_state::{End, MOST_PRINTED, REGISTERS};
use space_map::Spaces;
use std::marker::Model;

/// What a worker holds between two steps.
#[derive(Drop)]
pub(crate) struct State {
    /// First, so that its address is that of the state, which is in a register anyway.
    pub stage: Stage,
    pub number: u8,
    pub spaces: Spaces,
    pub mutators: u8,
    /// Whether the heap's mutators may print.
    pub prints: bool,
    pub epoch: u32,
    /// The epoch at the look that began the instruction.
    pub begun: u32,
    /// How many checkpoints were begun, as it has read when it began to run.
    pub snap: u32,
    /// The checkpoint that was in progress then, or 0.
    pub running: u32,
    pub registers: [u64; REGISTERS],
    pub counter: u64,
    pub serial: u64,
    pub printed: Vec<u64>,
    pub end: Option<End>,
    pub run: Option<Run>,
    pub due: Due,
    /// The instruction, if one is due.
    pub instr: Instr,
    /// The end, if one is due.
    pub stop: End,
}

impl State {
    /// Tells a proof that what a mutator has executed isn't counted here. It does nothing when the program runs.
    #[inline(always)]
    pub fn known(&self)
        ensures { self.now ≡ uncounted self.now }
    {
        let _number = self.number;
    }
}

impl Model for State {
    ghost use Rattle.std.specs.Prelude.{vec_capacity};
    ghost use Rattle.gc_worker.specs.Workers.Held.{Held};
    ghost use Rattle.gc_worker.specs.Steps.Stepped.{task_due, HasRoomToPrint, MayHave};

    ghost Value = { Held };

    ghost view = { λ s. record {
      number = s.number;
      layout = s.spaces;
      mutators = s.mutators;
      prints = s.prints;
      epoch = s.epoch;
      begun = s.begun;
      snap = s.snap;
      running = s.running;
      account = record { counter = s.counter; printed = s.printed.items; executed = 0; serial = s.serial; end = s.end };
      registers = s.registers;
      run = s.run;
      task = task_due s.due s.instr s.stop;
      stage = s.stage;
    } };

    ghost invariant = { λ s. HasRoomToPrint s.prints s.number s.mutators (vec_capacity s.printed) × MayHave s.prints (task_due s.due s.instr s.stop) };
}
