//! What passages of the gate come to, and the flip.

ghost use Rattle.std.specs.Prelude.{◌≡◌, ◌+◌, ◌-◌, ◌^◌, ◌<◌, ◌≤◌};
ghost use Rattle.std.specs.Option.{option_map};
ghost use Rattle.gc_worker.specs.Workers.Held.{at_stage, has_seen_flip, may_snap};
ghost use Rattle.gc_worker.specs.declared.stage.Stage.TheVariants.{Flips};
ghost use Rattle.gate_core.specs.Flip.{begun};
ghost use Rattle.gc_worker.specs.Workers.Fits.{FitsStage, Takes};
ghost use Rattle.gc_worker.specs.Steps.Stepped.{IsAtGate, IsFlipping, IsForwarding, IsSound, pointed, stepped_by, uncounted};
ghost use Rattle.gc_worker.specs.Steps.Turned.{after_request, epoch_said, first_pointer, forwards_from, goes_on, in_epoch, passed_by, passes, runs_on, stopped, told, turned};

use crate::stage::Stage;
use crate::stage::after::After;
use crate::stage::forwarding_register::ForwardingRegister;
use crate::state::State;
use crate::steps::stepped::Stepped;
use atom_store::{Reply, Turn};
use forwarding::Evac;
use gate_core::{Flip, Flipped, Gate, Passage, Passed, Recall};
use heap_words::Word;
use plain_state::REGISTERS;
use space_map::GateWord;

impl State {
    /// A step at the gate.
    #[inline(always)]
    pub fn pass(&mut self, reply: Reply)
        requires at { IsAtGate self.old.stage }
        requires fits { IsSound self.old }
        requires takes { Takes self.old reply }
        requires after { IsSound (turned self.old reply) }
        ensures { self.new ≡ uncounted (turned self.old reply) }
    {
        let Stage::Passes(gate, after) = &mut self.stage else {
            unreachable!()
        };
        let (before, after) = (*gate, *after);
        if let Turn::Finished(passed) = gate.take(reply) {
            self.stage = Stage::Passes(before, after);
            self.has_passed(after, before.passage(), passed);
        }
    }

    /// What a passage comes to.
    #[tactic(auto, using(crate::proofs::Workers::Fitting::fits_before))]
    #[inline(always)]
    fn has_passed(&mut self, after: After, passage: Passage, passed: Passed)
        requires { FitsStage (passed_by self.old after passage passed) (passed_by self.old after passage passed).stage }
        ensures { self.new ≡ passed_by self.old after passage passed }
    {
        match (passage, passed) {
            (Passage::Attach, Passed::Went(word)) => {
                self.enter(word);
                self.run_on(After::Looks);
            }
            (Passage::Attach, Passed::NotYet(_)) => {
                self.stage = Stage::Passes(Gate::attach(self.spaces), after);
            }
            (Passage::Park | Passage::Clear, Passed::Went(_)) => {
                self.stage = self.resuming(after);
            }
            (Passage::Park, Passed::NotYet(_)) => self.go_on_with(after),
            (Passage::Resume(_), Passed::Went(_)) => self.run_on(after),
            (Passage::Request, Passed::Went(_)) => self.stage = self.asking(after),
            (Passage::Request, Passed::NotYet(_)) => {
                self.stage = Stage::Passes(Gate::park(self.spaces), after);
            }
            (Passage::Resume(_), Passed::NotYet(word)) => self.has_stopped(after, word),
            (Passage::Forwarded, Passed::Went(word)) => {
                self.enter(word);
                self.stage = self.resuming(after);
            }
            (Passage::Leave, Passed::Went(_)) => self.stage = Stage::Gone,
            (Passage::Forwarded | Passage::Leave | Passage::Clear, Passed::NotYet(_))
            | (Passage::Look, _) => {}
        }
    }

    /// The mutator comes into the epoch that a word of the gate says.
    fn enter(&mut self, word: u64)
        ensures { self.new ≡ in_epoch self.old (epoch_said self.old.epoch word) }
    {
        self.epoch = epoch_in(self.epoch, word);
        self.run = None;
    }

    /// The passage by which a mutator that stopped may run on.
    fn resuming(&self, after: After) -> Stage
        ensures { result ≡ passes self.now (Passage.Resume self.now.epoch) after }
    {
        Stage::Passes(Gate::resume(self.spaces, self.epoch), after)
    }

    /// A mutator that begins to run reads first which checkpoint is in progress, if there are checkpoints.
    fn run_on(&mut self, after: After)
        requires { FitsStage self.old (runs_on self.old after) }
        ensures { self.new ≡ at_stage self.old (runs_on self.old after) }
    {
        if self.spaces.has_checkpoints() {
            self.stage = Stage::Recalls(Recall::new(self.spaces), after);
        } else {
            self.go_on_with(after);
        }
    }

    /// A mutator that stopped goes on with what it was about to do.
    pub fn go_on_with(&mut self, after: After)
        requires { FitsStage self.old (goes_on self.old after) }
        ensures { self.new ≡ at_stage self.old (goes_on self.old after) }
    {
        match after {
            After::Looks => self.stage = Stage::Looks,
            After::Places => self.begin_placing(),
            After::Snaps if self.may_snap() => self.serve_snap(),
            After::Snaps => self.stage = Stage::Looks,
        }
    }

    /// Its request stands: it flips, or begins a checkpoint.
    fn asking(&self, after: After) -> Stage
        requires { FitsStage self.now (after_request self.now after) }
        ensures { result ≡ after_request self.now after }
    {
        match after {
            After::Snaps => self.beginning(),
            After::Looks | After::Places => self.flipping(self.asked()),
        }
    }

    /// A stopped mutator that sees a later epoch forwards its registers.
    fn has_stopped(&mut self, after: After, word: u64)
        requires { FitsStage (stopped self.old after word) (stopped self.old after word).stage }
        ensures { self.new ≡ stopped self.old after word }
    {
        self.stage = if self.epoch < epoch_in(self.epoch, word) {
            self.forwarding(after, 0)
        } else {
            self.resuming(after)
        };
    }

    /// The copy of the record to which the first register leads that holds a pointer, from this one on; else all are forwarded.
    fn forwarding(&self, after: After, from: u8) -> Stage
        requires from { from ≤ 8 }
        requires next { self.now.epoch + 1 < 2 ^ 32 }
        requires after { FitsStage self.now (forwards_from self.now after from) }
        ensures { result ≡ forwards_from self.now after from }
    {
        match first_pointer(&self.registers, from) {
            Some((register, addr)) => Stage::Forwards(ForwardingRegister {
                register,
                evac: Evac::new(self.spaces, addr, self.epoch + 1, self.number),
                after,
            }),
            None => Stage::Passes(Gate::forwarded(self.spaces), after),
        }
    }

    /// Whether a flip was seen since the instruction began, whoever flipped.
    pub fn has_seen_flip(&self) -> bool
        ensures { result ≡ has_seen_flip self.now }
    {
        self.begun < self.epoch
    }

    /// The flip for so many pages.
    fn flipping(&self, asked: u32) -> Stage
        requires { self.now.epoch + 1 < 2 ^ 32 }
        ensures { result ≡ Flips (begun self.now.layout self.now.epoch asked (has_seen_flip self.now)) }
    {
        let seen = self.has_seen_flip();
        Stage::Flips(Flip::new(self.spaces, self.epoch, asked, seen))
    }

    /// A step of the flip.
    #[inline(always)]
    pub fn flip(&mut self, reply: Reply) -> Stepped
        requires at { IsFlipping self.old.stage }
        requires fits { IsSound self.old }
        requires takes { Takes self.old reply }
        requires after { IsSound (turned self.old reply) }
        ensures state { self.new ≡ uncounted (turned self.old reply) }
        ensures tells { result ≡ stepped_by self.old.number (told self.old reply) }
    {
        let Stage::Flips(flip) = &mut self.stage else {
            unreachable!()
        };
        match flip.take(reply) {
            Turn::More => Stepped::Moved,
            Turn::Finished(Flipped::Went(asked)) => {
                self.stage = Stage::Passes(Gate::resume(self.spaces, self.epoch), After::Places);
                Stepped::Flipped(asked)
            }
            Turn::Finished(Flipped::NotYet(_)) => {
                let asked = flip.asked();
                self.stage = self.flipping(asked);
                Stepped::Moved
            }
        }
    }

    /// A step of the copy of a record to which a register leads.
    #[inline(always)]
    pub fn forward(&mut self, reply: Reply)
        requires at { IsForwarding self.old.stage }
        requires fits { IsSound self.old }
        requires takes { Takes self.old reply }
        requires after { IsSound (turned self.old reply) }
        ensures { self.new ≡ uncounted (turned self.old reply) }
    {
        let Stage::Forwards(
            ForwardingRegister {
                register,
                evac,
                after,
            },
        ) = &mut self.stage
        else {
            unreachable!()
        };
        let (register, after) = (*register, *after);
        if let Turn::Finished(to) = evac.take(reply) {
            self.set(register, Word::pointer(to.0).0);
            self.stage = self.forwarding(after, register + 1);
        }
    }
}

/// The first register from this one on that holds a pointer, and where that leads.
#[tactic(auto, using(crate::proofs::Words::Read::pointer_found, crate::proofs::Words::Read::pointer_not_there, crate::proofs::Words::Read::no_pointer_left))]
fn first_pointer(registers: &[u64; REGISTERS], from: u8) -> Option<(u8, u32)>
    requires { from ≤ 8 }
    ensures { option_map pointed result ≡ first_pointer registers.now (8 - from) from }
{
    for register in from..8 {
        if let Some(addr) = Word(registers[register as usize]).as_pointer() {
            return Some((register, addr));
        }
    }
    None
}

/// The epoch that a word of the gate says.
fn epoch_in(own: u32, word: u64) -> u32
    ensures { result ≡ epoch_said own word }
{
    match GateWord::read(word) {
        Some(gate) => gate.epoch,
        None => own,
    }
}
