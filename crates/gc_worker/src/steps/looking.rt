//! The look at the gate that begins an instruction.

ghost use Rattle.std.specs.Prelude.{◌≡◌, ◌≤◌, true, nat_lt};
ghost use Rattle.space_map.specs.declared.spaces.TheConstants.{LAST_WORKER};
ghost use Rattle.space_map.specs.GateWord.{decode_gate};
ghost use Rattle.gc_worker.specs.Workers.Fits.{FitsStage, MayBegin};
ghost use Rattle.gc_worker.specs.Steps.Stepped.{IsSound, stepped_by, uncounted};
ghost use Rattle.gc_worker.specs.Steps.Turned.{looked_by, started, told, told_gate, told_start, turned};

use crate::stage::Stage;
use crate::stage::after::After;
use crate::state::State;
use crate::steps::stepped::Stepped;
use crate::task::due::Due;
use atom_store::Reply;
use gate_core::Gate;
use space_map::GateWord;

impl State {
    /// The gate was looked at.
    #[inline(always)]
    pub fn look(&mut self, reply: Reply) -> Stepped
        requires at { self.old.stage ≡ Stage.Looks }
        requires fits { IsSound self.old }
        requires after { IsSound (turned self.old reply) }
        ensures state { self.new ≡ uncounted (turned self.old reply) }
        ensures tells { result ≡ stepped_by self.old.number (told self.old reply) }
    {
        self.known();
        match reply {
            Reply::Value(word) => self.looked(word),
            Reply::Done | Reply::Won | Reply::Lost(_) => Stepped::Moved,
        }
    }

    #[inline(always)]
    fn looked(&mut self, word: u64) -> Stepped
        requires at { self.old.stage ≡ Stage.Looks }
        requires is_mutator { nat_lt self.old.number self.old.mutators ≡ true }
        requires few { self.old.number ≤ LAST_WORKER }
        requires may_begin { MayBegin self.old.account self.old.registers self.old.task }
        requires after { FitsStage (looked_by self.old (decode_gate word)) (looked_by self.old (decode_gate word)).stage }
        ensures state { self.new ≡ uncounted (looked_by self.old (decode_gate word)) }
        ensures tells { result ≡ stepped_by self.old.number (told_gate self.old (decode_gate word)) }
    {
        self.known();
        match GateWord::read(word) {
            Some(gate) if gate.request => {
                self.stage = Stage::Passes(Gate::park(self.spaces), After::Looks);
                Stepped::Moved
            }
            Some(_) => self.start(),
            None => Stepped::Moved,
        }
    }

    /// The task begins, if there is one.
    #[inline(always)]
    fn start(&mut self) -> Stepped
        requires at { self.old.stage ≡ Stage.Looks }
        requires is_mutator { nat_lt self.old.number self.old.mutators ≡ true }
        requires few { self.old.number ≤ LAST_WORKER }
        requires may_begin { MayBegin self.old.account self.old.registers self.old.task }
        requires after { FitsStage (started self.old self.old.task) (started self.old self.old.task).stage }
        ensures state { self.new ≡ uncounted (started self.old self.old.task) }
        ensures tells { result ≡ stepped_by self.old.number (told_start self.old self.old.task) }
    {
        match self.due {
            Due::Nothing => Stepped::Moved,
            Due::Call => {
                self.begun = self.epoch;
                self.execute()
            }
            Due::Stop => {
                let stop = self.stop;
                self.begun = self.epoch;
                self.end_with(stop)
            }
        }
    }
}
