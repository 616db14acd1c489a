pub mod snap_stage;
pub mod snapped;

ghost use Rattle.std.specs.Prelude.{◌≡◌, ◌+◌, ◌^◌, ◌<◌, Some, IsTrue};
ghost use Rattle.atom_store.specs.Step.{place_in};
ghost use Rattle.space_map.specs.GateWord.{decode_gate};
ghost use Rattle.gate_core.specs.Snap.{begun, wanted, taken, told, left, advances, looked};
ghost use Rattle.gate_core.specs.Soundness.{IsSnappingGoing, FitsSnapped};
ghost use Rattle.space_map.specs.Table.{table_length};

use crate::snap::snap_stage::SnapStage;
use crate::snap::snapped::Snapped;
use atom_store::{Reply, Step, Turn};
use space_map::{GateWord, Spaces};
use std::marker::Model;

/// The beginning of a checkpoint, by the mutator that requested it.
#[derive(Clone, Copy)]
pub struct Snap {
    spaces: Spaces,
    number: u32,
    stage: SnapStage,
}

impl Model for Snap {
    ghost use Rattle.gate_core.specs.Snap.{Snapping};
    ghost use Rattle.gate_core.specs.Soundness.{IsSoundSnapping};

    ghost Value = { Snapping };

    ghost view = { λ s. record { layout = s.spaces; number = s.number; stage = s.stage } };

    ghost invariant = { λ s. IsSoundSnapping (record { layout = s.spaces; number = s.number; stage = s.stage }) };

    ghost inverse = { λ s. record { spaces = s.layout; number = s.number; stage = s.stage } };
}

impl Snap {
    /// The beginning of the checkpoint after that of this number, which was the last one.
    pub fn new(spaces: Spaces, number: u32) -> Snap
        requires { number + 1 < 2 ^ 32 }
        ensures { result ≡ begun spaces number }
    {
        spaces.known();
        Snap {
            spaces,
            number,
            stage: SnapStage::LoadsGate,
        }
    }

    /// The number of the last checkpoint.
    pub fn number(&self) -> u32
        ensures number { result ≡ self.now.number }
        ensures not_the_last { result + 1 < 2 ^ 32 }
    {
        self.number
    }

    /// The next step.
    #[inline(always)]
    pub fn want(&self) -> Step
        requires { IsSnappingGoing self.now.stage }
        ensures wanted { wanted self.now ≡ Some result }
        ensures in_table { place_in result < table_length self.now.layout.pages }
    {
        match self.stage {
            SnapStage::LoadsGate => Step::Load(self.spaces.gate_place()),
            SnapStage::ExchangesSnap(_) => Step::Exchange(
                self.spaces.snap_place(),
                u64::from(self.number),
                u64::from(self.number + 1),
            ),
            SnapStage::Ended(_) => unreachable!(),
        }
    }

    /// Takes the reply to it.
    #[inline(always)]
    pub fn take(&mut self, reply: Reply) -> Turn<Snapped>
        requires { IsSnappingGoing self.old.stage }
        ensures state { self.new ≡ taken self.old reply }
        ensures tells { result ≡ told self.new }
        ensures lowers { IsTrue (advances self.old reply) → left self.new < left self.old }
    {
        match (self.stage, reply) {
            (SnapStage::LoadsGate, Reply::Value(word)) => self.read_gate(word),
            (SnapStage::ExchangesSnap(gate), Reply::Won) => self.end(Snapped::Begun(gate)),
            _ => Turn::More,
        }
    }

    #[inline(always)]
    fn read_gate(&mut self, word: u64) -> Turn<Snapped>
        ensures state { self.new ≡ record self.old { stage = looked word (decode_gate word) } }
        ensures tells { result ≡ told self.new }
    {
        match GateWord::read(word) {
            Some(gate) if gate.running == 0 => {
                self.stage = SnapStage::ExchangesSnap(gate);
                Turn::More
            }
            Some(_) => self.end(Snapped::NotYet(word)),
            None => {
                self.stage = SnapStage::LoadsGate;
                Turn::More
            }
        }
    }

    fn end(&mut self, outcome: Snapped) -> Turn<Snapped>
        requires { FitsSnapped outcome }
        ensures state { self.new ≡ record self.old { stage = SnapStage.Ended outcome } }
        ensures tells { result ≡ told self.new }
    {
        self.stage = SnapStage::Ended(outcome);
        Turn::Finished(outcome)
    }
}
