ghost use Rattle.std.specs.Prelude.{◌≡◌, ◌^◌, ◌<◌, Some, IsTrue};
ghost use Rattle.atom_store.specs.Step.{place_in};
ghost use Rattle.space_map.specs.declared.gate_word.GateWord.{GateWord};
ghost use Rattle.space_map.specs.GateWord.{GateFits, decode_gate, encode_gate};
ghost use Rattle.gate_core.specs.Gate.{begun, clear_begun, wanted, taken, told, left, advances, allows, allowed, gate_after, is_clear, looked};
ghost use Rattle.gate_core.specs.Soundness.{IsSoundPassing, IsPassingGoing, FitsGateStage, MayPass};
ghost use Rattle.space_map.specs.Table.{table_length};

use crate::gate_stage::GateStage;
use crate::passage::Passage;
use crate::passed::Passed;
use atom_store::{Reply, Step, Turn};
use space_map::{GateWord, Spaces};
use std::marker::Model;

/// A passage of the gate by one mutator: a load, and the exchange from the word read where that allows it.
#[derive(Clone, Copy)]
pub struct Gate {
    spaces: Spaces,
    passage: Passage,
    stage: GateStage,
}

impl Model for Gate {
    ghost use Rattle.gate_core.specs.Gate.{Passing};
    ghost use Rattle.gate_core.specs.Soundness.{IsSoundPassing};

    ghost Value = { Passing };

    ghost view = { λ g. record { layout = g.spaces; passage = g.passage; stage = g.stage } };

    ghost invariant = { λ g. IsSoundPassing (record { layout = g.spaces; passage = g.passage; stage = g.stage }) };

    ghost inverse = { λ g. record { spaces = g.layout; passage = g.passage; stage = g.stage } };
}

impl Gate {
    /// A running mutator goes on, unless something is requested.
    pub fn look(spaces: Spaces) -> Gate
        ensures { result ≡ begun spaces Passage.Look }
    {
        Gate::begin(spaces, Passage::Look)
    }

    /// A mutator comes to the heap.
    pub fn attach(spaces: Spaces) -> Gate
        ensures { result ≡ begun spaces Passage.Attach }
    {
        Gate::begin(spaces, Passage::Attach)
    }

    /// A running mutator stops for a flip or a checkpoint.
    pub fn park(spaces: Spaces) -> Gate
        ensures { result ≡ begun spaces Passage.Park }
    {
        Gate::begin(spaces, Passage::Park)
    }

    /// A running mutator requests a flip or a checkpoint, and stops.
    pub fn request(spaces: Spaces) -> Gate
        ensures { result ≡ begun spaces Passage.Request }
    {
        Gate::begin(spaces, Passage::Request)
    }

    /// A stopped mutator of this epoch runs on.
    pub fn resume(spaces: Spaces, epoch: u32) -> Gate
        ensures { result ≡ begun spaces (Passage.Resume epoch) }
    {
        Gate::begin(spaces, Passage::Resume(epoch))
    }

    /// A stopped mutator has forwarded its registers.
    pub fn forwarded(spaces: Spaces) -> Gate
        ensures { result ≡ begun spaces Passage.Forwarded }
    {
        Gate::begin(spaces, Passage::Forwarded)
    }

    /// A running mutator has its end.
    pub fn leave(spaces: Spaces) -> Gate
        ensures { result ≡ begun spaces Passage.Leave }
    {
        Gate::begin(spaces, Passage::Leave)
    }

    /// A mutator that began a checkpoint when it saw this gate clears the request.
    pub fn clear(spaces: Spaces, gate: GateWord) -> Gate
        requires { GateFits gate }
        ensures { result ≡ clear_begun spaces gate }
    {
        spaces.known();
        Gate {
            spaces,
            passage: Passage::Clear,
            stage: GateStage::Exchanges(gate),
        }
    }

    fn begin(spaces: Spaces, passage: Passage) -> Gate
        ensures { result ≡ begun spaces passage }
    {
        spaces.known();
        Gate {
            spaces,
            passage,
            stage: GateStage::Loads,
        }
    }

    /// Which passage it is.
    pub fn passage(&self) -> Passage
        ensures { result ≡ self.now.passage }
    {
        self.passage
    }

    /// The next step.
    #[inline(always)]
    pub fn want(&self) -> Step
        requires { IsPassingGoing self.now.stage }
        ensures wanted { wanted self.now ≡ Some result }
        ensures in_table { place_in result < table_length self.now.layout.pages }
    {
        let place = self.spaces.gate_place();
        match self.stage {
            GateStage::Loads => Step::Load(place),
            GateStage::Exchanges(gate) => {
                Step::Exchange(place, gate.pack(), after(self.passage, gate).pack())
            }
            GateStage::Ended(_) => unreachable!(),
        }
    }

    /// Takes the reply to it.
    #[inline(always)]
    pub fn take(&mut self, reply: Reply) -> Turn<Passed>
        requires going { IsPassingGoing self.old.stage }
        requires allowed { IsSoundPassing (taken self.old reply) }
        ensures state { self.new ≡ taken self.old reply }
        ensures tells { result ≡ told self.new }
        ensures lowers { IsTrue (advances self.old reply) → left self.new < left self.old }
    {
        match (self.stage, reply) {
            (GateStage::Loads, Reply::Value(word)) => self.read_gate(word),
            (GateStage::Exchanges(gate), Reply::Won) => self.go_through(gate),
            (GateStage::Exchanges(_), Reply::Lost(_)) => {
                self.stage = GateStage::Loads;
                Turn::More
            }
            _ => Turn::More,
        }
    }

    #[inline(always)]
    fn read_gate(&mut self, word: u64) -> Turn<Passed>
        requires { FitsGateStage self.old.passage (looked self.old.passage word (decode_gate word)) }
        ensures state { self.new ≡ record self.old { stage = looked self.old.passage word (decode_gate word) } }
        ensures tells { result ≡ told self.new }
    {
        match GateWord::read(word) {
            Some(gate) if is_allowed(self.passage, gate) => self.pass(word, gate),
            Some(_) => self.end(Passed::NotYet(word)),
            None => {
                self.stage = GateStage::Loads;
                Turn::More
            }
        }
    }

    /// Goes on from a gate that allows the passage.
    #[inline(always)]
    fn pass(&mut self, word: u64, gate: GateWord) -> Turn<Passed>
        requires { FitsGateStage self.old.passage (allowed self.old.passage word gate) }
        ensures state { self.new ≡ record self.old { stage = allowed self.old.passage word gate } }
        ensures tells { result ≡ told self.new }
    {
        if self.passage == Passage::Look {
            return self.end(Passed::Went(word));
        }
        self.stage = GateStage::Exchanges(gate);
        Turn::More
    }

    fn go_through(&mut self, gate: GateWord) -> Turn<Passed>
        requires { MayPass self.old.passage gate }
        ensures state { self.new ≡ record self.old { stage = GateStage.Ended (Passed.Went (encode_gate (gate_after self.old.passage gate))) } }
        ensures tells { result ≡ told self.new }
    {
        let now = after(self.passage, gate).pack();
        self.end(Passed::Went(now))
    }

    fn end(&mut self, outcome: Passed) -> Turn<Passed>
        ensures state { self.new ≡ record self.old { stage = GateStage.Ended outcome } }
        ensures tells { result ≡ told self.new }
    {
        self.stage = GateStage::Ended(outcome);
        Turn::Finished(outcome)
    }
}

/// Whether the gate allows the passage.
fn is_allowed(passage: Passage, gate: GateWord) -> bool
    ensures { result ≡ allows passage gate }
{
    match passage {
        Passage::Attach => is_clear(gate),
        Passage::Park => gate.request,
        Passage::Look | Passage::Request => !gate.request,
        Passage::Resume(epoch) => is_clear(gate) && gate.epoch == epoch,
        Passage::Forwarded | Passage::Leave | Passage::Clear => true,
    }
}

/// Whether nothing is requested, and no mutator is behind.
fn is_clear(gate: GateWord) -> bool
    ensures { result ≡ is_clear gate }
{
    !gate.request && gate.behind == 0
}

/// The gate after the passage.
fn after(passage: Passage, gate: GateWord) -> GateWord
    requires { MayPass passage gate }
    ensures gate { result ≡ gate_after passage gate }
    ensures fits { result.left < 2 ^ 5 }
{
    match passage {
        Passage::Look => gate,
        Passage::Attach => GateWord {
            live: gate.live + 1,
            running: gate.running + 1,
            ..gate
        },
        Passage::Park => GateWord {
            running: gate.running - 1,
            ..gate
        },
        Passage::Request => GateWord {
            running: gate.running - 1,
            request: true,
            ..gate
        },
        Passage::Resume(_) => GateWord {
            running: gate.running + 1,
            ..gate
        },
        Passage::Forwarded => GateWord {
            behind: gate.behind - 1,
            ..gate
        },
        Passage::Leave => GateWord {
            live: gate.live - 1,
            running: gate.running - 1,
            left: gate.left + 1,
            ..gate
        },
        Passage::Clear => GateWord {
            request: false,
            ..gate
        },
    }
}
