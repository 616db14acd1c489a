pub mod recall_stage;
pub mod recalled;

ghost use Rattle.std.specs.Prelude.{◌≡◌, ◌<◌, Some, IsTrue};
ghost use Rattle.atom_store.specs.Step.{place_in};
ghost use Rattle.gate_core.specs.Recall.{begun, wanted, taken, told, left, advances, number_in, running_of, read_snap, read_done};
ghost use Rattle.gate_core.specs.Soundness.{IsRecallGoing};
ghost use Rattle.space_map.specs.Table.{table_length};

use crate::recall::recall_stage::RecallStage;
use crate::recall::recalled::Recalled;
use atom_store::{Reply, Step, Turn};
use space_map::Spaces;
use std::marker::Model;

/// What a mutator reads of checkpoints when it begins to run: the number of the last one begun, and whether that one runs.
#[derive(Clone, Copy)]
pub struct Recall {
    spaces: Spaces,
    stage: RecallStage,
}

impl Model for Recall {
    ghost use Rattle.gate_core.specs.Recall.{Recalling};
    ghost use Rattle.gate_core.specs.Soundness.{IsSoundRecalling};

    ghost Value = { Recalling };

    ghost view = { λ r. record { layout = r.spaces; stage = r.stage } };

    ghost invariant = { λ r. IsSoundRecalling (record { layout = r.spaces; stage = r.stage }) };

    ghost inverse = { λ r. record { spaces = r.layout; stage = r.stage } };
}

impl Recall {
    pub fn new(spaces: Spaces) -> Recall
        ensures { result ≡ begun spaces }
    {
        spaces.known();
        Recall {
            spaces,
            stage: RecallStage::LoadsSnap,
        }
    }

    /// The next step.
    #[inline(always)]
    pub fn want(&self) -> Step
        requires { IsRecallGoing self.now.stage }
        ensures wanted { wanted self.now ≡ Some result }
        ensures in_table { place_in result < table_length self.now.layout.pages }
    {
        match self.stage {
            RecallStage::LoadsSnap => Step::Load(self.spaces.snap_place()),
            RecallStage::LoadsDone(_) => Step::Load(self.spaces.last_saved_place()),
            RecallStage::Ended(_) => unreachable!(),
        }
    }

    /// Takes the reply to it.
    #[inline(always)]
    pub fn take(&mut self, reply: Reply) -> Turn<Recalled>
        requires { IsRecallGoing self.old.stage }
        ensures state { self.new ≡ taken self.old reply }
        ensures tells { result ≡ told self.new }
        ensures lowers { IsTrue (advances self.old reply) → left self.new < left self.old }
    {
        match (self.stage, reply) {
            (RecallStage::LoadsSnap, Reply::Value(word)) => self.read_snap(word),
            (RecallStage::LoadsDone(number), Reply::Value(word)) => self.read_done(number, word),
            _ => Turn::More,
        }
    }

    #[inline(always)]
    fn read_snap(&mut self, word: u64) -> Turn<Recalled>
        ensures state { self.new ≡ record self.old { stage = read_snap (number_in word) } }
        ensures tells { result ≡ told self.new }
    {
        self.stage = match number_in(word) {
            Some(number) => RecallStage::LoadsDone(number),
            None => RecallStage::LoadsSnap,
        };
        Turn::More
    }

    #[inline(always)]
    fn read_done(&mut self, number: u32, word: u64) -> Turn<Recalled>
        ensures state { self.new ≡ record self.old { stage = read_done number (number_in word) } }
        ensures tells { result ≡ told self.new }
    {
        match number_in(word) {
            Some(done) => {
                let running = running_of(number, done);
                self.end(Recalled { number, running })
            }
            None => {
                self.stage = RecallStage::LoadsDone(number);
                Turn::More
            }
        }
    }

    fn end(&mut self, outcome: Recalled) -> Turn<Recalled>
        ensures state { self.new ≡ record self.old { stage = RecallStage.Ended outcome } }
        ensures tells { result ≡ told self.new }
    {
        self.stage = RecallStage::Ended(outcome);
        Turn::Finished(outcome)
    }
}

/// The number of a checkpoint that the word is, if it is one.
fn number_in(word: u64) -> Option<u32>
    ensures { result ≡ number_in word }
{
    u32::try_from(word).ok()
}

/// The checkpoint that runs, 0 if none does: the last one begun, unless it is the last one finished.
fn running_of(number: u32, done: u32) -> u32
    ensures { result ≡ running_of number done }
{
    if done == number { 0 } else { number }
}
