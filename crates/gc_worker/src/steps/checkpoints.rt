//! What a worker does for checkpoints: it reads which one is in progress, makes rounds for it, and begins one.

ghost use Rattle.std.specs.Prelude.{◌≡◌, ◌+◌, ◌^◌, ◌<◌, ◌≤◌, true};
ghost use Rattle.space_map.specs.declared.spaces.TheConstants.{LAST_WORKER};
ghost use Rattle.gate_core.specs.Snap.{begun};
ghost use Rattle.gc_worker.specs.declared.stage.Stage.TheVariants.{BeginsCheckpoint};
ghost use Rattle.gc_worker.specs.declared.task.Task.{Task};
ghost use Rattle.gc_worker.specs.Workers.Fits.{Takes};
ghost use Rattle.gc_worker.specs.Workers.Held.{at_stage, may_snap};
ghost use Rattle.gc_worker.specs.Steps.Stepped.{IsBeginningCheckpoint, IsCheckpointing, IsRecalling, IsSound, stepped_by, uncounted};
ghost use Rattle.gc_worker.specs.Steps.Turned.{checkpoints, rounded, serves_snap, snaps, told, told_action, turned};
ghost use Rattle.plain_heap.specs.declared.action.Action.TheVariants.{Snaps};

use crate::stage::Stage;
use crate::stage::after::After;
use crate::stage::back::Back;
use crate::stage::goal::Goal;
use crate::state::State;
use crate::steps::stepped::Stepped;
use atom_store::{Reply, Turn};
use fault_duty::Duty;
use gate_core::{Gate, Snap, Snapped};
use page_saves::{SaveRound, SaveRoundEnd};

impl State {
    /// Whether checkpoints can be begun, and there is a number for one more.
    pub fn may_snap(&self) -> bool
        ensures { result ≡ may_snap self.now }
    {
        self.spaces.has_checkpoints() && self.snap < u32::MAX
    }

    /// `snap`: if no checkpoint can be begun, it has no effect on the words.
    #[inline(always)]
    pub fn snap(&mut self) -> Stepped
        requires at { self.old.stage ≡ Stage.Looks }
        requires number { self.old.number ≤ LAST_WORKER }
        ensures state { self.new ≡ uncounted (snaps self.old) }
        ensures tells { (task : Task) → result ≡ stepped_by self.old.number (told_action self.old task Snaps) }
    {
        self.snap_apart()
    }

    #[inline(never)]
    fn snap_apart(&mut self) -> Stepped
        requires at { self.old.stage ≡ Stage.Looks }
        requires number { self.old.number ≤ LAST_WORKER }
        ensures state { self.new ≡ uncounted (snaps self.old) }
        ensures tells { (task : Task) → result ≡ stepped_by self.old.number (told_action self.old task Snaps) }
    {
        self.known();
        if self.may_snap() {
            self.serve_snap();
            Stepped::Moved
        } else {
            self.go_on()
        }
    }

    /// A round of the duty begins, before a checkpoint does.
    pub fn serve_snap(&mut self)
        requires { self.old.number ≤ LAST_WORKER }
        ensures { self.new ≡ at_stage self.old (serves_snap self.old) }
    {
        let duty = Duty::new(self.spaces, None, self.epoch, self.number);
        self.stage = Stage::Serves(duty, Back::ToSnap);
    }

    /// A step of the reading of which checkpoint is in progress.
    #[inline(never)]
    pub fn recall(&mut self, reply: Reply)
        requires at { IsRecalling self.old.stage }
        requires fits { IsSound self.old }
        requires takes { Takes self.old reply }
        requires after { IsSound (turned self.old reply) }
        ensures { self.new ≡ uncounted (turned self.old reply) }
    {
        let Stage::Recalls(recall, after) = &mut self.stage else {
            unreachable!()
        };
        let after = *after;
        if let Turn::Finished(recalled) = recall.take(reply) {
            self.snap = recalled.number;
            self.running = recalled.running;
            self.go_on_with(after);
        }
    }

    /// A round for the checkpoint in progress begins.
    #[inline(never)]
    pub fn checkpoint(&mut self, goal: Goal)
        requires room { self.old.layout.checkpoints ≡ true }
        requires number { self.old.number ≤ LAST_WORKER }
        ensures { self.new ≡ at_stage self.old (checkpoints self.old goal) }
    {
        let round = match goal {
            Goal::ForScanner => SaveRound::of_scanner(self.spaces, self.mutators, self.number),
            Goal::ForFlip | Goal::ForSnap => {
                SaveRound::of_mutator(self.spaces, self.epoch, self.number)
            }
        };
        self.stage = Stage::Checkpoints(round, goal);
    }

    /// A step of such a round.
    #[inline(never)]
    pub fn go_on_saving(&mut self, reply: Reply)
        requires at { IsCheckpointing self.old.stage }
        requires fits { IsSound self.old }
        requires takes { Takes self.old reply }
        requires after { IsSound (turned self.old reply) }
        ensures { self.new ≡ uncounted (turned self.old reply) }
    {
        let Stage::Checkpoints(round, goal) = &mut self.stage else {
            unreachable!()
        };
        let goal = *goal;
        if let Turn::Finished(end) = round.take(reply) {
            self.has_rounded(goal, end);
        }
    }

    /// What the round comes to: a scanner goes on with its duty, and a mutator requests what it wants, if no checkpoint is in
    /// progress, or makes another round.
    fn has_rounded(&mut self, goal: Goal, end: SaveRoundEnd)
        requires room { self.old.layout.checkpoints ≡ true }
        requires number { self.old.number ≤ LAST_WORKER }
        ensures { self.new ≡ at_stage self.old (rounded self.old goal end) }
    {
        let after = match (goal, end) {
            (Goal::ForScanner, _) => {
                let duty = Duty::scanner(self.spaces, self.number, self.mutators);
                self.stage = Stage::Serves(duty, Back::ToScanner);
                return;
            }
            (Goal::ForFlip, SaveRoundEnd::NoneRuns(_)) => After::Places,
            (Goal::ForSnap, SaveRoundEnd::NoneRuns(_)) => After::Snaps,
            (Goal::ForFlip | Goal::ForSnap, _) => return self.checkpoint(goal),
        };
        self.stage = Stage::Passes(Gate::request(self.spaces), after);
    }

    /// The checkpoint that it requested is to begin.
    pub fn beginning(&self) -> Stage
        requires { self.now.snap + 1 < 2 ^ 32 }
        ensures { result ≡ BeginsCheckpoint (begun self.now.layout self.now.snap) }
    {
        Stage::BeginsCheckpoint(Snap::new(self.spaces, self.snap))
    }

    /// A step of the beginning of a checkpoint.
    #[inline(never)]
    pub fn begin_checkpoint(&mut self, reply: Reply) -> Stepped
        requires at { IsBeginningCheckpoint self.old.stage }
        requires fits { IsSound self.old }
        requires takes { Takes self.old reply }
        requires after { IsSound (turned self.old reply) }
        ensures state { self.new ≡ uncounted (turned self.old reply) }
        ensures tells { result ≡ stepped_by self.old.number (told self.old reply) }
    {
        let Stage::BeginsCheckpoint(snap) = &mut self.stage else {
            unreachable!()
        };
        match snap.take(reply) {
            Turn::More => Stepped::Moved,
            Turn::Finished(Snapped::NotYet(_)) => {
                self.stage = self.beginning();
                Stepped::Moved
            }
            Turn::Finished(Snapped::Begun(gate)) => {
                self.stage = Stage::Looks;
                let told = self.go_on();
                self.stage = Stage::Passes(Gate::clear(self.spaces, gate), After::Looks);
                told
            }
        }
    }
}
