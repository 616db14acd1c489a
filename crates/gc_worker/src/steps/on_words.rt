//! A worker's next step, made on the words that all share: one function for each thing that it may be about to do. If a program has one
//! loop that steps workers, the compiler puts all of them into it, but for the steps for checkpoints.
//!
//! A machine names its step (`want`) and takes the reply (`take`). An allocation, a round, a scan and a copy for a scan make theirs
//! themselves (`step`), so they choose by their stage once.

ghost use Rattle.std.specs.Prelude.{◌≡◌};
ghost use Rattle.gc_worker.specs.Steps.Made.{MayMake, step_made};
ghost use Rattle.gc_worker.specs.Steps.Stepped.{IsAtAccess, IsAtGate, IsBeginningCheckpoint, IsCheckpointing, IsEvacuating, IsFlipping, IsForCheckpoints, IsForwarding, IsGuarding, IsOpening, IsPlacing, IsRecalling, IsAtScan, IsServing, IsSound, uncounted};

use crate::stage::Stage;
use crate::state::State;
use crate::steps::stepped::Stepped;
use atom_store::{Atoms, PlainAtoms, Step, Turn};

impl State {
    /// Makes the next step, if there is one.
    #[inline(always)]
    pub fn step(&mut self, on: &mut PlainAtoms) -> Stepped
        requires sound { IsSound self.old }
        requires may { MayMake self.old on.old }
        ensures state { self.new ≡ uncounted (step_made self.old on.old).held }
        ensures words { on.new ≡ (step_made self.old on.old).words }
        ensures tells { result ≡ (step_made self.old on.old).told }
    {
        match self.stage {
            Stage::Looks => self.look_on(on),
            Stage::Passes(..) => {
                self.pass_on(on);
                Stepped::Moved
            }
            Stage::Flips(_) => self.flip_on(on),
            Stage::Forwards(_) => {
                self.forward_on(on);
                Stepped::Moved
            }
            Stage::Accesses(_) => self.access_on(on),
            Stage::Places(_) => self.place_on(on),
            Stage::Serves(..) => self.serve_on(on),
            Stage::Scans(..) => {
                self.scan_on(on);
                Stepped::Moved
            }
            Stage::Evacuates(..) => {
                self.evacuate_on(on);
                Stepped::Moved
            }
            Stage::Opens(..) => {
                self.open_on(on);
                Stepped::Moved
            }
            Stage::Recalls(..)
            | Stage::Guards(..)
            | Stage::Checkpoints(..)
            | Stage::BeginsCheckpoint(_) => self.save_on(on),
            Stage::Gone => Stepped::Idle,
        }
    }

    fn look_on(&mut self, on: &mut PlainAtoms) -> Stepped
        requires at { self.old.stage ≡ Stage.Looks }
        requires sound { IsSound self.old }
        requires may { MayMake self.old on.old }
        ensures state { self.new ≡ uncounted (step_made self.old on.old).held }
        ensures words { on.new ≡ (step_made self.old on.old).words }
        ensures tells { result ≡ (step_made self.old on.old).told }
    {
        let reply = on.act(Step::Load(self.spaces.gate_place()));
        self.look(reply)
    }

    fn pass_on(&mut self, on: &mut PlainAtoms)
        requires at { IsAtGate self.old.stage }
        requires sound { IsSound self.old }
        requires may { MayMake self.old on.old }
        ensures state { self.new ≡ uncounted (step_made self.old on.old).held }
        ensures words { on.new ≡ (step_made self.old on.old).words }
    {
        let Stage::Passes(gate, _) = &self.stage else {
            unreachable!()
        };
        let reply = on.act(gate.want());
        self.pass(reply);
    }

    fn flip_on(&mut self, on: &mut PlainAtoms) -> Stepped
        requires at { IsFlipping self.old.stage }
        requires sound { IsSound self.old }
        requires may { MayMake self.old on.old }
        ensures state { self.new ≡ uncounted (step_made self.old on.old).held }
        ensures words { on.new ≡ (step_made self.old on.old).words }
        ensures tells { result ≡ (step_made self.old on.old).told }
    {
        let Stage::Flips(flip) = &self.stage else {
            unreachable!()
        };
        let reply = on.act(flip.want());
        self.flip(reply)
    }

    fn forward_on(&mut self, on: &mut PlainAtoms)
        requires at { IsForwarding self.old.stage }
        requires sound { IsSound self.old }
        requires may { MayMake self.old on.old }
        ensures state { self.new ≡ uncounted (step_made self.old on.old).held }
        ensures words { on.new ≡ (step_made self.old on.old).words }
    {
        let Stage::Forwards(w) = &self.stage else {
            unreachable!()
        };
        let reply = on.act(w.evac.want());
        self.forward(reply);
    }

    fn access_on(&mut self, on: &mut PlainAtoms) -> Stepped
        requires at { IsAtAccess self.old.stage }
        requires sound { IsSound self.old }
        requires may { MayMake self.old on.old }
        ensures state { self.new ≡ uncounted (step_made self.old on.old).held }
        ensures words { on.new ≡ (step_made self.old on.old).words }
        ensures tells { result ≡ (step_made self.old on.old).told }
    {
        let Stage::Accesses(access) = &self.stage else {
            unreachable!()
        };
        let reply = on.act(access.want());
        self.access(reply)
    }

    fn place_on(&mut self, on: &mut PlainAtoms) -> Stepped
        requires at { IsPlacing self.old.stage }
        requires sound { IsSound self.old }
        requires may { MayMake self.old on.old }
        ensures state { self.new ≡ uncounted (step_made self.old on.old).held }
        ensures words { on.new ≡ (step_made self.old on.old).words }
        ensures tells { result ≡ (step_made self.old on.old).told }
    {
        let Stage::Places(place) = &mut self.stage else {
            unreachable!()
        };
        match place.step(on) {
            Turn::More => self.go_on_placing(),
            Turn::Finished(allocated) => self.has_allocated(allocated),
        }
    }

    #[inline(always)]
    fn serve_on(&mut self, on: &mut PlainAtoms) -> Stepped
        requires at { IsServing self.old.stage }
        requires sound { IsSound self.old }
        requires may { MayMake self.old on.old }
        ensures state { self.new ≡ uncounted (step_made self.old on.old).held }
        ensures words { on.new ≡ (step_made self.old on.old).words }
        ensures tells { result ≡ (step_made self.old on.old).told }
    {
        let Stage::Serves(duty, _) = &mut self.stage else {
            unreachable!()
        };
        match duty.step(on) {
            Turn::More => Stepped::Moved,
            Turn::Finished(end) => {
                let epoch = duty.epoch();
                self.has_served(epoch, end)
            }
        }
    }

    #[inline(always)]
    fn scan_on(&mut self, on: &mut PlainAtoms)
        requires at { IsAtScan self.old.stage }
        requires sound { IsSound self.old }
        requires may { MayMake self.old on.old }
        ensures state { self.new ≡ uncounted (step_made self.old on.old).held }
        ensures words { on.new ≡ (step_made self.old on.old).words }
    {
        let Stage::Scans(scan, _) = &mut self.stage else {
            unreachable!()
        };
        if let Turn::Finished(scanned) = scan.step(on) {
            self.has_scanned(scanned);
        }
    }

    #[inline(always)]
    fn evacuate_on(&mut self, on: &mut PlainAtoms)
        requires at { IsEvacuating self.old.stage }
        requires sound { IsSound self.old }
        requires may { MayMake self.old on.old }
        ensures state { self.new ≡ uncounted (step_made self.old on.old).held }
        ensures words { on.new ≡ (step_made self.old on.old).words }
    {
        let Stage::Evacuates(evac, _, _) = &mut self.stage else {
            unreachable!()
        };
        if let Turn::Finished(to) = evac.step(on) {
            self.has_evacuated(to);
        }
    }

    fn open_on(&mut self, on: &mut PlainAtoms)
        requires at { IsOpening self.old.stage }
        requires sound { IsSound self.old }
        requires may { MayMake self.old on.old }
        ensures state { self.new ≡ uncounted (step_made self.old on.old).held }
        ensures words { on.new ≡ (step_made self.old on.old).words }
    {
        let Stage::Opens(open, _, _) = &self.stage else {
            unreachable!()
        };
        let reply = on.act(open.want());
        self.open(reply);
    }

    /// A step for checkpoints.
    #[inline(always)]
    fn save_on(&mut self, on: &mut PlainAtoms) -> Stepped
        requires at { IsForCheckpoints self.old.stage }
        requires sound { IsSound self.old }
        requires may { MayMake self.old on.old }
        ensures state { self.new ≡ uncounted (step_made self.old on.old).held }
        ensures words { on.new ≡ (step_made self.old on.old).words }
        ensures tells { result ≡ (step_made self.old on.old).told }
    {
        self.save_on_apart(on)
    }

    #[inline(never)]
    fn save_on_apart(&mut self, on: &mut PlainAtoms) -> Stepped
        requires at { IsForCheckpoints self.old.stage }
        requires sound { IsSound self.old }
        requires may { MayMake self.old on.old }
        ensures state { self.new ≡ uncounted (step_made self.old on.old).held }
        ensures words { on.new ≡ (step_made self.old on.old).words }
        ensures tells { result ≡ (step_made self.old on.old).told }
    {
        match self.stage {
            Stage::Recalls(..) => {
                self.recall_on(on);
                Stepped::Moved
            }
            Stage::Guards(..) => {
                self.guard_on(on);
                Stepped::Moved
            }
            Stage::Checkpoints(..) => {
                self.go_on_saving_on(on);
                Stepped::Moved
            }
            Stage::BeginsCheckpoint(_) => self.begin_checkpoint_on(on),
            _ => unreachable!(),
        }
    }

    #[inline(never)]
    fn recall_on(&mut self, on: &mut PlainAtoms)
        requires at { IsRecalling self.old.stage }
        requires sound { IsSound self.old }
        requires may { MayMake self.old on.old }
        ensures state { self.new ≡ uncounted (step_made self.old on.old).held }
        ensures words { on.new ≡ (step_made self.old on.old).words }
    {
        let Stage::Recalls(recall, _) = &self.stage else {
            unreachable!()
        };
        let reply = on.act(recall.want());
        self.recall(reply);
    }

    #[inline(never)]
    fn guard_on(&mut self, on: &mut PlainAtoms)
        requires at { IsGuarding self.old.stage }
        requires sound { IsSound self.old }
        requires may { MayMake self.old on.old }
        ensures state { self.new ≡ uncounted (step_made self.old on.old).held }
        ensures words { on.new ≡ (step_made self.old on.old).words }
    {
        let Stage::Guards(guard, _) = &self.stage else {
            unreachable!()
        };
        let reply = on.act(guard.want());
        self.guard(reply);
    }

    #[inline(never)]
    fn go_on_saving_on(&mut self, on: &mut PlainAtoms)
        requires at { IsCheckpointing self.old.stage }
        requires sound { IsSound self.old }
        requires may { MayMake self.old on.old }
        ensures state { self.new ≡ uncounted (step_made self.old on.old).held }
        ensures words { on.new ≡ (step_made self.old on.old).words }
    {
        let Stage::Checkpoints(round, _) = &self.stage else {
            unreachable!()
        };
        let reply = on.act(round.want());
        self.go_on_saving(reply);
    }

    #[inline(never)]
    fn begin_checkpoint_on(&mut self, on: &mut PlainAtoms) -> Stepped
        requires at { IsBeginningCheckpoint self.old.stage }
        requires sound { IsSound self.old }
        requires may { MayMake self.old on.old }
        ensures state { self.new ≡ uncounted (step_made self.old on.old).held }
        ensures words { on.new ≡ (step_made self.old on.old).words }
        ensures tells { result ≡ (step_made self.old on.old).told }
    {
        let Stage::BeginsCheckpoint(snap) = &self.stage else {
            unreachable!()
        };
        let reply = on.act(snap.want());
        self.begin_checkpoint(reply)
    }
}
