//! A worker's next step, and the reply to it.

ghost use Rattle.std.specs.Prelude.{◌≡◌, ◌≢◌, ◌<◌, ◌≤◌, [], IfSome, IsSome, vec_capacity};
ghost use Rattle.atom_store.specs.Step.{place_in};
ghost use Rattle.space_map.specs.declared.spaces.TheConstants.{LAST_WORKER};
ghost use Rattle.space_map.specs.Table.{whole_length};
ghost use Rattle.gc_worker.specs.declared.task.Task.TheVariants.{Calls, Stops};
ghost use Rattle.gc_worker.specs.Laws.Between.{fresh, fresh_mutator, fresh_scanner, with_task};
ghost use Rattle.gc_worker.specs.Workers.Fits.{Takes};
ghost use Rattle.gc_worker.specs.Workers.Held.{at_stage};
ghost use Rattle.gc_worker.specs.Steps.Stepped.{HasRoomToPrint, MayExecute, IsCollecting, IsForCheckpoints, IsSound, stepped_by, uncounted};
ghost use Rattle.gc_worker.specs.Steps.Turned.{told, turned};
ghost use Rattle.gc_worker.specs.Steps.Wanted.{wanted};

use crate::stage::Stage;
use crate::stage::after::After;
use crate::stage::back::Back;
use crate::state::State;
use crate::steps::stepped::Stepped;
use crate::task::due::Due;
use atom_store::{Reply, Step};
use fault_duty::Duty;
use gate_core::Gate;
use mutator_asm::Instr;
use plain_state::{End, REGISTERS};
use space_map::Spaces;

impl State {
    /// A mutator that is about to come to a heap.
    pub fn mutator(
        spaces: Spaces,
        number: u8,
        mutators: u8,
        prints: bool,
        printed: Vec<u64>,
    ) -> State
        requires room { HasRoomToPrint prints number mutators (vec_capacity printed) }
        requires empty { printed.items ≡ [] }
        ensures { result ≡ fresh_mutator prints spaces mutators number }
    {
        let stage = Stage::Passes(Gate::attach(spaces), After::Looks);
        State::new(spaces, number, mutators, prints, printed, stage)
    }

    /// A scanner before its first round.
    pub fn scanner(
        spaces: Spaces,
        number: u8,
        mutators: u8,
        prints: bool,
        printed: Vec<u64>,
    ) -> State
        requires few { number ≤ LAST_WORKER }
        requires room { HasRoomToPrint prints number mutators (vec_capacity printed) }
        requires empty { printed.items ≡ [] }
        ensures { result ≡ fresh_scanner prints spaces mutators number }
    {
        let duty = Duty::scanner(spaces, number, mutators);
        State::new(
            spaces,
            number,
            mutators,
            prints,
            printed,
            Stage::Serves(duty, Back::ToScanner),
        )
    }

    /// A worker before its first step, which is about to do this.
    fn new(
        spaces: Spaces,
        number: u8,
        mutators: u8,
        prints: bool,
        printed: Vec<u64>,
        stage: Stage,
    ) -> State
        requires room { HasRoomToPrint prints number mutators (vec_capacity printed) }
        requires empty { printed.items ≡ [] }
        ensures { result ≡ at_stage (fresh prints spaces mutators number) stage }
    {
        State {
            number,
            spaces,
            mutators,
            prints,
            epoch: 0,
            begun: 0,
            snap: 0,
            running: 0,
            registers: [0; REGISTERS],
            counter: 0,
            serial: 0,
            printed,
            end: None,
            run: None,
            due: Due::Nothing,
            instr: Instr::Halt,
            stop: End::Halt,
            stage,
        }
    }

    /// The task is an instruction.
    pub fn begin(&mut self, instr: Instr)
        requires { MayExecute self.old.prints instr }
        ensures { self.new ≡ with_task self.old (Calls instr) }
    {
        self.instr = instr;
        self.due = Due::Call;
    }

    /// The task is an end.
    pub fn begin_end(&mut self, end: End)
        ensures { self.new ≡ with_task self.old (Stops end) }
    {
        self.due = Due::Stop;
        self.stop = end;
    }

    /// The next step.
    #[inline(always)]
    pub fn want(&self) -> Option<Step>
        requires { IsSound self.now }
        ensures wanted { result ≡ wanted self.now }
        ensures in_table { IfSome result (λ step. place_in step < whole_length self.now.layout) }
    {
        match &self.stage {
            Stage::Looks => Some(Step::Load(self.spaces.gate_place())),
            Stage::Accesses(access) => Some(access.want()),
            Stage::Places(place) => Some(place.want()),
            Stage::Gone => None,
            _ => self.want_apart(),
        }
    }

    /// The next step of the collector. It stands apart for its size.
    #[inline(never)]
    fn want_apart(&self) -> Option<Step>
        requires at { IsCollecting self.now.stage }
        requires sound { IsSound self.now }
        ensures wanted { result ≡ wanted self.now }
        ensures in_table { IfSome result (λ step. place_in step < whole_length self.now.layout) }
    {
        match &self.stage {
            Stage::Passes(gate, _) => Some(gate.want()),
            Stage::Flips(flip) => Some(flip.want()),
            Stage::Forwards(w) => Some(w.evac.want()),
            Stage::Serves(duty, _) => Some(duty.want()),
            Stage::Scans(scan, _) => Some(scan.want()),
            Stage::Evacuates(evac, _, _) => Some(evac.want()),
            Stage::Opens(open, _, _) => Some(open.want()),
            Stage::Recalls(recall, _) => Some(recall.want()),
            Stage::Guards(guard, _) => Some(guard.want()),
            Stage::Checkpoints(round, _) => Some(round.want()),
            Stage::BeginsCheckpoint(snap) => Some(snap.want()),
            Stage::Looks | Stage::Accesses(_) | Stage::Places(_) | Stage::Gone => unreachable!(),
        }
    }

    /// Takes the reply to the step that it wants, if that is no look. `Site` is the place of the call.
    pub fn take<Site>(&mut self, reply: Reply) -> Stepped
        requires wants { IsSome (wanted self.old) }
        requires no_look { self.old.stage ≢ Stage.Looks }
        requires sound { IsSound self.old }
        requires takes { Takes self.old reply }
        requires fits { IsSound (turned self.old reply) }
        ensures state { self.new ≡ uncounted (turned self.old reply) }
        ensures tells { result ≡ stepped_by self.old.number (told self.old reply) }
    {
        match self.stage {
            Stage::Accesses(_) => self.access(reply),
            Stage::Places(_) => self.place(reply),
            _ => self.collect(reply),
        }
    }

    /// A step of the collector: any but a look and the steps of an access or an allocation.
    #[inline(always)]
    fn collect(&mut self, reply: Reply) -> Stepped
        requires at { IsCollecting self.old.stage }
        requires sound { IsSound self.old }
        requires takes { Takes self.old reply }
        requires fits { IsSound (turned self.old reply) }
        ensures state { self.new ≡ uncounted (turned self.old reply) }
        ensures tells { result ≡ stepped_by self.old.number (told self.old reply) }
    {
        self.collect_apart(reply)
    }

    /// It is not inlined, so that the rest is small enough to be put into the act of a thread.
    #[inline(never)]
    fn collect_apart(&mut self, reply: Reply) -> Stepped
        requires at { IsCollecting self.old.stage }
        requires sound { IsSound self.old }
        requires takes { Takes self.old reply }
        requires fits { IsSound (turned self.old reply) }
        ensures state { self.new ≡ uncounted (turned self.old reply) }
        ensures tells { result ≡ stepped_by self.old.number (told self.old reply) }
    {
        match self.stage {
            Stage::Passes(..) => {
                self.pass(reply);
                Stepped::Moved
            }
            Stage::Flips(_) => self.flip(reply),
            Stage::Forwards(_) => {
                self.forward(reply);
                Stepped::Moved
            }
            Stage::Serves(..) => self.serve(reply),
            Stage::Scans(..) => {
                self.scan(reply);
                Stepped::Moved
            }
            Stage::Evacuates(..) => {
                self.evacuate(reply);
                Stepped::Moved
            }
            Stage::Opens(..) => {
                self.open(reply);
                Stepped::Moved
            }
            Stage::Recalls(..)
            | Stage::Guards(..)
            | Stage::Checkpoints(..)
            | Stage::BeginsCheckpoint(_) => self.save(reply),
            Stage::Looks | Stage::Accesses(_) | Stage::Places(_) | Stage::Gone => unreachable!(),
        }
    }

    /// A step for checkpoints. Few runs make one, so it stands apart.
    #[inline(never)]
    fn save(&mut self, reply: Reply) -> Stepped
        requires at { IsForCheckpoints self.old.stage }
        requires sound { IsSound self.old }
        requires takes { Takes self.old reply }
        requires fits { IsSound (turned self.old reply) }
        ensures state { self.new ≡ uncounted (turned self.old reply) }
        ensures tells { result ≡ stepped_by self.old.number (told self.old reply) }
    {
        match self.stage {
            Stage::Recalls(..) => {
                self.recall(reply);
                Stepped::Moved
            }
            Stage::Guards(..) => {
                self.guard(reply);
                Stepped::Moved
            }
            Stage::Checkpoints(..) => {
                self.go_on_saving(reply);
                Stepped::Moved
            }
            Stage::BeginsCheckpoint(_) => self.begin_checkpoint(reply),
            _ => unreachable!(),
        }
    }
}
