ghost use Rattle.std.specs.Prelude.{◌≡◌, ◌≢◌, ◌≤◌, ◌<◌, Some, None, IfOk, IfSome, IsSome, is_some};
ghost use Rattle.atom_store.specs.Step.{place_in};
ghost use Rattle.space_map.specs.declared.spaces.TheConstants.{LAST_WORKER, MOST_MUTATORS};
ghost use Rattle.space_map.specs.Table.{whole_length};
ghost use Rattle.gc_worker.specs.declared.task.Task.TheVariants.{Calls, Stops};
ghost use Rattle.gc_worker.specs.Laws.Between.{IsIdle, fresh_mutator, fresh_scanner, with_task};
ghost use Rattle.gc_worker.specs.Workers.Fits.{MayBegin, MayStop, Takes};
ghost use Rattle.gc_worker.specs.Steps.AtRest.{is_at_rest};
ghost use Rattle.gc_worker.specs.Steps.Made.{MayMake, step_made};
ghost use Rattle.gc_worker.specs.Steps.Stepped.{IsSound, MayExecute, awaits, header_kept, place_kept, stepped_by, uncounted};
ghost use Rattle.gc_worker.specs.Steps.Turned.{told, turned};
ghost use Rattle.gc_worker.specs.Steps.Wanted.{wanted};

use crate::stage::Stage;
use crate::stage::back::Back;
use crate::state::State;
use crate::steps::stepped::Stepped;
use crate::task::due::Due;
use atom_store::{NoMemory, PlainAtoms, Reply, Step};
use mutator_asm::Instr;
use plain_state::{End, MOST_PRINTED, REGISTERS};
use space_map::Spaces;
use std::alloc::Global;
use std::fmt;
use std::marker::Model;

/// One worker of the collected heap. It names its next step and takes the reply; who has the words makes the step.
#[derive(Drop)]
pub struct Worker {
    pub(crate) state: State,
}

impl Model for Worker {
    ghost use Rattle.gc_worker.specs.Workers.Held.{Held};
    ghost use Rattle.gc_worker.specs.Steps.Stepped.{IsSound};

    ghost Value = { Held };

    ghost view = { λ w. w.state };

    ghost invariant = { λ w. IsSound w.state };
}

/// Shows which worker it is and where it has come to, and neither its registers nor its stage.
impl fmt::Debug for Worker {
    fn fmt<W: fmt::Write>(&self, f: &mut fmt::Formatter<W>) -> fmt::Result {
        f.debug_struct("Worker")
            .field("number", &self.state.number)
            .field("epoch", &self.state.epoch)
            .field("counter", &self.state.counter)
            .field("end", &self.state.end)
            .finish_non_exhaustive()
    }
}

impl Worker {
    /// A mutator that is about to come to a heap. If it may print, the room for the most numbers is taken here, and else none.
    pub fn mutator(
        alloc: Global,
        spaces: Spaces,
        number: u8,
        mutators: u8,
        prints: bool,
    ) -> Result<Worker, NoMemory>
        requires number { number < mutators }
        requires few { mutators ≤ MOST_MUTATORS }
        ensures { IfOk result (λ worker. worker ≡ fresh_mutator prints spaces mutators number) }
    {
        spaces.known();
        let printed = if prints {
            Vec::with_capacity(alloc, MOST_PRINTED)?
        } else {
            Vec::new(alloc)
        };
        let state = State::mutator(spaces, number, mutators, prints, printed);
        Ok(Worker { state })
    }

    /// A scanner before its first round, of a heap whose mutators may print, or may not.
    pub fn scanner(alloc: Global, spaces: Spaces, number: u8, mutators: u8, prints: bool) -> Worker
        requires number { mutators ≤ number }
        requires few { number ≤ LAST_WORKER }
        ensures { result ≡ fresh_scanner prints spaces mutators number }
    {
        spaces.known();
        let state = State::scanner(spaces, number, mutators, prints, Vec::new(alloc));
        Worker { state }
    }

    /// The look at the gate that begins an instruction, if it is about to make one.
    #[inline(always)]
    pub fn want_look(&self) -> Option<Step>
        ensures wanted { IfSome result (λ step. (self.now.stage ≡ Stage.Looks) × (wanted self.now ≡ Some step)) }
        ensures none { result ≡ None → self.now.stage ≢ Stage.Looks }
    {
        match self.state.stage {
            Stage::Looks => Some(Step::Load(self.state.spaces.gate_place())),
            _ => None,
        }
    }

    /// Takes the reply to it.
    #[tactic(auto, using(crate::proofs::Workers::Sound::uncounted_are_sound))]
    #[inline(always)]
    pub fn take_look(&mut self, reply: Reply) -> Stepped
        requires looks { self.old.stage ≡ Stage.Looks }
        requires fits { IsSound (turned self.old reply) }
        ensures state { self.new ≡ uncounted (turned self.old reply) }
        ensures tells { result ≡ stepped_by self.old.number (told self.old reply) }
    {
        self.state.look(reply)
    }

    /// The next step. A mutator that has left has none, and neither has a scanner that has seen all leave.
    #[inline(always)]
    pub fn want(&self) -> Option<Step>
        ensures wanted { result ≡ wanted self.now }
        ensures in_table { IfSome result (λ step. place_in step < whole_length self.now.layout) }
    {
        self.state.want()
    }

    /// Takes the reply to it, if it is another than the look that begins an instruction, for which there is `take_look`.
    ///
    /// `Site` is the place of the call. Each has a function of its own, and one that is called at one place alone the compiler puts into
    /// its caller, however large it is.
    #[tactic(auto, using(crate::proofs::Workers::Sound::uncounted_are_sound))]
    pub fn take<Site>(&mut self, reply: Reply) -> Stepped
        requires wants { IsSome (wanted self.old) }
        requires no_look { self.old.stage ≢ Stage.Looks }
        requires takes { Takes self.old reply }
        requires fits { IsSound (turned self.old reply) }
        ensures state { self.new ≡ uncounted (turned self.old reply) }
        ensures tells { result ≡ stepped_by self.old.number (told self.old reply) }
    {
        self.state.take::<Site>(reply)
    }

    /// Makes the next step on these words, if it has one. This is the same as taking the reply to what it wants.
    #[inline(always)]
    pub fn step(&mut self, on: &mut PlainAtoms) -> Stepped
        requires may { MayMake self.old on.old }
        ensures state { self.new ≡ uncounted (step_made self.old on.old).held }
        ensures words { on.new ≡ (step_made self.old on.old).words }
        ensures tells { result ≡ (step_made self.old on.old).told }
    {
        self.state.step(on)
    }

    /// Whether it looks at the gate, and has no task.
    pub fn awaits(&self) -> bool
        ensures { result ≡ awaits self.now }
    {
        match self.state.stage {
            Stage::Looks => self.state.due == Due::Nothing,
            _ => false,
        }
    }

    /// Whether nobody waits for it but at the gate: a mutator looks there and has no task, a scanner begins a round, or it is gone.
    pub fn is_at_rest(&self) -> bool
        ensures { result ≡ is_at_rest self.now }
    {
        match &self.state.stage {
            Stage::Looks => self.state.due == Due::Nothing,
            Stage::Serves(duty, Back::ToScanner) => duty.is_first(),
            Stage::Gone => true,
            _ => false,
        }
    }

    /// Whether it has a task that it has not answered.
    pub fn is_calling(&self) -> bool
        ensures { result ≡ is_some self.now.task }
    {
        self.state.due != Due::Nothing
    }

    /// Its number among the workers: the mutators come first.
    pub fn number(&self) -> u8
        ensures { result ≡ self.now.number }
    {
        self.state.number
    }

    /// An instruction, which the next look at the gate begins. It is `out` only if the heap's mutators may print.
    #[tactic(auto, using(crate::proofs::Workers::Sound::begun_are_sound))]
    pub fn begin(&mut self, instr: &Instr)
        requires idle { IsIdle self.old }
        requires may_begin { MayBegin self.old.account self.old.registers (Some (Calls instr.now)) }
        requires may_execute { MayExecute self.old.prints instr.now }
        ensures { self.new ≡ with_task self.old (Calls instr.now) }
    {
        self.state.begin(*instr);
    }

    /// An end in place of an instruction.
    #[tactic(auto, using(crate::proofs::Workers::Sound::begun_are_sound))]
    pub fn begin_end(&mut self, end: End)
        requires idle { IsIdle self.old }
        requires may_stop { MayStop end }
        ensures { self.new ≡ with_task self.old (Stops end) }
    {
        self.state.begin_end(end);
    }

    /// The words in its registers.
    pub fn regs(&self) -> [u64; REGISTERS]
        ensures { result ≡ self.now.registers }
    {
        self.state.registers
    }

    /// Whether the heap's mutators may print.
    pub fn prints(&self) -> bool
        ensures { result ≡ self.now.prints }
    {
        self.state.prints
    }

    /// The numbers that it has printed.
    pub fn outputs(&self) -> &[u64]
        ensures { result.now ≡ self.now.account.printed }
    {
        self.state.printed.as_slice()
    }

    /// Its end, if it has one.
    pub fn ended(&self) -> Option<End>
        ensures { result ≡ self.now.account.end }
    {
        self.state.end
    }

    /// The serial of its latest record.
    pub fn serial(&self) -> u64
        ensures { result ≡ self.now.account.serial }
    {
        self.state.serial
    }

    pub fn epoch(&self) -> u32
        ensures { result ≡ self.now.epoch }
    {
        self.state.epoch
    }

    /// The number of its next instruction.
    pub fn pc(&self) -> u64
        ensures { result ≡ self.now.account.counter }
    {
        self.state.counter
    }

    /// The header that it keeps while it copies a record, and the address that it has reserved and one more; 0 for none.
    pub fn kept(&self) -> (u64, u64)
        ensures header { result.0 ≡ header_kept self.now.stage }
        ensures place { result.1 ≡ place_kept self.now.stage }
    {
        match &self.state.stage {
            Stage::Forwards(w) => w.evac.kept(),
            Stage::Evacuates(evac, _, _) => evac.kept(),
            _ => (0, 0),
        }
    }
}
