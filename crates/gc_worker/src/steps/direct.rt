//! Direct calls. The common case of a call is some loads and a change of registers. A thread makes these loads while its worker stays at
//! its look, keeps in numbers what it has read, and then changes the worker at once. The worker that the proofs have of it goes through
//! the stages meanwhile. If anything else is read, the worker catches up: it is put to the stage that it has come to, takes the word that
//! was read last, and goes on step by step.

pub mod loading;

ghost use Rattle.std.specs.Prelude.{◌≡◌, ◌+◌, ◌==◌, IfSome, None, Some, true};
ghost use Rattle.atom_store.specs.declared.reply.Reply.TheVariants as replies;
ghost use Rattle.heap_state.specs.Meaning.Loaded.{FitsRole, word_held};
ghost use Rattle.mmu_model.specs.Protection.{protection_of};
ghost use Rattle.space_map.specs.PageWord.{decode_page};
ghost use Rattle.space_map.specs.Spaces.{page_of};
ghost use Rattle.space_map.specs.Table.{Gate, HeapWord, Page, place_of};
ghost use Rattle.record_access.specs.Access.{IsHeapAddress, role_of};
ghost use Rattle.gc_worker.specs.declared.task.Task.TheVariants.{Calls};
ghost use Rattle.gc_worker.specs.Laws.Between.{IsIdle, with_task};
ghost use Rattle.gc_worker.specs.Workers.Fits.{MayBegin};
ghost use Rattle.gc_worker.specs.Steps.Direct.{CatchesUp, LeadsTo, MayCatchUp, at_access};
ghost use Rattle.gc_worker.specs.Steps.Stepped.{IsSound, MayExecute, uncounted};
ghost use Rattle.gc_worker.specs.Steps.Turned.{begins, loads};

use crate::stage::Stage;
use crate::steps::answered::Answered;
use crate::task::due::Due;
use crate::worker::Worker;
use atom_store::Reply;
use mmu_model::{Protection, check};
use mutator_asm::Instr;
use plain_state::Value;
use record_access::{Access, AccessStage, Role, held};
use space_map::GateWord;

/// A call in which a worker catches up: each place of a call has a function of its own.
pub(crate) struct CatchingUp;

impl Worker {
    /// Whether its next step is the look at the gate.
    #[inline(always)]
    pub fn looks(&self) -> bool
        ensures looks { result ≡ true → self.now.stage ≡ Stage.Looks }
        ensures counts_nothing { self.now ≡ uncounted self.now }
    {
        self.state.known();
        matches!(self.state.stage, Stage::Looks)
    }

    /// The place of the gate's word.
    #[inline(always)]
    pub fn gate_place(&self) -> usize
        ensures { result ≡ place_of self.now.layout.pages Gate }
    {
        self.state.spaces.gate_place()
    }

    /// The place of the word of an address's page.
    #[inline(always)]
    pub fn page_place(&self, at: u32) -> usize
        requires { IsHeapAddress self.now.layout.pages at }
        ensures { result ≡ place_of self.now.layout.pages (Page (page_of at)) }
    {
        let spaces = self.state.spaces;
        spaces.known();
        spaces.page_place(spaces.page_of(at))
    }

    /// The place of the word at an address.
    #[inline(always)]
    pub fn word_place(&self, at: u32) -> usize
        requires { IsHeapAddress self.now.layout.pages at }
        ensures { result ≡ place_of self.now.layout.pages (HeapWord at) }
    {
        let spaces = self.state.spaces;
        spaces.known();
        spaces.word_place(at)
    }

    /// The address to which a register leads, if the gate's word has no request, and the register holds a pointer.
    #[inline(always)]
    pub fn record_at(&self, gate: u64, base: u8) -> Option<u32>
        ensures { IfSome result (LeadsTo self.now gate base) }
    {
        let gate = GateWord::read(gate)?;
        if gate.request {
            return None;
        }
        match self.state.value(base) {
            Value::Reference(identity) => Some(identity.serial as u32),
            Value::Number(_) => None,
        }
    }

    /// Whether the page of an address is open, by the page's word.
    #[inline(always)]
    pub fn is_open(&self, at: u32, word: u64) -> bool
        ensures { result ≡ true → protection_of (page_of at) (decode_page word) self.now.epoch ≡ Protection.Allowed }
    {
        let page = self.state.spaces.page_of(at);
        matches!(check(page, word, self.state.epoch), Protection::Allowed)
    }

    /// The address of a value that stands behind its record's header.
    #[inline(always)]
    pub fn value_at(&self, at: u32, value: u64) -> u32
        requires { IsHeapAddress self.now.layout.pages (at + (value + 1)) }
        ensures { result ≡ at + (value + 1) }
    {
        self.state.spaces.known();
        at + 1 + value as u32
    }

    /// Whether such a value stands on the page of its record's header.
    #[inline(always)]
    pub fn is_near(&self, at: u32, value: u64) -> bool
        requires { IsHeapAddress self.now.layout.pages (at + (value + 1)) }
        ensures { result ≡ (page_of at == page_of (at + (value + 1))) }
    {
        let spaces = self.state.spaces;
        spaces.page_of(at) == spaces.page_of(self.value_at(at, value))
    }

    /// A register gets what was loaded of a value with this role, and the call is executed.
    #[tactic(auto, using(crate::proofs::Workers::Sound::uncounted_are_sound))]
    #[inline(always)]
    pub fn has_loaded(&mut self, into: u8, role: Role, word: u64)
        requires looks { self.old.stage ≡ Stage.Looks }
        requires takes { FitsRole (role_of role) word }
        requires fits { IsSound (loads (begins self.old) into (word_held (role_of role) word)) }
        ensures { self.new ≡ uncounted (loads (begins self.old) into (word_held (role_of role) word)) }
    {
        self.state.begun = self.state.epoch;
        self.state.load(into, held(role, word));
    }

    /// It catches up with the look that begins an instruction, and takes the gate's word.
    pub fn catches_up_at_gate(&mut self, instr: Instr, gate: u64) -> Answered
        requires looks { self.old.stage ≡ Stage.Looks }
        requires idle { IsIdle self.old }
        requires may_begin { MayBegin self.old.account self.old.registers (Some (Calls instr)) }
        requires may_execute { MayExecute self.old.prints instr }
        requires may { MayCatchUp (with_task self.old (Calls instr)) gate }
        ensures { CatchesUp (with_task self.old (Calls instr)) gate result self.new }
    {
        self.begin(&instr);
        self.take_look(Reply::Value(gate)).answered()
    }

    /// It catches up with a stage of its access, and takes the word that was loaded there.
    #[tactic(auto, using(crate::proofs::Workers::Sound::uncounted_are_sound))]
    pub fn catches_up(&mut self, instr: Instr, stage: AccessStage, word: u64) -> Answered
        requires may_execute { MayExecute self.old.prints instr }
        requires may { MayCatchUp (at_access self.old instr stage) word }
        ensures { CatchesUp (at_access self.old instr stage) word result self.new }
    {
        self.state.instr = instr;
        self.state.due = Due::Call;
        self.state.begun = self.state.epoch;
        self.state.stage = Stage::Accesses(Access {
            spaces: self.state.spaces,
            epoch: self.state.epoch,
            stage,
        });
        self.state.take::<CatchingUp>(Reply::Value(word)).answered()
    }
}
