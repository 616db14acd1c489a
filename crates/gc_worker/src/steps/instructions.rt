//! The instructions, as a mutator executes them on its registers: each has its effect or its end, or begins what it does with
//! records and the board.
//!
//! `plain_machine/src/instructions.rt` has another table of them, which puts an action together first. To take that apart again here
//! took 38 machine instructions more for an instruction on registers (docs/PERFORMANCE.md). Both are proved to do what the one
//! definition `action` says.

ghost use Rattle.std.specs.Prelude.{◌≡◌, ℕ, ◌^◌, ◌<◌, ◌≤◌, IsTrue, true, nat_lt};
ghost use Rattle.space_map.specs.declared.spaces.TheConstants.{LAST_WORKER};
ghost use Rattle.mutator_asm.specs.Program.{is_valid};
ghost use Rattle.plain_state.specs.declared.kind.Kind.{Kind};
ghost use Rattle.plain_state.specs.declared.sizes.TheConstants.{BOARD_WORDS};
ghost use Rattle.plain_heap.specs.Action.{action, allocates, computes, mixes};
ghost use Rattle.gc_worker.specs.declared.task.Task.{Task};
ghost use Rattle.gc_worker.specs.Workers.Fits.{FitsStage};
ghost use Rattle.gc_worker.specs.Steps.Stepped.{IsCall, instr_due, seen_by, stepped_by, uncounted};
ghost use Rattle.gc_worker.specs.Steps.Turned.{acted, told_acted};

use crate::registers::seen_value::word_of;
use crate::stage::Stage;
use crate::state::State;
use crate::steps::stepped::Stepped;
use crate::task::due::Due;
use heap_words::Word;
use mutator_asm::{Instr, Operand};
use plain_state::{End, Identity, MOST_PRINTED, Operation};
use record_access::{AccessStage, BoardAccess, BoardUse, FieldExchange, RecordAccess, RecordUse};

impl State {
    /// Executes the instruction that is due as far as the registers go. It reads the instruction where it stands: so each arm takes
    /// only the parts that it needs.
    #[tactic(auto, unfolding(plain_heap::specs::Action::action))]
    #[inline(always)]
    pub fn execute(&mut self) -> Stepped
        requires at { self.old.stage ≡ Stage.Looks }
        requires is_mutator { nat_lt self.old.number self.old.mutators ≡ true }
        requires few { self.old.number ≤ LAST_WORKER }
        requires due { IsCall self.old.task }
        requires valid { IsTrue (is_valid (instr_due self.old.task)) }
        requires after { let act = action (seen_by self.old) (instr_due self.old.task) in FitsStage (acted self.old act) (acted self.old act).stage }
        ensures state { self.new ≡ uncounted (acted self.old (action (seen_by self.old) (instr_due self.old.task))) }
        ensures tells { (task : Task) → result ≡ stepped_by self.old.number (told_acted self.old task (action (seen_by self.old) (instr_due self.old.task))) }
    {
        let Due::Call = self.due else { unreachable!() };
        match self.instr {
            Instr::Li(d, number) => self.load(d, Word::number(number).0),
            Instr::Mov(d, a) => self.load(d, word_of(self.value(a))),
            Instr::Add(d, a, b) => self.compute(Operation::Add, d, a, b),
            Instr::Sub(d, a, b) => self.compute(Operation::Sub, d, a, b),
            Instr::Mul(d, a, b) => self.compute(Operation::Mul, d, a, b),
            Instr::Div(d, a, b) => self.compute(Operation::Div, d, a, b),
            Instr::Rem(d, a, b) => self.compute(Operation::Rem, d, a, b),
            Instr::Lt(d, a, b) => self.compute(Operation::Lt, d, a, b),
            Instr::Eq(d, a, b) => self.load(d, Word::number(self.are_same(a, b)).0),
            Instr::Jmp(target) => self.jump(u64::from(target)),
            Instr::Jz(a, target) => self.jump(self.target_if_zero(a, target)),
            Instr::Jal(d, target) => self.link(d, u64::from(target)),
            Instr::Jr(a) => self.jump_to(a),
            Instr::New(_, x) => self.allocate(x),
            Instr::Raw(_, x) => self.allocate(x),
            Instr::Mix(_, fields, raw) => self.allocate_mixed(fields, raw),
            Instr::Weak(_, a) => self.allocate_cell(a),
            Instr::Ld(d, a, x) => self.load_from(d, a, x),
            Instr::St(a, x, b) => self.store_to(a, x, b),
            Instr::Cas(d, a, x, b, c) => self.exchange_in(d, a, x, b, c),
            Instr::Len(d, a) => self.measure(d, a),
            Instr::Isp(d, a) => self.load(d, Word::number(self.is_reference(a)).0),
            Instr::Get(d, x) => self.get_from_board(d, x),
            Instr::Put(x, a) => self.put_on_board(x, a),
            Instr::Swap(d, x) => self.swap_with_board(d, x),
            Instr::Out(a) => self.print_number(a),
            Instr::Snap => self.snap(),
            Instr::Halt => self.end_with(End::Halt),
        }
    }

    /// `add`, `sub`, `mul`, `div`, `rem` and `lt`, each `rd ra rb`
    #[inline(always)]
    fn compute(&mut self, operation: Operation, d: u8, a: u8, b: u8) -> Stepped
        requires at { self.old.stage ≡ Stage.Looks }
        ensures state { self.new ≡ uncounted (acted self.old (computes operation (seen_by self.old) d a b)) }
        ensures tells { (task : Task) → result ≡ stepped_by self.old.number (told_acted self.old task (computes operation (seen_by self.old) d a b)) }
    {
        let number = match (self.number(a), self.number(b)) {
            (Ok(a), Ok(b)) => operation.apply(a, b),
            (Err(why), _) | (_, Err(why)) => Err(why),
        };
        match number {
            Ok(number) => self.load(d, Word::number(number).0),
            Err(why) => self.end_with(why),
        }
    }

    /// `jr ra`
    #[tactic(auto, unfolding(plain_heap::specs::Action::action))]
    #[inline(always)]
    fn jump_to(&mut self, a: u8) -> Stepped
        requires at { self.old.stage ≡ Stage.Looks }
        ensures state { self.new ≡ uncounted (acted self.old (action (seen_by self.old) (Instr.Jr a))) }
        ensures tells { (task : Task) → result ≡ stepped_by self.old.number (told_acted self.old task (action (seen_by self.old) (Instr.Jr a))) }
    {
        match self.number(a) {
            Ok(target) => self.jump(target),
            Err(why) => self.end_with(why),
        }
    }

    /// `out ra`: a number is printed by a mutator that has not printed the most.
    #[tactic(auto, unfolding(plain_heap::specs::Action::action))]
    #[inline(always)]
    fn print_number(&mut self, a: u8) -> Stepped
        requires at { self.old.stage ≡ Stage.Looks }
        requires is_mutator { nat_lt self.old.number self.old.mutators ≡ true }
        requires may { self.old.prints ≡ true }
        ensures state { self.new ≡ uncounted (acted self.old (action (seen_by self.old) (Instr.Out a))) }
        ensures tells { (task : Task) → result ≡ stepped_by self.old.number (told_acted self.old task (action (seen_by self.old) (Instr.Out a))) }
    {
        match self.number(a) {
            Ok(number) if self.printed.len() < MOST_PRINTED => self.print(number),
            Ok(_) => self.end_with(End::OutputFull),
            Err(why) => self.end_with(why),
        }
    }

    /// `new rd x` and `raw rd x`: the record is that of the task, whatever kind and register these name.
    #[inline(always)]
    fn allocate(&mut self, x: Operand) -> Stepped
        requires at { self.old.stage ≡ Stage.Looks }
        requires after { (kind : Kind) × (d : ℕ) × FitsStage (acted self.old (allocates (seen_by self.old) kind d x)) (acted self.old (allocates (seen_by self.old) kind d x)).stage }
        ensures state { (kind : Kind) (d : ℕ) → self.new ≡ uncounted (acted self.old (allocates (seen_by self.old) kind d x)) }
        ensures tells { (task : Task) (kind : Kind) (d : ℕ) → result ≡ stepped_by self.old.number (told_acted self.old task (allocates (seen_by self.old) kind d x)) }
    {
        self.known();
        match self.length(x) {
            Ok(_) => {
                self.begin_placing();
                Stepped::Moved
            }
            Err(why) => self.end_with(why),
        }
    }

    /// `mix rd xf xr`
    #[tactic(auto, using(crate::proofs::Plain::RecordsMade::mixed_makes))]
    #[inline(always)]
    fn allocate_mixed(&mut self, fields: Operand, raw: Operand) -> Stepped
        requires at { self.old.stage ≡ Stage.Looks }
        requires after { (d : ℕ) × FitsStage (acted self.old (mixes (seen_by self.old) d fields raw)) (acted self.old (mixes (seen_by self.old) d fields raw)).stage }
        ensures state { (d : ℕ) → self.new ≡ uncounted (acted self.old (mixes (seen_by self.old) d fields raw)) }
        ensures tells { (task : Task) (d : ℕ) → result ≡ stepped_by self.old.number (told_acted self.old task (mixes (seen_by self.old) d fields raw)) }
    {
        self.known();
        match self.mixed_length(fields, raw) {
            Ok(_) => {
                self.begin_placing();
                Stepped::Moved
            }
            Err(why) => self.end_with(why),
        }
    }

    /// `weak rd ra`
    #[tactic(auto, unfolding(plain_heap::specs::Action::action))]
    #[inline(always)]
    fn allocate_cell(&mut self, a: u8) -> Stepped
        requires at { self.old.stage ≡ Stage.Looks }
        requires after { (d : ℕ) × FitsStage (acted self.old (action (seen_by self.old) (Instr.Weak d a))) (acted self.old (action (seen_by self.old) (Instr.Weak d a))).stage }
        ensures state { (d : ℕ) → self.new ≡ uncounted (acted self.old (action (seen_by self.old) (Instr.Weak d a))) }
        ensures tells { (task : Task) (d : ℕ) → result ≡ stepped_by self.old.number (told_acted self.old task (action (seen_by self.old) (Instr.Weak d a))) }
    {
        self.known();
        match self.reference(a) {
            Ok(_) => {
                self.begin_placing();
                Stepped::Moved
            }
            Err(why) => self.end_with(why),
        }
    }

    /// `ld rd ra x`
    #[tactic(auto, unfolding(plain_heap::specs::Action::action))]
    #[inline(always)]
    fn load_from(&mut self, d: u8, a: u8, x: Operand) -> Stepped
        ensures state { self.new ≡ uncounted (acted self.old (action (seen_by self.old) (Instr.Ld d a x))) }
        ensures tells { (task : Task) → result ≡ stepped_by self.old.number (told_acted self.old task (action (seen_by self.old) (Instr.Ld d a x))) }
    {
        match (self.reference(a), self.operand(x)) {
            (Ok(record), Ok(x)) => self.begin_access(to_record(record, x, RecordUse::Loads(d))),
            (Err(why), _) | (_, Err(why)) => self.end_with(why),
        }
    }

    /// `st ra x rb`
    #[tactic(auto, unfolding(plain_heap::specs::Action::action))]
    #[inline(always)]
    fn store_to(&mut self, a: u8, x: Operand, b: u8) -> Stepped
        ensures state { self.new ≡ uncounted (acted self.old (action (seen_by self.old) (Instr.St a x b))) }
        ensures tells { (task : Task) → result ≡ stepped_by self.old.number (told_acted self.old task (action (seen_by self.old) (Instr.St a x b))) }
    {
        let new = RecordUse::Stores(word_of(self.value(b)));
        match (self.reference(a), self.operand(x)) {
            (Ok(record), Ok(x)) => self.begin_access(to_record(record, x, new)),
            (Err(why), _) | (_, Err(why)) => self.end_with(why),
        }
    }

    /// `cas rd ra x rb rc`
    #[tactic(auto, unfolding(plain_heap::specs::Action::action))]
    #[inline(always)]
    fn exchange_in(&mut self, d: u8, a: u8, x: Operand, b: u8, c: u8) -> Stepped
        ensures state { self.new ≡ uncounted (acted self.old (action (seen_by self.old) (Instr.Cas d a x b c))) }
        ensures tells { (task : Task) → result ≡ stepped_by self.old.number (told_acted self.old task (action (seen_by self.old) (Instr.Cas d a x b c))) }
    {
        let exchange = RecordUse::Compares(FieldExchange {
            into: d,
            expected: word_of(self.value(b)),
            new: word_of(self.value(c)),
        });
        match (self.reference(a), self.operand(x)) {
            (Ok(record), Ok(x)) => self.begin_access(to_record(record, x, exchange)),
            (Err(why), _) | (_, Err(why)) => self.end_with(why),
        }
    }

    /// `len rd ra`
    #[tactic(auto, unfolding(plain_heap::specs::Action::action))]
    #[inline(always)]
    fn measure(&mut self, d: u8, a: u8) -> Stepped
        ensures state { self.new ≡ uncounted (acted self.old (action (seen_by self.old) (Instr.Len d a))) }
        ensures tells { (task : Task) → result ≡ stepped_by self.old.number (told_acted self.old task (action (seen_by self.old) (Instr.Len d a))) }
    {
        match self.reference(a) {
            Ok(record) => self.begin_access(to_record(record, 0, RecordUse::TellsLength(d))),
            Err(why) => self.end_with(why),
        }
    }

    /// `get rd x`
    #[tactic(auto, unfolding(plain_heap::specs::Action::action))]
    #[inline(always)]
    fn get_from_board(&mut self, d: u8, x: Operand) -> Stepped
        ensures state { self.new ≡ uncounted (acted self.old (action (seen_by self.old) (Instr.Get d x))) }
        ensures tells { (task : Task) → result ≡ stepped_by self.old.number (told_acted self.old task (action (seen_by self.old) (Instr.Get d x))) }
    {
        match self.board_place(x) {
            Ok(word) => self.begin_access(to_board(word, BoardUse::Loads(d))),
            Err(why) => self.end_with(why),
        }
    }

    /// `put x ra`
    #[tactic(auto, unfolding(plain_heap::specs::Action::action))]
    #[inline(always)]
    fn put_on_board(&mut self, x: Operand, a: u8) -> Stepped
        ensures state { self.new ≡ uncounted (acted self.old (action (seen_by self.old) (Instr.Put x a))) }
        ensures tells { (task : Task) → result ≡ stepped_by self.old.number (told_acted self.old task (action (seen_by self.old) (Instr.Put x a))) }
    {
        let new = BoardUse::Stores(word_of(self.value(a)));
        match self.board_place(x) {
            Ok(word) => self.begin_access(to_board(word, new)),
            Err(why) => self.end_with(why),
        }
    }

    /// `swap rd x`
    #[tactic(auto, unfolding(plain_heap::specs::Action::action))]
    #[inline(always)]
    fn swap_with_board(&mut self, d: u8, x: Operand) -> Stepped
        ensures state { self.new ≡ uncounted (acted self.old (action (seen_by self.old) (Instr.Swap d x))) }
        ensures tells { (task : Task) → result ≡ stepped_by self.old.number (told_acted self.old task (action (seen_by self.old) (Instr.Swap d x))) }
    {
        let swap = BoardUse::Swaps(d, word_of(self.value(d)));
        match self.board_place(x) {
            Ok(word) => self.begin_access(to_board(word, swap)),
            Err(why) => self.end_with(why),
        }
    }
}

/// The access to a record at an address that is seen.
fn to_record(identity: Identity, value: u64, usage: RecordUse) -> AccessStage
    requires { identity.serial < 2 ^ 32 }
    ensures { result ≡ AccessStage.LooksAtRecord (record { at = identity.serial; value = value; usage = usage }) }
{
    AccessStage::LooksAtRecord(RecordAccess {
        at: identity.serial as u32,
        value,
        usage,
    })
}

/// The access to a word of the board.
fn to_board(word: u64, usage: BoardUse) -> AccessStage
    requires { word < BOARD_WORDS }
    ensures { result ≡ AccessStage.LooksAtBoard (record { word = word; usage = usage }) }
{
    AccessStage::LooksAtBoard(BoardAccess {
        word: word as u32,
        usage,
    })
}
