//! The words that threads share, and how a step is made on them.

ghost use Rattle.std.specs.Prelude.{◌≡◌, ◌<◌, ◌≤◌, ◌+◌, [], Some};
ghost use Rattle.atom_store.specs.declared.reply.Reply.TheVariants.{Value};
ghost use Rattle.atom_store.specs.declared.step.Step.TheVariants.{Load};
ghost use Rattle.gc_worker.specs.Workers.Held.{Held};
ghost use Rattle.gc_worker.specs.Laws.Step.{nobody};
ghost use Rattle.gc_worker.specs.Steps.Direct.{ahead};
ghost use Rattle.gc_worker.specs.Steps.Wanted.{wanted};
ghost use Rattle.ael_threads.specs.Direct.{IsReady};
ghost use Rattle.ael_threads.specs.Rule.{RuleHolds, first_view, spent_view};
ghost use Rattle.ael_threads.specs.Seats.{Heads, FitsTable, IsMine, Learns, Moves, Plays, ShowsSeen, both_of, first_number, first_of, others_of};

use crate::view::{Plan, View};
use atom_store::{Reply, Step};
use atomic_table::{Join, Play, Seat, Split, Table, TableRule};
use gc_worker::Worker;
use mutator_asm::Instr;
use record_access::AccessStage;
use std::alloc::Global;
use std::marker::{Brand, PhantomData};

/// The rule of the words, and of what each seat knows.
pub struct Rule;

impl TableRule<u8, View, Plan> for Rule {
    ghost holds = { RuleHolds };

    ghost first = { first_view };
}

/// What a worker's code holds as it steps: its seat knows what it held after its last step. Each call picks it.
pub(crate) trait Now {
    ghost now: { Held };
}

impl Now for Brand {
    ghost now = { nobody };
}

struct Turn<J> {
    of: PhantomData<J>,
}

impl<J: Now> Play<u8, View> for Turn<J> {
    ghost then = { Plays J.now };
}

/// Gives the seat's first worker to a new seat.
pub(crate) struct Deal;

impl Split<View> for Deal {
    ghost left = { others_of };

    ghost right = { first_of };
}

/// Takes in what another seat knows.
pub(crate) struct Both;

impl Join<View> for Both {
    ghost both = { both_of };

    ghost spent = { spent_view };
}

/// Sees the whole history.
pub(crate) struct Learn;

impl Play<u8, View> for Learn {
    ghost then = { Learns };
}

/// The words of a heap.
#[derive(Drop)]
pub struct Shared {
    pub(crate) table: Table<u8, View, Plan, Rule, Global>,
    ghost some: { 0 < table.shared.table_id.words },
    ghost no_slots: { table.shared.table_id.slots ≡ 0 },
}

impl Shared {
    /// Loads a word for a worker whose code is still at its look. In the proofs it is ahead: at the look that begins this instruction, or at
    /// this stage of its access.
    #[inline(always)]
    pub(crate) fn loads<J: Now>(
        &self,
        worker: &Worker,
        instr: Instr,
        stage: Option<AccessStage>,
        seat: &mut Seat<u8, View>,
        place: usize,
    ) -> u64
        requires table { seat.old.table_id ≡ self.now.table.shared.table_id }
        requires now { J.now ≡ ahead worker.now instr stage }
        requires want { wanted (ahead worker.now instr stage) ≡ Some (Load place) }
        requires ready { IsReady (record { table = seat.old.table_id; worker = ahead worker.now instr stage; knows = seat.old.me.0 }) }
        ensures table { (seat.new.table_id ≡ seat.old.table_id) × (seat.new.me.1 ≡ seat.old.me.1) }
        ensures moved { Moves seat.old.me.0 (first_number seat.old.me.0.hands) (ahead worker.now instr stage) (Value result) seat.new.me.0 }
    {
        self.table.shared.load::<Turn<J>>(seat, place)
    }

    /// Makes one step of the seat, whose worker wants it.
    pub(crate) fn step<J: Now>(
        &self,
        worker: &Worker,
        seat: &mut Seat<u8, View>,
        step: Step,
    ) -> Reply
        requires table { seat.old.table_id ≡ self.now.table.shared.table_id }
        requires worker { worker.now ≡ J.now }
        requires want { wanted worker.now ≡ Some step }
        requires heads { Heads seat.old.me.0.plan worker.now seat.old.me.0.hands }
        requires live { FitsTable seat.old.table_id seat.old.me.0 }
        requires mine { IsMine seat.old.me.0 }
        requires shows { ShowsSeen worker.now seat.old.me.0 }
        ensures table { (seat.new.table_id ≡ seat.old.table_id) × (seat.new.id ≡ seat.old.id) × (seat.new.me.1 ≡ seat.old.me.1) }
        ensures moved { Moves seat.old.me.0 (first_number seat.old.me.0.hands) worker.now result seat.new.me.0 }
    {
        match step {
            Step::Load(place) => Reply::Value(self.table.shared.load::<Turn<J>>(seat, place)),
            Step::Store(place, value) => {
                self.table.shared.store::<Turn<J>>(seat, place, value);
                Reply::Done
            }
            Step::Exchange(place, old, new) => {
                let found = self
                    .table
                    .shared
                    .compare_exchange::<Turn<J>>(seat, place, old, new);
                if found == old {
                    Reply::Won
                } else {
                    Reply::Lost(found)
                }
            }
        }
    }
}
