//! The plain machine, run by an order.

ghost use Rattle.std.specs.Prelude.{◌≡◌, ◌<◌, [], false, length, IfOk, OnOk};
ghost use Rattle.std.specs.List.{list_any};
ghost use Rattle.plain_state.specs.Consistent.{IsConsistent};
ghost use Rattle.plain_heap.specs.Emptied.{cells_to_empty};
ghost use Rattle.plain_heap.specs.Order.{Story, opening, plain, story_marked};
ghost use Rattle.plain_machine.specs.Search.{Keeps};
ghost use Rattle.plain_heap.specs.Tracing.{has_weak, is_weak};

use crate::state::{PlainState, plain_step};
use mutator_asm::{Code, Instr, Program, Section};
use plain_heap::Mark;
use plain_state::{End, Identity, NoMemory};
use std::alloc::Global;

/// Whether an instruction of a section makes a cell.
fn makes_cells(section: &Section) -> bool
    ensures { result ≡ list_any is_weak section.now }
{
    section
        .as_slice()
        .iter()
        .any(|instr| matches!(instr, Instr::Weak(..)))
}

/// Whether an instruction of the program does.
pub fn has_weak(code: &Code) -> bool
    ensures { result ≡ has_weak code.now }
{
    code.sections().iter().any(|section| makes_cells(section))
}

/// A run by an order: the present state, whether the program makes cells, and those that are emptied once all is copied.
#[derive(Drop)]
struct Run {
    now: PlainState,
    weak: bool,
    lost: Vec<Identity>,
}

impl Run {
    /// The run before the first mark.
    fn open(alloc: Global, p: &Program) -> Result<Run, NoMemory>
        ensures now { IfOk result (λ run. run.now ≡ opening p.now.code) }
        ensures weak { IfOk result (λ run. run.weak ≡ has_weak p.now.code) }
        ensures lost { IfOk result (λ run. run.lost.items ≡ []) }
    {
        Ok(Run {
            now: PlainState::open(alloc, p)?,
            weak: has_weak(&p.code),
            lost: Vec::new(alloc),
        })
    }

    /// What a mark does to the state.
    #[tactic(auto, unfolding(plain_heap::specs::Order::ended_for_want, plain_heap::specs::Emptied::emptied))]
    fn apply(&mut self, alloc: Global, p: &Program, turns: u32, mark: Mark) -> Result<(), NoMemory>
        requires consistent { IsConsistent self.old.now }
        requires few { length self.old.now.mutators < 256 }
        requires none { self.old.weak ≡ false → cells_to_empty self.old.now ≡ [] }
        ensures follows { OnOk result ((s : Story) → Keeps s self.old.now self.old.lost.items → Keeps (story_marked p.now.code turns s mark) self.new.now self.new.lost.items) }
        ensures weak { self.new.weak ≡ self.old.weak }
    {
        match mark {
            Mark::Step(m) => plain_step(alloc, &mut self.now, p, turns, m),
            Mark::Flip(_) => self.flip(alloc),
            Mark::Full {
                m,
                asked,
                room,
                live,
            } => {
                if self.now.asked_by(&p.code, turns, m) == Some(asked) {
                    self.now.end(m, End::HeapFull { asked, room, live });
                }
                Ok(())
            }
            Mark::Traced => {
                self.now.empty(self.lost.as_slice());
                Ok(())
            }
        }
    }

    /// At a flip the cells are kept that refer to what isn't reachable.
    fn flip(&mut self, alloc: Global) -> Result<(), NoMemory>
        requires consistent { IsConsistent self.old.now }
        requires few { length self.old.now.mutators < 256 }
        requires none { self.old.weak ≡ false → cells_to_empty self.old.now ≡ [] }
        ensures lost { OnOk result (self.new.lost.items ≡ cells_to_empty self.old.now) }
        ensures now { self.new.now ≡ self.old.now }
        ensures weak { self.new.weak ≡ self.old.weak }
    {
        self.lost = if self.weak {
            self.now.cells_to_empty(alloc)?
        } else {
            Vec::new(alloc)
        };
        Ok(())
    }
}

/// The state after the marks of an order, one after another, each mutator executing at most so many
/// instructions.
pub fn plain_run(
    alloc: Global,
    p: &Program,
    turns: u32,
    order: &[Mark],
) -> Result<PlainState, NoMemory>
    ensures { IfOk result (λ s. s ≡ plain p.now.code turns order.now) }
{
    let mut run = Run::open(alloc, p)?;
    for mark in order {
        run.apply(alloc, p, turns, *mark)?;
    }
    Ok(run.now)
}
