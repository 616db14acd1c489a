//! What actions do to the heap and to the mutator.

ghost use Rattle.std.specs.Prelude.{◌≡◌, ◌<◌, ◌+◌, ◌^◌, ℕ, Ok, Err, length, IsTrue};
ghost use Rattle.plain_machine.specs.declared.stop.Stop.TheVariants.{OutOfMemory};
ghost use Rattle.plain_heap.specs.Call.{performed};
ghost use Rattle.plain_heap.specs.Memory.{takes_memory};
ghost use Rattle.plain_machine.specs.Outcome.{IsExecuted, IsTried};

use crate::heap::PlainHeap;
use crate::mutator::PlainMutator;
use crate::stop::Stop;
use plain_heap::Action;
use plain_state::{End, Identity, Value};
use std::alloc::Global;

/// Mutator m does what an action says. Where it stops, nothing changes.
pub fn perform(
    alloc: Global,
    heap: &mut PlainHeap,
    mutator: &mut PlainMutator,
    m: u8,
    action: Action,
) -> Result<(), Stop>
    requires has_records { m < length heap.old.records }
    requires has_turns { mutator.old.executed + 1 < 2 ^ 32 }
    ensures tried { IsTried (performed m heap.old mutator.old action) result heap.old mutator.old heap.new mutator.new }
    ensures takes_memory { result ≡ Err OutOfMemory → IsTrue (takes_memory (Ok action)) }
    ensures as_many { length heap.new.records ≡ length heap.old.records }
{
    match action {
        Action::Sets(d, value) => mutator.load(d, value),
        Action::Jumps(target) => mutator.jump(target),
        Action::Links(d, target) => {
            mutator.set_register(d, Value::Number(mutator.next()));
            mutator.jump(target);
        }
        Action::Prints(number) => {
            mutator.print(number)?;
            mutator.go_on();
        }
        Action::Makes(kind, d, len, value) => {
            let identity = heap.allocate(alloc, m, kind, usize::from(len), value)?;
            mutator.load(d, Value::Reference(identity));
        }
        Action::Measures(d, i) => mutator.load(d, Value::Number(heap.len(i) as u64)),
        Action::Loads(d, i, x) => mutator.load(d, heap.word(i, x)?),
        Action::Stores(i, x, value) => {
            // An index past the length comes before a reference that the record may not hold.
            let _ = heap.word(i, x)?;
            heap.store(i, x, value)?;
            mutator.go_on();
        }
        Action::Compares(d, i, x, expected, new) => {
            exchange(heap, mutator, d, i, x, expected, new)?;
        }
        Action::Gets(d, x) => mutator.load(d, heap.board_word(x)),
        Action::Puts(x, value) => {
            heap.set_board(x, value);
            mutator.go_on();
        }
        Action::Swaps(d, x, value) => mutator.load(d, heap.swap_board(x, value)),
        Action::Snaps => {
            heap.snap(alloc)?;
            mutator.go_on();
        }
    }
    Ok(())
}

/// A value of a record is exchanged for another, if it is what is expected; the register tells whether it was.
fn exchange(
    heap: &mut PlainHeap,
    mutator: &mut PlainMutator,
    d: u8,
    i: Identity,
    x: u64,
    expected: Value,
    new: Value,
) -> Result<(), End>
    requires has_turns { mutator.old.executed + 1 < 2 ^ 32 }
    ensures executed { (m : ℕ) → IsExecuted (performed m heap.old mutator.old (Action.Compares d i x expected new)) result heap.old mutator.old heap.new mutator.new }
    ensures as_many { length heap.new.records ≡ length heap.old.records }
{
    let found = heap.word(i, x)?;
    // A reference that the record may not hold is an end whatever stands there.
    heap.admit(i, x, new)?;
    let same = found == expected;
    if same {
        heap.store(i, x, new)?;
    }
    mutator.load(d, Value::Number(u64::from(same)));
    Ok(())
}
