//! What the values of registers tell.

ghost use Rattle.std.specs.Prelude.{◌≡◌, if◌then◌else◌};
ghost use Rattle.plain_state.specs.declared.value.Value.TheVariants.{Number};
ghost use Rattle.plain_state.specs.Operation.{one_if};
ghost use Rattle.plain_heap.specs.Action.{register, is_zero, is_reference, are_same, next_of};

use crate::mutator::PlainMutator;
use plain_state::Value;

/// 1 where two registers hold equal numbers or refer to one record, else 0.
pub fn are_same(mutator: &PlainMutator, a: u8, b: u8) -> Value
    ensures { result ≡ Number (one_if (are_same (register mutator.now a) (register mutator.now b))) }
{
    let same = mutator.register(a) == mutator.register(b);
    Value::Number(u64::from(same))
}

/// 1 where a register holds a reference, else 0.
pub fn is_reference(mutator: &PlainMutator, a: u8) -> Value
    ensures { result ≡ Number (one_if (is_reference (register mutator.now a))) }
{
    let reference = mutator.reference(a).is_ok();
    Value::Number(u64::from(reference))
}

/// The target where a register holds the number 0, else the number of the next instruction.
pub fn target_if_zero(mutator: &PlainMutator, a: u8, target: u32) -> u64
    ensures { result ≡ (if is_zero (register mutator.now a) then target else next_of mutator.now) }
{
    match mutator.register(a) {
        Value::Number(0) => u64::from(target),
        Value::Number(_) | Value::Reference(_) => mutator.next(),
    }
}
