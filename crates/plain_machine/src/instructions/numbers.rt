//! Instructions on numbers.

ghost use Rattle.std.specs.Prelude.{◌≡◌};
ghost use Rattle.mutator_asm.specs.declared.instr.Instr.TheVariants.{Jr, Out};
ghost use Rattle.plain_heap.specs.Action.{action, computes};

use crate::mutator::PlainMutator;
use plain_heap::Action;
use plain_state::{End, MOST_PRINTED, Operation, Value};

/// `add`, `sub`, `mul`, `div`, `rem` and `lt`, each `rd ra rb`
pub fn compute(
    mutator: &PlainMutator,
    operation: Operation,
    d: u8,
    a: u8,
    b: u8,
) -> Result<Action, End>
    ensures { result ≡ computes operation mutator.now d a b }
{
    let a = mutator.number(a)?;
    let b = mutator.number(b)?;
    let number = operation.apply(a, b)?;
    Ok(Action::Sets(d, Value::Number(number)))
}

/// `jr ra`
#[tactic(auto, unfolding(plain_heap::specs::Action::action))]
pub fn jump_to(mutator: &PlainMutator, a: u8) -> Result<Action, End>
    ensures { result ≡ action mutator.now (Jr a) }
{
    let target = mutator.number(a)?;
    Ok(Action::Jumps(target))
}

/// `out ra`: a number is printed by a mutator that has not printed the most.
#[tactic(auto, unfolding(plain_heap::specs::Action::action))]
pub fn print(mutator: &PlainMutator, a: u8) -> Result<Action, End>
    ensures { result ≡ action mutator.now (Out a) }
{
    let number = mutator.number(a)?;
    if mutator.printed().len() < MOST_PRINTED {
        Ok(Action::Prints(number))
    } else {
        Err(End::OutputFull)
    }
}
