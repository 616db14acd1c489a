//! The order of a run as it is printed.

ghost use Rattle.std.specs.Prelude.{◌≡◌, ℕ};
ghost use Rattle.plain_heap.specs.Order.{story};
ghost use Rattle.ael_jobs.specs.Runs.Orders.{shown_order};

use mutator_asm::Code;
use plain_heap::Mark;
use plain_machine::has_weak;

/// The order as it is printed. In a program that makes no cells the marks of tracing change nothing, and are left out.
pub fn shown_order(code: &Code, mut order: Vec<Mark>) -> Vec<Mark>
    ensures shown { result.items ≡ shown_order code.now order.items }
    ensures same { (turns : ℕ) → story code.now turns result.items ≡ story code.now turns order.items }
{
    if !has_weak(code) {
        order.retain(|mark| !matches!(mark, Mark::Traced));
    }
    order
}
