//! What is printed of a state, and the line of an order.

ghost use Rattle.std.specs.Prelude.{◌≡◌, ◌++◌, IfOk, OnOk};
ghost use Rattle.std.specs.String.{string_bytes};
ghost use Rattle.plain_heap.specs.Print.{printed_lines, print_of, order_line};

use crate::state::PlainState;
use plain_heap::Mark;
use plain_state::{End, NoMemory};
use std::alloc::Global;

/// Adds a line for each number that mutator m printed, and one for its end, or for `stopped`.
///
/// Where memory is out, nothing is said of what `out` then has.
pub fn push_lines(
    out: &mut String,
    m: usize,
    numbers: &[u64],
    end: Option<End>,
) -> Result<(), NoMemory>
    ensures { OnOk result (string_bytes out.new ≡ string_bytes out.old ++ printed_lines m numbers.now end) }
{
    for number in numbers {
        writeln!(out, "{m}: {number}")?;
    }
    match end {
        Some(why) => writeln!(out, "{m}: {why}")?,
        None => writeln!(out, "{m}: stopped")?,
    }
    Ok(())
}

/// Adds the line of an order.
///
/// Where memory is out, nothing is said of what `out` then has.
pub fn push_order(out: &mut String, order: &[Mark]) -> Result<(), NoMemory>
    ensures { OnOk result (string_bytes out.new ≡ string_bytes out.old ++ order_line order.now) }
{
    out.push_str("order")?;
    for mark in order {
        write!(out, " {mark}")?;
    }
    out.push('\n')?;
    Ok(())
}

/// The lines of all mutators.
pub fn print(alloc: Global, s: &PlainState) -> Result<Vec<u8>, NoMemory>
    ensures { IfOk result (λ bytes. bytes.items ≡ print_of s.now) }
{
    let mut out = String::new(alloc);
    for (m, mutator) in s.all().iter().enumerate() {
        push_lines(&mut out, m, mutator.printed(), mutator.end())?;
    }
    Ok(out.into_bytes())
}
