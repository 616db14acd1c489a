//! Lists of numbers. A link is a record: a number, and the rest of the list, which is 0 at the end.
//!
//! A function takes its list in the root `LIST`, leaves its own there, and may use the other roots.

ghost use Rattle.std.specs.Prelude.{◌≡◌, IfOk, OnOk};
ghost use Rattle.plain_state.specs.declared.value.Value.TheVariants as values;
ghost use Rattle.embedding.specs.Lists.{list_of, head_in, tail_in, rest_of};

use crate::signs::{Outcome, Stop};
use ael_runtime::{Failure, Local, Root};
use std::sync::Wait;

pub const LIST: Root = Root::R0;

const REST: Root = Root::R1;

const NUMBER: Root = Root::R2;

const LINK_LENGTH: u16 = 2;

const NUMBER_FIELD: u16 = 0;

const REST_FIELD: u16 = 1;

/// Puts a number in front of the list.
pub fn prepend<R: Wait>(rt: &R, local: &mut Local<'_>, number: u64) -> Result<(), Failure>
    ensures of_heap { local.new.table ≡ local.old.table }
    ensures rest { OnOk result (tail_in local.new (list_of local.new) ≡ list_of local.old) }
{
    local.copy(rt, REST, LIST)?;
    link(rt, local, number)?;
    local.store(rt, LIST, REST_FIELD, REST)
}

/// Makes a link with this number. What is to follow it stays in its root.
fn link<R: Wait>(rt: &R, local: &mut Local<'_>, number: u64) -> Result<(), Failure>
    ensures of_heap { local.new.table ≡ local.old.table }
    ensures number { OnOk result (head_in local.new (list_of local.new) ≡ values.Number number) }
    ensures rest { OnOk result (rest_of local.new ≡ rest_of local.old) }
{
    local.make(rt, LIST, LINK_LENGTH, 0)?;
    local.set_number(rt, NUMBER, number)?;
    local.store(rt, LIST, NUMBER_FIELD, NUMBER)
}

/// Goes on with a checksum over so many numbers of the list: for each it is multiplied by 31, and the number is added, as far as 62 bits go.
/// A frame keeps what is left of the list, while its root is used for the number.
pub fn add<R: Wait>(rt: &R, local: &mut Local<'_>, count: u64, mut sum: u64) -> Outcome
    ensures { local.new.table ≡ local.old.table }
{
    local.push_frame(rt, 1)?;
    for _ in 0..count {
        local.save(rt, 0, LIST)?;
        let number = first(rt, local)?;
        sum = sum.wrapping_mul(31).wrapping_add(number) % (1 << 62);
        local.restore(rt, LIST, 0)?;
        local.load(rt, LIST, LIST, REST_FIELD)?;
    }
    local.pop_frame(rt)?;
    Ok(sum)
}

/// The first number of the list, which its root holds then.
fn first<R: Wait>(rt: &R, local: &mut Local<'_>) -> Outcome
    ensures of_heap { local.new.table ≡ local.old.table }
    ensures first { IfOk result (λ number. head_in local.new (list_of local.old) ≡ values.Number number) }
{
    local.load(rt, LIST, LIST, NUMBER_FIELD)?;
    local.number(LIST).ok_or(Stop::NoNumber)
}
