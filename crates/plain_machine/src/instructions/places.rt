//! Numbers that have to be lengths, or places in a list.

ghost use Rattle.std.specs.Prelude.{◌≡◌};
ghost use Rattle.mutator_asm.specs.declared.instr.Instr.TheVariants.{Cas, Get, Ld, Len, Put, St, Swap, Weak};
ghost use Rattle.plain_heap.specs.Action.{action, length_of, mixed_length, allocates, mixes, in_record, board_place};

use crate::mutator::PlainMutator;
use mutator_asm::Operand;
use plain_heap::Action;
use plain_state::{BOARD_WORDS, End, Kind, LONGEST_RECORD, Value};

/// The number as the length of a record, else the end for one that is too long.
fn length_of(number: u64) -> Result<u16, End>
    ensures { result ≡ length_of number }
{
    if number <= LONGEST_RECORD {
        Ok(number as u16)
    } else {
        Err(End::OutOfRange)
    }
}

/// How many values a mixed record has, else the end for one that is too long: the count of its fields
/// takes a word.
fn mixed_length(fields: u64, raw: u64) -> Result<u16, End>
    ensures { result ≡ mixed_length fields raw }
{
    match fields.checked_add(raw) {
        Some(len) if len < LONGEST_RECORD => Ok(len as u16),
        _ => Err(End::OutOfRange),
    }
}

/// The number as that of a word among so many, else the end for one past them.
pub fn in_record(len: usize, x: u64) -> Result<u64, End>
    ensures { result ≡ in_record len x }
{
    if x < len as u64 {
        Ok(x)
    } else {
        Err(End::OutOfRange)
    }
}

/// The word of the board that an operand names.
pub fn board_place(mutator: &PlainMutator, x: Operand) -> Result<u64, End>
    ensures { result ≡ board_place mutator.now x }
{
    let x = mutator.operand(x)?;
    in_record(BOARD_WORDS, x)
}

/// `new rd x` and `raw rd x`
pub fn allocate(mutator: &PlainMutator, kind: Kind, d: u8, x: Operand) -> Result<Action, End>
    ensures { result ≡ allocates mutator.now kind d x }
{
    let number = mutator.operand(x)?;
    let len = length_of(number)?;
    Ok(Action::Makes(kind, d, len, Value::Number(0)))
}

/// `mix rd xf xr`
pub fn allocate_mixed(
    mutator: &PlainMutator,
    d: u8,
    fields: Operand,
    raw: Operand,
) -> Result<Action, End>
    ensures { result ≡ mixes mutator.now d fields raw }
{
    let fields = mutator.operand(fields)?;
    let raw = mutator.operand(raw)?;
    let len = mixed_length(fields, raw)?;
    let kind = Kind::Mixed(fields as u16);
    Ok(Action::Makes(kind, d, len, Value::Number(0)))
}

/// `weak rd ra`
#[tactic(auto, unfolding(plain_heap::specs::Action::action))]
pub fn make_cell(mutator: &PlainMutator, d: u8, a: u8) -> Result<Action, End>
    ensures { result ≡ action mutator.now (Weak d a) }
{
    let identity = mutator.reference(a)?;
    Ok(Action::Makes(Kind::Weak, d, 1, Value::Reference(identity)))
}

/// `ld rd ra x`
#[tactic(auto, unfolding(plain_heap::specs::Action::action))]
pub fn load(mutator: &PlainMutator, d: u8, a: u8, x: Operand) -> Result<Action, End>
    ensures { result ≡ action mutator.now (Ld d a x) }
{
    let identity = mutator.reference(a)?;
    let x = mutator.operand(x)?;
    Ok(Action::Loads(d, identity, x))
}

/// `st ra x rb`
#[tactic(auto, unfolding(plain_heap::specs::Action::action))]
pub fn store(mutator: &PlainMutator, a: u8, x: Operand, b: u8) -> Result<Action, End>
    ensures { result ≡ action mutator.now (St a x b) }
{
    let identity = mutator.reference(a)?;
    let x = mutator.operand(x)?;
    Ok(Action::Stores(identity, x, mutator.register(b)))
}

/// `cas rd ra x rb rc`
#[tactic(auto, unfolding(plain_heap::specs::Action::action))]
pub fn exchange(
    mutator: &PlainMutator,
    d: u8,
    a: u8,
    x: Operand,
    b: u8,
    c: u8,
) -> Result<Action, End>
    ensures { result ≡ action mutator.now (Cas d a x b c) }
{
    let identity = mutator.reference(a)?;
    let x = mutator.operand(x)?;
    let expected = mutator.register(b);
    Ok(Action::Compares(d, identity, x, expected, mutator.register(c)))
}

/// `len rd ra`
#[tactic(auto, unfolding(plain_heap::specs::Action::action))]
pub fn measure(mutator: &PlainMutator, d: u8, a: u8) -> Result<Action, End>
    ensures { result ≡ action mutator.now (Len d a) }
{
    let identity = mutator.reference(a)?;
    Ok(Action::Measures(d, identity))
}

/// `get rd x`
#[tactic(auto, unfolding(plain_heap::specs::Action::action))]
pub fn get(mutator: &PlainMutator, d: u8, x: Operand) -> Result<Action, End>
    ensures { result ≡ action mutator.now (Get d x) }
{
    let x = board_place(mutator, x)?;
    Ok(Action::Gets(d, x))
}

/// `put x ra`
#[tactic(auto, unfolding(plain_heap::specs::Action::action))]
pub fn put(mutator: &PlainMutator, x: Operand, a: u8) -> Result<Action, End>
    ensures { result ≡ action mutator.now (Put x a) }
{
    let x = board_place(mutator, x)?;
    Ok(Action::Puts(x, mutator.register(a)))
}

/// `swap rd x`
#[tactic(auto, unfolding(plain_heap::specs::Action::action))]
pub fn swap(mutator: &PlainMutator, d: u8, x: Operand) -> Result<Action, End>
    ensures { result ≡ action mutator.now (Swap d x) }
{
    let x = board_place(mutator, x)?;
    Ok(Action::Swaps(d, x, mutator.register(d)))
}
