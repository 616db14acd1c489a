//! The plain machine's values as a worker sees them. A record's address stands for its identity, as that of a record of
//! mutator 0, whoever made it: so one definition of an action, over values, serves both machines.

ghost use Rattle.std.specs.Prelude.{◌≡◌};
ghost use Rattle.record_access.specs.Seen.{value_seen, word_for};
ghost use Rattle.gc_worker.specs.Steps.Stepped.{FitsValue};

use heap_words::Word;
use plain_state::{Identity, Value};

/// The value that a word is to a worker: a record's identity is its address.
#[tactic(auto, using(crate::proofs::Words::Read::seen_number, crate::proofs::Words::Read::seen_pointer, crate::proofs::Words::Read::seen_neither))]
pub fn value_in(word: u64) -> Value
    ensures exact { result ≡ value_seen word }
    ensures fits { FitsValue result }
{
    if let Some(n) = Word(word).as_number() {
        return Value::Number(n);
    }
    match Word(word).as_pointer() {
        Some(address) => Value::Reference(Identity {
            mutator: 0,
            serial: u64::from(address),
        }),
        None => Value::Number(0),
    }
}

/// The word of such a value.
pub fn word_of(value: Value) -> u64
    requires { FitsValue value }
    ensures { result ≡ word_for value }
{
    match value {
        Value::Number(n) => Word::number(n).0,
        Value::Reference(identity) => Word::pointer(identity.serial as u32).0,
    }
}
