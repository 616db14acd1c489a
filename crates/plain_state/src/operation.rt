//! What is computed of two numbers.

ghost use Rattle.std.specs.Prelude.{◌≡◌, ◌<◌, IfOk};
ghost use Rattle.plain_state.specs.Operation.{applied};

use crate::end::End;
use crate::sizes::NUMBERS;

/// What an instruction computes of two numbers below 2^62.
#[derive(Clone, Copy, Debug, PartialEq, Eq)]
pub enum Operation {
    /// The sum modulo 2^62.
    Add,
    /// The difference modulo 2^62.
    Sub,
    /// The product modulo 2^62.
    Mul,
    /// The quotient.
    Div,
    /// The remainder.
    Rem,
    /// 1 if the first is the less, else 0.
    Lt,
}

impl Operation {
    /// The number computed, or the end for a division by 0, which `Div` and `Rem` alone have.
    pub fn apply(self, a: u64, b: u64) -> Result<u64, End>
        ensures exact { result ≡ applied self a b }
        ensures number { a < NUMBERS → IfOk result (λ n. n < NUMBERS) }
    {
        match self {
            Operation::Add => Ok((a % NUMBERS + b % NUMBERS) % NUMBERS),
            Operation::Sub => Ok((a % NUMBERS + (NUMBERS - b % NUMBERS)) % NUMBERS),
            Operation::Mul => Ok(a.wrapping_mul(b) % NUMBERS),
            Operation::Div => a.checked_div(b).ok_or(End::ZeroDivisor),
            Operation::Rem => a.checked_rem(b).ok_or(End::ZeroDivisor),
            Operation::Lt => Ok(u64::from(a < b)),
        }
    }
}
