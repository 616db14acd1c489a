//! The instruction that stands behind a name, by the kinds of its operands: made of them where they could be read.
//! Registers are read before the one that may be a number, since a wrong operand counts before a number that is too
//! big.

ghost use Rattle.std.specs.Prelude.{◌≡◌, Err, IsOkAnd, MatchResult};
ghost use Rattle.mutator_asm.specs.Instr.{made, nothing, one_register, two_registers, three_registers, register_number, register_operand, operand_register, two_registers_operand, both, register_two_operands, register_operand_register, registers_operand_registers};
ghost use Rattle.program_text.specs.Read.{tokens_view};

use crate::text::token::{number, operand, register};
use mutator_asm::{Instr, Mistake, Operand};

/// No operands: the instruction itself.
pub fn nothing(operands: &[&[u8]], instr: Instr) -> Result<Instr, Mistake>
    ensures { result ≡ made (λ _. instr) (nothing (tokens_view operands.now)) }
{
    match operands {
        [] => Ok(instr),
        _ => Err(Mistake::BadOperand),
    }
}

/// `ra`.
pub fn one_register<F: FnOnce(u8) -> Instr>(operands: &[&[u8]], make: F) -> Result<Instr, Mistake>
    requires { F.IsAlwaysCallable make }
    ensures { MatchResult (one_register (tokens_view operands.now)) (λ o. IsOkAnd result (F.post make o)) (λ mistake. result ≡ Err mistake) }
{
    match operands {
        [a] => register(a).map(make),
        _ => Err(Mistake::BadOperand),
    }
}

/// `rd ra`.
pub fn two_registers<F: FnOnce(u8, u8) -> Instr>(
    operands: &[&[u8]],
    make: F,
) -> Result<Instr, Mistake>
    requires { F.IsAlwaysCallable make }
    ensures { MatchResult (two_registers (tokens_view operands.now)) (λ o. IsOkAnd result (F.post make o.0 o.1)) (λ mistake. result ≡ Err mistake) }
{
    match operands {
        [d, a] => {
            let d = register(d)?;
            Ok(make(d, register(a)?))
        }
        _ => Err(Mistake::BadOperand),
    }
}

/// `rd ra rb`.
pub fn three_registers<F: FnOnce(u8, u8, u8) -> Instr>(
    operands: &[&[u8]],
    make: F,
) -> Result<Instr, Mistake>
    requires { F.IsAlwaysCallable make }
    ensures { MatchResult (three_registers (tokens_view operands.now)) (λ o. IsOkAnd result (F.post make o.0 o.1 o.2)) (λ mistake. result ≡ Err mistake) }
{
    match operands {
        [d, a, b] => {
            let d = register(d)?;
            let a = register(a)?;
            Ok(make(d, a, register(b)?))
        }
        _ => Err(Mistake::BadOperand),
    }
}

/// `rd k`.
pub fn register_number<F: FnOnce(u8, u64) -> Instr>(
    operands: &[&[u8]],
    make: F,
) -> Result<Instr, Mistake>
    requires { F.IsAlwaysCallable make }
    ensures { MatchResult (register_number (tokens_view operands.now)) (λ o. IsOkAnd result (F.post make o.0 o.1)) (λ mistake. result ≡ Err mistake) }
{
    match operands {
        [d, k] => {
            let d = register(d)?;
            Ok(make(d, number(k)?))
        }
        _ => Err(Mistake::BadOperand),
    }
}

/// `rd x`.
pub fn register_operand<F: FnOnce(u8, Operand) -> Instr>(
    operands: &[&[u8]],
    make: F,
) -> Result<Instr, Mistake>
    requires { F.IsAlwaysCallable make }
    ensures { MatchResult (register_operand (tokens_view operands.now)) (λ o. IsOkAnd result (F.post make o.0 o.1)) (λ mistake. result ≡ Err mistake) }
{
    match operands {
        [d, x] => {
            let d = register(d)?;
            Ok(make(d, operand(x)?))
        }
        _ => Err(Mistake::BadOperand),
    }
}

/// `x ra`.
pub fn operand_register<F: FnOnce(Operand, u8) -> Instr>(
    operands: &[&[u8]],
    make: F,
) -> Result<Instr, Mistake>
    requires { F.IsAlwaysCallable make }
    ensures { MatchResult (operand_register (tokens_view operands.now)) (λ o. IsOkAnd result (F.post make o.0 o.1)) (λ mistake. result ≡ Err mistake) }
{
    match operands {
        [x, a] => {
            let a = register(a)?;
            Ok(make(operand(x)?, a))
        }
        _ => Err(Mistake::BadOperand),
    }
}

/// `rd ra x`.
pub fn two_registers_operand<F: FnOnce(u8, u8, Operand) -> Instr>(
    operands: &[&[u8]],
    make: F,
) -> Result<Instr, Mistake>
    requires { F.IsAlwaysCallable make }
    ensures { MatchResult (two_registers_operand (tokens_view operands.now)) (λ o. IsOkAnd result (F.post make o.0 o.1 o.2)) (λ mistake. result ≡ Err mistake) }
{
    match operands {
        [d, a, x] => {
            let d = register(d)?;
            let a = register(a)?;
            Ok(make(d, a, operand(x)?))
        }
        _ => Err(Mistake::BadOperand),
    }
}

/// Two operands; one that is none counts before a number that is too big.
fn both(
    x: Result<Operand, Mistake>,
    y: Result<Operand, Mistake>,
) -> Result<(Operand, Operand), Mistake>
    ensures { result ≡ both x y }
{
    match (x, y) {
        (Ok(x), Ok(y)) => Ok((x, y)),
        (Err(Mistake::NumberTooBig), Err(mistake)) => Err(mistake),
        (Err(mistake), _) | (Ok(_), Err(mistake)) => Err(mistake),
    }
}

/// `rd x y`.
pub fn register_two_operands<F: FnOnce(u8, Operand, Operand) -> Instr>(
    operands: &[&[u8]],
    make: F,
) -> Result<Instr, Mistake>
    requires { F.IsAlwaysCallable make }
    ensures { MatchResult (register_two_operands (tokens_view operands.now)) (λ o. IsOkAnd result (F.post make o.0 o.1 o.2)) (λ mistake. result ≡ Err mistake) }
{
    match operands {
        [d, x, y] => {
            let d = register(d)?;
            let (x, y) = both(operand(x), operand(y))?;
            Ok(make(d, x, y))
        }
        _ => Err(Mistake::BadOperand),
    }
}

/// `ra x rb`.
pub fn register_operand_register<F: FnOnce(u8, Operand, u8) -> Instr>(
    operands: &[&[u8]],
    make: F,
) -> Result<Instr, Mistake>
    requires { F.IsAlwaysCallable make }
    ensures { MatchResult (register_operand_register (tokens_view operands.now)) (λ o. IsOkAnd result (F.post make o.0 o.1 o.2)) (λ mistake. result ≡ Err mistake) }
{
    match operands {
        [a, x, b] => {
            let a = register(a)?;
            let b = register(b)?;
            Ok(make(a, operand(x)?, b))
        }
        _ => Err(Mistake::BadOperand),
    }
}

/// `rd ra x rb rc`.
pub fn registers_operand_registers<F: FnOnce(u8, u8, Operand, u8, u8) -> Instr>(
    operands: &[&[u8]],
    make: F,
) -> Result<Instr, Mistake>
    requires { F.IsAlwaysCallable make }
    ensures { MatchResult (registers_operand_registers (tokens_view operands.now)) (λ o. IsOkAnd result (F.post make o.0 o.1 o.2 o.3 o.4)) (λ mistake. result ≡ Err mistake) }
{
    match operands {
        [d, a, x, b, c] => {
            let d = register(d)?;
            let a = register(a)?;
            let b = register(b)?;
            let c = register(c)?;
            Ok(make(d, a, operand(x)?, b, c))
        }
        _ => Err(Mistake::BadOperand),
    }
}
