//! The instruction that some numbers tell.

ghost use Rattle.std.specs.Prelude.{◌≡◌};
ghost use Rattle.ael_c.specs.Instructions.{instruction_of, operand, register};

use ael_threads::{Instr, Operand};
use plain_state::NUMBERS;

/// A register by its number. A number over 255 stands for 255, which is none.
fn register(n: u64) -> u8
    ensures { result ≡ register n }
{
    if n < 256 { n as u8 } else { 255 }
}

/// A number, or from 2^62 on a register.
fn operand(n: u64) -> Operand
    ensures { result ≡ operand n }
{
    if n < NUMBERS {
        Operand::Number(n)
    } else {
        Operand::Reg(register(n - NUMBERS))
    }
}

/// The instruction with this number and these operands, in the order of the language, if there is one. Jumps are left out, since the caller
/// decides what comes next; `out` and `snap`, since nobody could read what they tell; and `halt`, which is a part of leaving.
pub fn instruction(op: u32, a: u64, b: u64, c: u64, d: u64, e: u64) -> Option<Instr>
    ensures { result ≡ instruction_of op a b c d e }
{
    Some(match op {
        0 => Instr::Li(register(a), b),
        1 => Instr::Mov(register(a), register(b)),
        2 => Instr::Add(register(a), register(b), register(c)),
        3 => Instr::Sub(register(a), register(b), register(c)),
        4 => Instr::Mul(register(a), register(b), register(c)),
        5 => Instr::Div(register(a), register(b), register(c)),
        6 => Instr::Rem(register(a), register(b), register(c)),
        7 => Instr::Lt(register(a), register(b), register(c)),
        8 => Instr::Eq(register(a), register(b), register(c)),
        9 => Instr::New(register(a), operand(b)),
        10 => Instr::Raw(register(a), operand(b)),
        11 => Instr::Mix(register(a), operand(b), operand(c)),
        12 => Instr::Weak(register(a), register(b)),
        13 => Instr::Ld(register(a), register(b), operand(c)),
        14 => Instr::St(register(a), operand(b), register(c)),
        15 => Instr::Cas(
            register(a),
            register(b),
            operand(c),
            register(d),
            register(e),
        ),
        16 => Instr::Len(register(a), register(b)),
        17 => Instr::Isp(register(a), register(b)),
        18 => Instr::Get(register(a), operand(b)),
        19 => Instr::Put(operand(a), register(b)),
        20 => Instr::Swap(register(a), operand(b)),
        _ => return None,
    })
}
