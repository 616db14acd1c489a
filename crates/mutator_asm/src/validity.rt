//! Whether an instruction is one that a text can hold.

ghost use Rattle.std.specs.Prelude.{◌≡◌};
ghost use Rattle.mutator_asm.specs.Program as program;

use crate::instr::Instr;
use crate::operand::Operand;
use plain_state::{MOST_INSTRS, NUMBERS, REGISTERS};

/// The greatest target of a jump: a text has at most so many instructions.
const LAST_TARGET: u32 = MOST_INSTRS as u32;

impl Instr {
    /// Whether each operand is one that its place allows: registers 0 to 7, numbers below 2^62, a jump's target at most 65,536.
    pub fn is_valid(self) -> bool
        ensures { result ≡ program.is_valid self }
    {
        match self {
            Instr::Li(d, k) => is_register(d) && is_number(k),
            Instr::Mov(d, a) | Instr::Weak(d, a) | Instr::Len(d, a) | Instr::Isp(d, a) => {
                is_register(d) && is_register(a)
            }
            Instr::Add(d, a, b)
            | Instr::Sub(d, a, b)
            | Instr::Mul(d, a, b)
            | Instr::Div(d, a, b)
            | Instr::Rem(d, a, b)
            | Instr::Lt(d, a, b)
            | Instr::Eq(d, a, b) => is_register(d) && is_register(a) && is_register(b),
            Instr::Jmp(t) => is_target(t),
            Instr::Jz(a, t) | Instr::Jal(a, t) => is_register(a) && is_target(t),
            Instr::Jr(a) | Instr::Out(a) => is_register(a),
            Instr::New(d, x) | Instr::Raw(d, x) | Instr::Get(d, x) | Instr::Swap(d, x) => {
                is_register(d) && is_operand(x)
            }
            Instr::Mix(d, fields, raw) => is_register(d) && is_operand(fields) && is_operand(raw),
            Instr::Ld(d, a, x) => is_register(d) && is_register(a) && is_operand(x),
            Instr::St(a, x, b) => is_register(a) && is_operand(x) && is_register(b),
            Instr::Cas(d, a, x, b, c) => {
                is_register(d)
                    && is_register(a)
                    && is_operand(x)
                    && is_register(b)
                    && is_register(c)
            }
            Instr::Put(x, a) => is_operand(x) && is_register(a),
            Instr::Snap | Instr::Halt => true,
        }
    }
}

fn is_register(r: u8) -> bool
    ensures { result ≡ program.is_register r }
{
    usize::from(r) < REGISTERS
}

fn is_number(n: u64) -> bool
    ensures { result ≡ program.is_number n }
{
    n < NUMBERS
}

fn is_operand(x: Operand) -> bool
    ensures { result ≡ program.is_operand x }
{
    match x {
        Operand::Reg(r) => is_register(r),
        Operand::Number(n) => is_number(n),
    }
}

fn is_target(t: u32) -> bool
    ensures { result ≡ program.is_target t }
{
    t <= LAST_TARGET
}
