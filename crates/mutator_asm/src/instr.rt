//! The instructions.

use crate::operand::Operand::{self, Number, Reg};
use crate::spelling::{five, label, one, one_label, three, two};
use std::fmt;

/// An instruction, its operands in the order of the text. A register is its number, 0 to 7. A jump's
/// target is the number of an instruction in the same section, or the section's length.
#[derive(Clone, Copy, PartialEq, Eq)]
pub enum Instr {
    /// `li rd k`: rd becomes the number k.
    Li(u8, u64),
    /// `mov rd ra`: rd becomes ra.
    Mov(u8, u8),
    /// `add rd ra rb`: rd becomes the sum of ra and rb.
    Add(u8, u8, u8),
    /// `sub rd ra rb`: rd becomes ra less rb.
    Sub(u8, u8, u8),
    /// `mul rd ra rb`: rd becomes the product of ra and rb.
    Mul(u8, u8, u8),
    /// `div rd ra rb`: rd becomes the quotient of ra by rb.
    Div(u8, u8, u8),
    /// `rem rd ra rb`: rd becomes the remainder of ra by rb.
    Rem(u8, u8, u8),
    /// `lt rd ra rb`: rd becomes 1 if ra is less than rb, else 0.
    Lt(u8, u8, u8),
    /// `eq rd ra rb`: rd becomes 1 if ra and rb are the same number or the same record, else 0.
    Eq(u8, u8, u8),
    /// `jmp L`: goes on at the target.
    Jmp(u32),
    /// `jz ra L`: goes on at the target if ra is the number 0.
    Jz(u8, u32),
    /// `jal rd L`: rd becomes the number of the next instruction; goes on at the target.
    Jal(u8, u32),
    /// `jr ra`: goes on at the instruction whose number is in ra.
    Jr(u8),
    /// `new rd x`: rd becomes a new record of x fields.
    New(u8, Operand),
    /// `raw rd x`: rd becomes a new record of x raw words.
    Raw(u8, Operand),
    /// `mix rd xf xr`: rd becomes a new record of xf fields, and behind them xr raw words.
    Mix(u8, Operand, Operand),
    /// `weak rd ra`: rd becomes a new cell whose target is ra.
    Weak(u8, u8),
    /// `ld rd ra x`: rd becomes word x of the record in ra.
    Ld(u8, u8, Operand),
    /// `st ra x rb`: word x of the record in ra becomes rb.
    St(u8, Operand, u8),
    /// `cas rd ra x rb rc`: if word x of the record in ra is what rb is, it becomes rc and rd becomes 1;
    /// else rd becomes 0.
    Cas(u8, u8, Operand, u8, u8),
    /// `len rd ra`: rd becomes the length of the record in ra.
    Len(u8, u8),
    /// `isp rd ra`: rd becomes 1 if ra refers to a record, else 0.
    Isp(u8, u8),
    /// `get rd x`: rd becomes word x of the board.
    Get(u8, Operand),
    /// `put x ra`: word x of the board becomes ra.
    Put(Operand, u8),
    /// `swap rd x`: rd and word x of the board change places.
    Swap(u8, Operand),
    /// `out ra`: prints the number in ra.
    Out(u8),
    /// `snap`: marks a point of the order.
    Snap,
    /// `halt`: the mutator ends.
    Halt,
}

impl Instr {
    ghost use Rattle.std.specs.Prelude.{◌≡◌, [], slice_index_or};
    ghost use Rattle.mutator_asm.specs.Listing.{instr_tokens, jump_target};

    /// The target of a jump to a label: the number of an instruction of its section, or the section's
    /// length. `None` for every other instruction, `jr` among them.
    pub fn target(self) -> Option<u32>
        ensures { result ≡ jump_target self }
    {
        match self {
            Instr::Jmp(target) | Instr::Jz(_, target) | Instr::Jal(_, target) => Some(target),
            _ => None,
        }
    }

    /// The name of the instruction.
    fn name(self) -> &'static str
        ensures { result.now ≡ slice_index_or (instr_tokens self) 0 [] }
    {
        match self {
            Instr::Li(..) => "li",
            Instr::Mov(..) => "mov",
            Instr::Add(..) => "add",
            Instr::Sub(..) => "sub",
            Instr::Mul(..) => "mul",
            Instr::Div(..) => "div",
            Instr::Rem(..) => "rem",
            Instr::Lt(..) => "lt",
            Instr::Eq(..) => "eq",
            Instr::Jmp(..) => "jmp",
            Instr::Jz(..) => "jz",
            Instr::Jal(..) => "jal",
            Instr::Jr(..) => "jr",
            Instr::New(..) => "new",
            Instr::Raw(..) => "raw",
            Instr::Mix(..) => "mix",
            Instr::Weak(..) => "weak",
            Instr::Ld(..) => "ld",
            Instr::St(..) => "st",
            Instr::Cas(..) => "cas",
            Instr::Len(..) => "len",
            Instr::Isp(..) => "isp",
            Instr::Get(..) => "get",
            Instr::Put(..) => "put",
            Instr::Swap(..) => "swap",
            Instr::Out(..) => "out",
            Instr::Snap => "snap",
            Instr::Halt => "halt",
        }
    }
}

/// An instruction as a listing has it, without its label.
impl fmt::Display for Instr {
    ghost use Rattle.std.specs.Prelude.{Some};
    ghost use Rattle.mutator_asm.specs.Listing.{instr_tokens, spaced};

    ghost output = { λ instr. Some (spaced (instr_tokens instr)) };

    fn fmt<W: fmt::Write>(&self, f: &mut fmt::Formatter<W>) -> fmt::Result {
        let name = self.name();
        match *self {
            Instr::Li(d, k) => two(f, name, Reg(d), Number(k)),
            Instr::Mov(d, a) | Instr::Weak(d, a) | Instr::Len(d, a) | Instr::Isp(d, a) => {
                two(f, name, Reg(d), Reg(a))
            }
            Instr::Add(d, a, b)
            | Instr::Sub(d, a, b)
            | Instr::Mul(d, a, b)
            | Instr::Div(d, a, b)
            | Instr::Rem(d, a, b)
            | Instr::Lt(d, a, b)
            | Instr::Eq(d, a, b) => three(f, name, Reg(d), Reg(a), Reg(b)),
            Instr::Jmp(t) => label(f, name, t),
            Instr::Jz(a, t) | Instr::Jal(a, t) => one_label(f, name, Reg(a), t),
            Instr::Jr(a) | Instr::Out(a) => one(f, name, Reg(a)),
            Instr::New(d, x) | Instr::Raw(d, x) | Instr::Get(d, x) | Instr::Swap(d, x) => {
                two(f, name, Reg(d), x)
            }
            Instr::Mix(d, fields, raw) => three(f, name, Reg(d), fields, raw),
            Instr::Ld(d, a, x) => three(f, name, Reg(d), Reg(a), x),
            Instr::St(a, x, b) => three(f, name, Reg(a), x, Reg(b)),
            Instr::Cas(d, a, x, b, c) => five(f, name, Reg(d), Reg(a), x, Reg(b), Reg(c)),
            Instr::Put(x, a) => two(f, name, x, Reg(a)),
            Instr::Snap | Instr::Halt => f.write_str(name),
        }
    }
}

/// Shows an instruction as it is listed.
impl fmt::Debug for Instr {
    fn fmt<W: fmt::Write>(&self, f: &mut fmt::Formatter<W>) -> fmt::Result {
        fmt::Display::fmt(self, f)
    }
}
