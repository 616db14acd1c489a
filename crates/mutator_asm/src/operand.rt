//! An operand that is a register or a number.

use std::fmt;

/// What is read where a register or a number may stand.
#[derive(Clone, Copy, Debug, PartialEq, Eq)]
pub enum Operand {
    /// A register, 0 to 7.
    Reg(u8),
    /// A number below 2^62.
    Number(u64),
}

/// An operand as a listing has it.
impl fmt::Display for Operand {
    ghost use Rattle.std.specs.Prelude.{Some};
    ghost use Rattle.mutator_asm.specs.Listing.{operand_token};

    ghost output = { λ operand. Some (operand_token operand) };

    fn fmt<W: fmt::Write>(&self, f: &mut fmt::Formatter<W>) -> fmt::Result {
        match self {
            Operand::Reg(r) => write!(f, "r{r}"),
            Operand::Number(n) => write!(f, "{n}"),
        }
    }
}
