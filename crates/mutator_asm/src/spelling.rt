//! An instruction as a listing has it, by the number of its operands: its name and each operand, with one space between
//! two. A label stands last.

ghost use Rattle.std.specs.Prelude.{[], ◌∷◌};
ghost use Rattle.std.specs.Fmt.{WritesOnOk};
ghost use Rattle.mutator_asm.specs.Listing.{spaced, operand_token, label_name};

use crate::operand::Operand;
use std::fmt;

/// `name x`.
pub fn one<W: fmt::Write>(f: &mut fmt::Formatter<W>, name: &str, x: Operand) -> fmt::Result
    ensures { WritesOnOk W.write_str_gives f.old result (spaced (name.now ∷ operand_token x ∷ [])) f.new }
{
    write!(f, "{name} {x}")
}

/// `name x y`.
pub fn two<W: fmt::Write>(
    f: &mut fmt::Formatter<W>,
    name: &str,
    x: Operand,
    y: Operand,
) -> fmt::Result
    ensures { WritesOnOk W.write_str_gives f.old result (spaced (name.now ∷ operand_token x ∷ operand_token y ∷ [])) f.new }
{
    write!(f, "{name} {x} {y}")
}

/// `name x y z`.
pub fn three<W: fmt::Write>(
    f: &mut fmt::Formatter<W>,
    name: &str,
    x: Operand,
    y: Operand,
    z: Operand,
) -> fmt::Result
    ensures { WritesOnOk W.write_str_gives f.old result (spaced (name.now ∷ operand_token x ∷ operand_token y ∷ operand_token z ∷ [])) f.new }
{
    write!(f, "{name} {x} {y} {z}")
}

/// `name x y z v w`.
pub fn five<W: fmt::Write>(
    f: &mut fmt::Formatter<W>,
    name: &str,
    x: Operand,
    y: Operand,
    z: Operand,
    v: Operand,
    w: Operand,
) -> fmt::Result
    ensures { WritesOnOk W.write_str_gives f.old result (spaced (name.now ∷ operand_token x ∷ operand_token y ∷ operand_token z ∷ operand_token v ∷ operand_token w ∷ [])) f.new }
{
    write!(f, "{name} {x} {y} {z} {v} {w}")
}

/// `name L`.
pub fn label<W: fmt::Write>(f: &mut fmt::Formatter<W>, name: &str, target: u32) -> fmt::Result
    ensures { WritesOnOk W.write_str_gives f.old result (spaced (name.now ∷ label_name target ∷ [])) f.new }
{
    write!(f, "{name} L{target}")
}

/// `name x L`.
pub fn one_label<W: fmt::Write>(
    f: &mut fmt::Formatter<W>,
    name: &str,
    x: Operand,
    target: u32,
) -> fmt::Result
    ensures { WritesOnOk W.write_str_gives f.old result (spaced (name.now ∷ operand_token x ∷ label_name target ∷ [])) f.new }
{
    write!(f, "{name} {x} L{target}")
}
