//! Which lines are shown.

use std::fmt;

/// Which lines are shown. Each has a link in the picture, and is chosen while the address names it.
#[derive(Clone, Copy, PartialEq, Eq)]
pub enum Choice {
    All,
    /// Those from fields.
    Fields,
    /// Those from registers and the board.
    Roots,
    /// Those from old places to copies.
    Copies,
    Nothing,
}

impl fmt::Display for Choice {
    ghost use Rattle.std.specs.Prelude.{Some};
    ghost use Rattle.ael_picture.specs.Shapes.{choice_name};

    ghost output = { λ choice. Some (choice_name choice) };

    fn fmt<W: fmt::Write>(&self, f: &mut fmt::Formatter<W>) -> fmt::Result {
        let name = match self {
            Choice::All => "all",
            Choice::Fields => "fields",
            Choice::Roots => "roots",
            Choice::Copies => "copies",
            Choice::Nothing => "nothing",
        };
        f.write_str(name)
    }
}
