//! What a shape stands for.

use std::fmt;

/// What a shape stands for, by which it is coloured.
#[derive(Clone, Copy, PartialEq, Eq)]
pub enum Class {
    /// A word that no record has.
    Free,
    /// A header.
    Header,
    /// A number with its tag: in a field, a register or the board, the count of a mixed record, or the target of a cell.
    Number,
    /// A number without a tag: a word of a raw record, one behind the fields of a mixed one, or the link of a cell.
    Raw,
    /// A pointer into the space that records are copied from.
    Old,
    /// Any other pointer.
    New,
    /// What stands in place of a header that was copied.
    Forward,
    /// The same, once the copying is done.
    Faded,
    /// What stands in place of a header that is being copied.
    Busy,
    /// A page that is open in this epoch.
    Open,
    /// A page that is being scanned in this epoch.
    Scanning,
    /// A page of an earlier epoch.
    Earlier,
    /// A page that was neither opened nor scanned.
    Unset,
    /// FRONT or LOW.
    Mark,
    /// A line from a field to what it refers to.
    FieldNew,
    /// The same into the space that records are copied from.
    FieldOld,
    /// A line from a weak cell to its target.
    Weak,
    /// A line from a register or the board to what it refers to.
    RootNew,
    /// The same into the space that records are copied from.
    RootOld,
    /// A line from a record's old place to its copy.
    Copy,
    /// The same, once the copying is done.
    Copied,
    /// Plain text.
    Plain,
    /// Text beside a page or above a record.
    Small,
    /// Text in the middle of a word.
    Inside,
    /// The same, that ends where it stands.
    Ending,
}

impl fmt::Display for Class {
    ghost use Rattle.std.specs.Prelude.{Some};
    ghost use Rattle.ael_picture.specs.Shapes.{class_name};

    ghost output = { λ class. Some (class_name class) };

    fn fmt<W: fmt::Write>(&self, f: &mut fmt::Formatter<W>) -> fmt::Result {
        let name = match self {
            Class::Free => "free",
            Class::Header => "header",
            Class::Number => "number",
            Class::Raw => "raw",
            Class::Old => "old",
            Class::New => "new",
            Class::Forward => "forward",
            Class::Faded => "faded",
            Class::Busy => "busy",
            Class::Open => "open",
            Class::Scanning => "scanning",
            Class::Earlier => "earlier",
            Class::Unset => "unset",
            Class::Mark => "mark",
            Class::FieldNew => "field to-new",
            Class::FieldOld => "field to-old",
            Class::Weak => "field weak",
            Class::RootNew => "root to-new",
            Class::RootOld => "root to-old",
            Class::Copy => "copy",
            Class::Copied => "copy past",
            Class::Plain => "plain",
            Class::Small => "small",
            Class::Inside => "inside",
            Class::Ending => "ending",
        };
        f.write_str(name)
    }
}
