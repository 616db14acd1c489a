//! What can be wrong with a text.

ghost use Rattle.std.specs.Prelude.{◌≡◌};
ghost use Rattle.mutator_asm.specs.Mistake.{number_of_mistake};

/// What is wrong with a line.
#[derive(Clone, Copy, Debug, PartialEq, Eq)]
pub enum Mistake {
    /// The first token, or the first behind the label, is no instruction; or it is a directive that
    /// isn't known or stands behind a label.
    UnknownInstr,
    /// An instruction or a `.mutator` has operands of a wrong count or kind.
    BadOperand,
    /// A jump names a label that its section lacks.
    UnknownLabel,
    /// The label was defined before in the section.
    LabelTwice,
    /// A label or an instruction stands before any section; or the text has no section.
    NoMutator,
    /// It begins the 17th section.
    TooManyMutators,
    /// It has the 65,537th instruction.
    CodeTooLong,
    /// A `.schedule` has no items, a wrong one, or the 65,537th of the text.
    BadSchedule,
    /// A number of 2^62 or more stands where a number may stand.
    NumberTooBig,
}

impl Mistake {
    /// The number by which an error is reported.
    pub fn number(self) -> u8
        ensures { result ≡ number_of_mistake self }
    {
        match self {
            Mistake::UnknownInstr => 1,
            Mistake::BadOperand => 2,
            Mistake::UnknownLabel => 3,
            Mistake::LabelTwice => 4,
            Mistake::NoMutator => 5,
            Mistake::TooManyMutators => 6,
            Mistake::CodeTooLong => 7,
            Mistake::BadSchedule => 8,
            Mistake::NumberTooBig => 9,
        }
    }
}
