//! The registers, and what each is for.

ghost use Rattle.std.specs.Prelude.{◌≡◌};
ghost use Rattle.ael_runtime.specs.Reading.{root_register};

/// The register of the lengths and the records that are looked at. Nobody relies on what it holds.
pub(crate) const SCRATCH: u8 = 5;

/// The register that leads to the topmost frame, or holds a number if there is none.
pub(crate) const FRAMES: u8 = 7;

/// A root: a register that a runtime may use. It holds a number or leads to a record, which it keeps.
#[derive(Clone, Copy, Debug, PartialEq, Eq)]
pub enum Root {
    R0,
    R1,
    R2,
    R3,
    R4,
}

impl Root {
    /// The number of its register.
    pub fn register(self) -> u8
        ensures { result ≡ root_register self }
    {
        match self {
            Root::R0 => 0,
            Root::R1 => 1,
            Root::R2 => 2,
            Root::R3 => 3,
            Root::R4 => 4,
        }
    }
}
