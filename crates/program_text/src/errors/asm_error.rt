//! Why a text gave no program.

ghost use Rattle.std.specs.Prelude.{◌≡◌, Some};
ghost use Rattle.program_text.specs.AsmError.{text_of_error, text_of_number};
ghost use Rattle.program_text.specs.declared.errors.asm_error.AsmError.TheVariants.{NoMemory, Text};

use crate::errors::fault::Fault;
use std::alloc::{AllocError, AllocFailed};
use std::error::Error;
use std::fmt;

/// Why `assemble` gave no program.
#[derive(Clone, Copy, Debug, PartialEq, Eq)]
pub enum AsmError {
    /// The text has an error: its number, and the line, counted from 1.
    Text { no: u8, line: u32 },
    /// No memory was left.
    NoMemory,
}

/// What an error of a text is called, by its number; nothing where no error has the number.
pub fn error_text(no: u8) -> &'static str
    ensures { result.now ≡ text_of_number no }
{
    match no {
        1 => "unknown instruction",
        2 => "bad operand",
        3 => "unknown label",
        4 => "label twice",
        5 => "no mutator",
        6 => "too many mutators",
        7 => "code too long",
        8 => "bad schedule",
        9 => "number too big",
        _ => "",
    }
}

impl fmt::Display for AsmError {
    ghost output = { λ error. Some (text_of_error error) };

    fn fmt<W: fmt::Write>(&self, f: &mut fmt::Formatter<W>) -> fmt::Result {
        match self {
            AsmError::Text { no, line } => write!(
                f,
                "line {line}: error {no}: {}",
                error_text(*no)
            ),
            AsmError::NoMemory => f.write_str("out of memory"),
        }
    }
}

impl Error for AsmError {}

impl From<AllocError> for AsmError {
    ghost from_gives = { λ _ e. e ≡ NoMemory };

    fn from(_error: AllocError) -> AsmError {
        AsmError::NoMemory
    }
}

impl<T: Drop> From<AllocFailed<T>> for AsmError {
    ghost from_gives = { λ _ e. e ≡ NoMemory };

    fn from(_failed: AllocFailed<T>) -> AsmError {
        AsmError::NoMemory
    }
}

impl From<Fault> for AsmError {
    ghost from_gives = { λ fault e. e ≡ Text fault.number fault.line };

    fn from(fault: Fault) -> AsmError {
        AsmError::Text {
            no: fault.number,
            line: fault.line,
        }
    }
}
