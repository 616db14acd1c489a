//! Why an audit says nothing.

ghost use Rattle.std.specs.Prelude.{◌≡◌};
ghost use Rattle.heap_audit.specs.declared.audit_error.AuditError.TheVariants as errors;
ghost use Rattle.heap_audit.specs.Audit.{audit_error};

use crate::reading::reading_error::ReadingError;
use plain_state::NoMemory;

/// Why nothing is said of an output.
#[derive(Clone, Copy, Debug, PartialEq, Eq)]
pub enum AuditError {
    /// No memory was left.
    NoMemory,
    /// It isn't of the form that an output has: this line, counted from 1, is the first that is wrong.
    Bad { line: usize },
}

impl From<NoMemory> for AuditError {
    ghost from_gives = { λ _ e. e ≡ errors.NoMemory };

    fn from(_error: NoMemory) -> AuditError {
        AuditError::NoMemory
    }
}

/// The same for a part that could not be read.
pub fn from_reading(error: ReadingError) -> AuditError
    ensures { result ≡ audit_error error }
{
    match error {
        ReadingError::NoMemory => AuditError::NoMemory,
        ReadingError::Bad { line } => AuditError::Bad { line },
    }
}
