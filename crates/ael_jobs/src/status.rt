//! How a call of the program went.

ghost use Rattle.std.specs.Prelude.{◌≡◌};

use crate::streams::reading::ReadError;
use heap_audit::AuditError;
use plain_heap::NoMemory;
use program_text::AsmError;
use std::alloc::Global;
use std::borrow::CowStr;

/// What standard error gets where a sink failed.
pub const WRITE_FAULT: &str = "ael: write fault\n";

/// What standard error gets where there was no memory.
pub const NO_MEMORY: &str = "ael: out of memory\n";

/// How a call went, from which its exit status follows and the line that standard error gets.
#[derive(Clone, Copy, Debug, PartialEq, Eq)]
pub enum Status {
    /// All was done: every mutator halted, the listing or the concordance was given, or an output is that of its program.
    Done,
    /// The text has this fault in this line.
    Text { no: u8, line: u32 },
    /// This line is the first of the text that has a word of more than 64 letters.
    LongWord { line: u32 },
    /// The output that was to be audited isn't of the form of one: this is its first wrong line.
    BadOutput { line: usize },
    /// The words are no command.
    Usage,
    /// Every mutator has its end, and one isn't `halt`.
    Ended,
    /// A concordance asked for so many pages of a heap, and there was room for so many words, which was less.
    HeapFull { asked: u32, room: u32 },
    /// An output isn't that of its program.
    No,
    /// As many steps as were allowed were made before every mutator had its end.
    StepsOut,
    /// The source failed.
    ReadFault,
    /// A sink failed.
    WriteFault,
    /// There was no memory.
    NoMemory,
    /// The input has more than 1,048,576 bytes.
    TooLong,
}

impl Status {
    ghost use Rattle.std.specs.Prelude.{◌≡◌, IfOk, OnErr, true};
    ghost use Rattle.std.specs.Cow.{cow_str_bytes};
    ghost use Rattle.ael_jobs.specs.Calls.Status.{status_code, is_made, status_line};

    /// The program's exit status.
    pub fn code(self) -> u8
        ensures { result ≡ status_code self }
    {
        match self {
            Status::Done => 0,
            Status::Text { .. } | Status::LongWord { .. } | Status::BadOutput { .. } => 1,
            Status::Usage => 2,
            Status::Ended | Status::HeapFull { .. } => 3,
            Status::StepsOut => 4,
            Status::ReadFault => 5,
            Status::WriteFault => 6,
            Status::NoMemory => 7,
            Status::TooLong => 8,
            Status::No => 9,
        }
    }

    /// The line that standard error gets, empty where it gets none. Only one that is made from numbers
    /// takes memory.
    pub fn line(self, alloc: Global) -> Result<CowStr<'static, Global>, NoMemory>
        ensures line { IfOk result (λ line. cow_str_bytes line ≡ status_line self) }
        ensures spends { OnErr result (is_made self ≡ true) }
    {
        let line = match self {
            Status::Done | Status::Ended | Status::No => "",
            Status::Text { no, line } => {
                let fault = AsmError::Text { no, line };
                return Ok(CowStr::Owned(format!(in alloc; "ael: {fault}\n")?));
            }
            Status::LongWord { line } => {
                return Ok(CowStr::Owned(format!(in alloc; "ael: line {line}: word too long\n")?));
            }
            Status::BadOutput { line } => {
                return Ok(CowStr::Owned(format!(in alloc;
                    "ael: line {line}: error 10: bad output\n"
                )?));
            }
            Status::HeapFull { asked, room } => {
                return Ok(CowStr::Owned(format!(in alloc;
                    "ael: heap full asked {asked} room {room}\n"
                )?));
            }
            Status::Usage => "usage: ael asm, sim, run, concord or bench\n",
            Status::StepsOut => "ael: steps out\n",
            Status::ReadFault => "ael: read fault\n",
            Status::WriteFault => WRITE_FAULT,
            Status::NoMemory => NO_MEMORY,
            Status::TooLong => "ael: input too long\n",
        };
        Ok(CowStr::Borrowed(line))
    }
}

impl From<ReadError> for Status {
    ghost use Rattle.std.specs.Prelude.{◌≡◌};
    ghost use Rattle.ael_jobs.specs.Calls.Status.{read_status};

    ghost from_gives = { λ e status. status ≡ read_status e };

    fn from(error: ReadError) -> Status {
        match error {
            ReadError::Fault => Status::ReadFault,
            ReadError::TooLong => Status::TooLong,
            ReadError::NoMemory => Status::NoMemory,
        }
    }
}

impl From<AsmError> for Status {
    ghost use Rattle.std.specs.Prelude.{◌≡◌};
    ghost use Rattle.ael_jobs.specs.Calls.Status.{text_status};

    ghost from_gives = { λ e status. status ≡ text_status e };

    fn from(error: AsmError) -> Status {
        match error {
            AsmError::Text { no, line } => Status::Text { no, line },
            AsmError::NoMemory => Status::NoMemory,
        }
    }
}

impl From<AuditError> for Status {
    ghost use Rattle.std.specs.Prelude.{◌≡◌};
    ghost use Rattle.ael_jobs.specs.Calls.Status.{audit_status};

    ghost from_gives = { λ e status. status ≡ audit_status e };

    fn from(error: AuditError) -> Status {
        match error {
            AuditError::NoMemory => Status::NoMemory,
            AuditError::Bad { line } => Status::BadOutput { line },
        }
    }
}

impl From<NoMemory> for Status {
    ghost use Rattle.std.specs.Prelude.{◌≡◌};
    ghost use Rattle.ael_jobs.specs.declared.status.Status.TheVariants.{NoMemory};

    ghost from_gives = { λ _ status. status ≡ NoMemory };

    fn from(_: NoMemory) -> Status {
        Status::NoMemory
    }
}
