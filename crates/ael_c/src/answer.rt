//! What C is told.

ghost use Rattle.std.specs.Prelude.{◌≡◌};
ghost use Rattle.ael_c.specs.Answers.{answer_by, answer_to, code_of, end_code, leaving_by, wrong_operand};

use ael_threads::{Did, End, Instr, Refused};
use plain_state::NUMBERS;

/// What an export answers.
#[derive(Clone, Copy)]
pub enum Answer {
    /// It is done.
    Done,
    /// It is under way still.
    Again,
    /// A register holds a number.
    Number,
    /// A register holds a pointer to a record.
    Pointer,
    /// A mutator has left, or a scanner has seen that all mutators have.
    Left,
    /// The handle is null, or leads to a seat of the other kind.
    BadHandle,
    /// Memory is wanting.
    NoMemory,
    /// The handle leads to something, or what it leads to can't be freed yet.
    InUse,
    /// No heap has this size, or as many seats.
    BadSize,
    /// There is no instruction with this number.
    BadInstruction,
    /// There is no such register.
    BadRegister,
    /// The mutator's last call is under way still.
    Unanswered,
    /// The mutator has made as many records as it can.
    RecordsOut,
    /// A number is 2^62 or more.
    TooBig,
    /// The mutator has this end.
    Ended(End),
}

impl Answer {
    /// What some acts for a call came to.
    pub fn by(did: Option<Did>) -> Answer
        ensures { result ≡ answer_by did }
    {
        match did {
            None => Answer::Again,
            Some(Did::Done) => Answer::Done,
            Some(Did::Trap(end)) => Answer::Ended(end),
        }
    }

    /// The same, as a mutator that leaves tells it: `halt` is its own, and it goes on.
    pub fn leaving(did: Option<Did>) -> Answer
        ensures { result ≡ leaving_by did }
    {
        match did {
            Some(Did::Trap(End::Halt)) => Answer::Again,
            other => Answer::by(other),
        }
    }

    /// Why a call of this instruction is refused.
    pub fn to(why: Refused, instr: &Instr) -> Answer
        ensures { result ≡ answer_to instr.now why }
    {
        match why {
            Refused::Ended(end) => Answer::Ended(end),
            Refused::Calling => Answer::Unanswered,
            Refused::Operand => Answer::of_operand(instr),
            Refused::Records => Answer::RecordsOut,
            // No number names `out`, so this isn't told.
            Refused::Printing => Answer::BadInstruction,
        }
    }

    /// What is wrong with an operand of an instruction that isn't valid.
    fn of_operand(instr: &Instr) -> Answer
        ensures { result ≡ wrong_operand instr.now }
    {
        match *instr {
            Instr::Li(_, n) if n >= NUMBERS => Answer::TooBig,
            _ => Answer::BadRegister,
        }
    }

    /// Its code.
    pub fn code(self) -> i32
        ensures { result ≡ code_of self }
    {
        match self {
            Answer::Done => 0,
            Answer::Again => 1,
            Answer::Number => 2,
            Answer::Pointer => 3,
            Answer::Left => 4,
            Answer::BadHandle => -1,
            Answer::NoMemory => -2,
            Answer::InUse => -3,
            Answer::BadSize => -4,
            Answer::BadInstruction => -5,
            Answer::BadRegister => -6,
            Answer::Unanswered => -7,
            Answer::RecordsOut => -8,
            Answer::TooBig => -13,
            Answer::Ended(end) => code_by_end(end),
        }
    }
}

/// The code of an end.
fn code_by_end(end: End) -> i32
    ensures { result ≡ end_code end }
{
    match end {
        End::Halt => -16,
        End::NotPointer => -17,
        End::NotNumber => -18,
        End::OutOfRange => -19,
        End::WeakCell => -20,
        End::IntoRaw => -21,
        End::ZeroDivisor => -22,
        End::HeapFull { .. } => -23,
        End::JumpOut => -24,
        End::TurnsOut => -25,
        End::OutputFull => -26,
    }
}
