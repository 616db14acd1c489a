//! Reading a source to its end.

ghost use Rattle.std.specs.Prelude.{◌≡◌, ◌≢◌, ◌<◌, ◌≤◌, IfOk, Err};
ghost use Rattle.ael_jobs.specs.Streams.Stream.{Rose};
ghost use Rattle.ael_jobs.specs.declared.streams.reading.ReadError.TheVariants.{Fault, TooLong, NoMemory};
ghost use Rattle.ael_jobs.specs.Streams.Input.{IsWholeInput, IsPastLimit, IsBounded};

use crate::streams::source::{Got, Source};
use std::alloc::{AllocError, Global};

/// The most bytes of an input.
pub const LONGEST_INPUT: usize = 1_048_576;

/// Why an input was not read.
#[derive(Clone, Copy, Debug, PartialEq, Eq)]
pub enum ReadError {
    /// The source failed.
    Fault,
    /// More bytes came than an input may have.
    TooLong,
    /// There was no memory for the bytes.
    NoMemory,
}

impl From<AllocError> for ReadError {
    ghost use Rattle.std.specs.Prelude.{◌≡◌};
    ghost use Rattle.ael_jobs.specs.declared.streams.reading.ReadError.TheVariants.{NoMemory};

    ghost from_gives = { λ _ e. e ≡ NoMemory };

    fn from(_: AllocError) -> ReadError {
        ReadError::NoMemory
    }
}

/// Reads all that a source gives, or at most one byte more than an input may have.
pub fn read_all<S: Source>(alloc: Global, src: &mut S) -> Result<Vec<u8>, ReadError>
    ensures whole { IfOk result (λ bytes. IsWholeInput (S.left src.old) (S.left src.new) bytes.items) }
    ensures too_long { result ≡ Err TooLong → IsPastLimit (S.left src.old) }
    ensures bounded { IsBounded (S.left src.old) (S.left src.new) }
    ensures never_falls { S.faults src.old ≤ S.faults src.new }
    ensures fails_only_if_the_count_rose { result ≡ Err Fault → Rose (S.faults src.old) (S.faults src.new) }
    ensures counts_failures_alone { result ≢ Err Fault → S.faults src.new ≡ S.faults src.old }
{
    let mut bytes = Vec::new(alloc);
    let mut buf = [0u8; 4096];
    while bytes.len() <= LONGEST_INPUT {
        let room = buf.len().min(LONGEST_INPUT + 1 - bytes.len());
        match src.read(&mut buf[..room]) {
            Got::Bytes(count) => bytes.extend_from_slice(&buf[..count])?,
            Got::End => return Ok(bytes),
            Got::Failed => return Err(ReadError::Fault),
        }
    }
    Err(ReadError::TooLong)
}
