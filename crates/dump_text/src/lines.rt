//! The lines of one kind.

ghost use Rattle.std.specs.Prelude.{map, ◌+◌, ◌<◌, ◌^◌};
ghost use Rattle.dump_text.specs.Pieces.{cell_at, kept_read_at, kept_view, registers_at};
ghost use Rattle.dump_text.specs.Reading.{GivesReading, many};

use crate::dump_error::DumpError;
use crate::kept::Kept;
use crate::word::{cell, kept_line, registers_line};
use plain_state::REGISTERS;
use std::alloc::Global;

/// So many lines of registers, the first of which has this number.
pub fn all_registers(
    alloc: Global,
    count: u32,
    line: u32,
    bytes: &[u8],
) -> Result<(Vec<[u64; REGISTERS]>, &[u8]), DumpError>
    requires { line + count < 2 ^ 32 }
    ensures { GivesReading (λ x. (x.0.items, x.1.now)) result (many registers_at count line bytes.now) }
{
    let mut found = Vec::new(alloc);
    let mut rest = bytes;
    for i in 0..count {
        let Some(read) = registers_line(rest) else {
            return Err(DumpError::Bad { line: line + i });
        };
        let (registers, after) = read;
        found.push(registers)?;
        rest = after;
    }
    Ok((found, rest))
}

/// So many lines of what a worker keeps, the first of which has this number.
pub fn all_kept(
    alloc: Global,
    count: u32,
    line: u32,
    bytes: &[u8],
) -> Result<(Vec<Kept>, &[u8]), DumpError>
    requires { line + count < 2 ^ 32 }
    ensures { GivesReading (λ x. (map kept_view x.0.items, x.1.now)) result (many kept_read_at count line bytes.now) }
{
    let mut found = Vec::new(alloc);
    let mut rest = bytes;
    for i in 0..count {
        let Some((kept, after)) = kept_line(rest) else {
            return Err(DumpError::Bad { line: line + i });
        };
        found.push(kept)?;
        rest = after;
    }
    Ok((found, rest))
}

/// So many lines of a word each, the first of which has this number.
pub fn table(
    alloc: Global,
    count: u32,
    line: u32,
    bytes: &[u8],
) -> Result<(Vec<u64>, &[u8]), DumpError>
    requires { line + count < 2 ^ 32 }
    ensures { GivesReading (λ x. (x.0.items, x.1.now)) result (many (cell_at 10) count line bytes.now) }
{
    let mut found = Vec::new(alloc);
    let mut rest = bytes;
    for i in 0..count {
        let Some((word, after)) = cell(b'\n', rest) else {
            return Err(DumpError::Bad { line: line + i });
        };
        found.push(word)?;
        rest = after;
    }
    Ok((found, rest))
}
