//! Tables of calls: each line is a row, with bars between its parts and slashes for line ends.

use super::{AMPLE, Limits, Wanted, call};
use std::alloc::Global;
use std::marker::Sync;
use std::sync::Wait;
use std::test::Fail;
use std::thread::Threads;

/// A call, and what it gives.
#[derive(Clone, Copy)]
pub struct Row<'a> {
    pub name: &'a str,
    pub words: &'a str,
    pub text: &'a str,
    pub out: &'a str,
    pub err: &'a str,
    pub status: u8,
}

/// A row whose line ends are slashes, with line ends in their place.
pub fn lines(alloc: Global, row: &str) -> Result<String, Fail> {
    Ok(row.replace(alloc, '/', "\n")?)
}

impl<'a> Row<'a> {
    /// The parts are the name, the words, the text, what out and err get, and the status, with their line ends.
    pub fn read(alloc: Global, row: &'a str) -> Result<Row<'a>, Fail> {
        let parts: Vec<&str> = row.split('|').collect(alloc)?;
        let [name, words, text, out, err, status] = parts.as_slice() else {
            let fault = format_args!("a part is missing, or one too many: {row}");
            return Err(Fail::new(fault));
        };
        Ok(Row {
            name,
            words,
            text,
            out,
            err,
            status: status.parse::<u8>()?,
        })
    }

    /// Makes the call with ends of these limits, and fails where it gives anything but this.
    pub fn gives<R: Threads + Wait + Sync>(
        &self,
        rt: &R,
        alloc: Global,
        limits: Limits,
        wanted: Wanted,
    ) -> Result<(), Fail> {
        call(rt, alloc, self.words, self.text, limits)?.check(self.name, wanted)
    }

    /// Makes the call, with ends of these limits.
    pub fn check<R: Threads + Wait + Sync>(
        &self,
        rt: &R,
        alloc: Global,
        limits: Limits,
    ) -> Result<(), Fail> {
        let wanted = Wanted {
            out: self.out.as_bytes(),
            err: self.err.as_bytes(),
            status: self.status,
        };
        self.gives(rt, alloc, limits, wanted)
    }
}

/// Makes the call of a row, with ends of these limits.
pub fn check_row<R: Threads + Wait + Sync>(
    rt: &R,
    alloc: Global,
    row: &str,
    limits: Limits,
) -> Result<(), Fail> {
    let row = lines(alloc, row)?;
    Row::read(alloc, &row)?.check(rt, alloc, limits)
}

/// The number before a bar, and what stands behind it.
pub fn number_before(line: &str) -> Result<(u64, &str), Fail> {
    let (number, rest) = line.split_once('|').ok_or("a number is missing")?;
    Ok((number.parse::<u64>()?, rest))
}
