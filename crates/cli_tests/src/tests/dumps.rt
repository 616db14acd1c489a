//! The dump of a run.

use std::alloc::Global;
use std::test::Fail;

/// The lines of the dump that aren't a word 0, by their numbers from 1.
fn dump_line(number: usize) -> &'static str {
    match number {
        1 => "dump 4 1 1",
        2 => {
            "0000000000000301 000000000000001c 000000000000001c 0000000000000000 \
             0000000000000000 0000000000000000 0000000000000000 0000000000000000"
        }
        // What the mutator keeps.
        3 => "0000000000000000 0000000000000000",
        // The gate: one mutator is alive and runs.
        4 => "0000010100000000",
        // Epoch 0 is traced.
        6 => "0000000000000001",
        // The areas of both spaces.
        8 => "0000000003000000",
        9 => "0000000004000000",
        // The turn of epoch 0 was taken.
        11 => "0000000000000001",
        // All pages of both spaces are in use.
        16 | 17 => "0000000000000004",
        // The page of the record, and that of the board, are open.
        23 | 28 => "0000000000000001",
        // The record: its header, and its second value.
        229 => "0000000000010022",
        231 => "000000000000001c",
        _ => "0000000000000000",
    }
}

/// The lines of the dump.
pub fn dump_lines(alloc: Global) -> Result<String, Fail> {
    let mut lines = String::new(alloc);
    for number in 1..=636 {
        lines.push_str(dump_line(number))?;
        lines.push('\n')?;
    }
    Ok(lines)
}
