//! The sizes that the language fixes. Code and definitions cite them.

/// How many numbers there are, which is one more than the greatest.
pub const NUMBERS: u64 = 1 << 62;

/// The registers of a mutator.
pub const REGISTERS: usize = 8;

/// The most numbers that a mutator prints.
pub const MOST_PRINTED: usize = 65_536;

/// The most values of a record.
pub const LONGEST_RECORD: u64 = 4095;

/// The words of the board.
pub const BOARD_WORDS: usize = 16;

/// The words of a page.
pub const PAGE_WORDS: usize = 64;

/// The most mutators of a program.
pub const MOST_MUTATORS: usize = 16;

/// The most scanners of a heap.
pub const MOST_SCANNERS: usize = 8;

/// The last worker that a schedule may name: workers are numbered from 0, the mutators first.
pub const LAST_WORKER: u64 = (MOST_MUTATORS + MOST_SCANNERS - 1) as u64;

/// The most instructions that a text has, and the greatest target of a jump.
pub const MOST_INSTRS: usize = 65_536;

/// The most items of a schedule.
pub const MOST_ITEMS: usize = 65_536;

/// The most checkpoints that are begun.
pub const MOST_CHECKPOINTS: u32 = u32::MAX;
