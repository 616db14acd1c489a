//! What a clerk keeps in which register, and what its records are.

use mutator_asm::Operand;

/// The entry from which all others are found, or 0.
pub(crate) const FIRST: u8 = 0;

/// The entry that was made last, from which all others follow, or 0.
pub(crate) const LATEST: u8 = 1;

/// The entry that is looked at.
pub(crate) const HERE: u8 = 2;

/// What a field of it leads to.
pub(crate) const NEXT: u8 = 3;

/// The letters of a word.
pub(crate) const LETTERS: u8 = 4;

/// A line of a word.
pub(crate) const LINE: u8 = 5;

/// A new entry.
pub(crate) const ENTRY: u8 = 6;

/// A number.
pub(crate) const NUMBER: u8 = 7;

/// An entry is a record of five fields: the letters of its word, its latest line, two entries that are found from it, and the one that
/// was made before it.
pub(crate) const ENTRY_LENGTH: Operand = Operand::Number(5);

pub(crate) const ENTRY_LETTERS: Operand = Operand::Number(0);

pub(crate) const ENTRY_LINE: Operand = Operand::Number(1);

pub(crate) const ENTRY_LEFT: Operand = Operand::Number(2);

pub(crate) const ENTRY_RIGHT: Operand = Operand::Number(3);

pub(crate) const ENTRY_BEFORE: Operand = Operand::Number(4);

/// A line is a record of two fields: its number, and the line before it in which the word stands.
pub(crate) const LINE_LENGTH: Operand = Operand::Number(2);

pub(crate) const LINE_NUMBER: Operand = Operand::Number(0);

pub(crate) const LINE_BEFORE: Operand = Operand::Number(1);
