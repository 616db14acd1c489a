//! The instructions, and the words that stand for one.

use plain_state::Operation;

/// What an instruction does between what it takes from the stack and what it puts there.
#[derive(Clone, Copy)]
pub(crate) enum Op {
    Number(u64),
    Compute(Operation),
    /// Whether two values are the same number, or the same pair.
    Equal,
    Dup,
    Drop,
    Swap,
    Pair,
    Part(u16),
    SetFirst,
    /// Reads or sets a local of the word.
    Fetch(u16),
    Keep(u16),
    Call(usize),
    Return,
    Jump(usize),
    JumpIfZero(usize),
    /// Leaves a value on a word of the board, or takes one from there.
    Send,
    Receive,
    Print,
    /// Stops at 0.
    Check,
}

/// An instruction: how many values it takes from the stack, what it does, and whether it puts a value there.
pub(crate) type Meaning = (u8, Op, bool);

/// The instruction that a word means in each text.
pub(crate) fn meaning(word: &str) -> Option<Meaning> {
    Some(match word.as_bytes() {
        b"+" => (2, Op::Compute(Operation::Add), true),
        b"-" => (2, Op::Compute(Operation::Sub), true),
        b"*" => (2, Op::Compute(Operation::Mul), true),
        b"/" => (2, Op::Compute(Operation::Div), true),
        b"mod" => (2, Op::Compute(Operation::Rem), true),
        b"<" => (2, Op::Compute(Operation::Lt), true),
        b"=" => (2, Op::Equal, true),
        b"dup" => (1, Op::Dup, true),
        b"drop" => (1, Op::Drop, false),
        b"swap" => (2, Op::Swap, true),
        b"pair" => (2, Op::Pair, true),
        b"first" => (1, Op::Part(0), true),
        b"rest" => (1, Op::Part(1), true),
        b"set-first" => (2, Op::SetFirst, false),
        b"send" => (2, Op::Send, false),
        b"receive" => (1, Op::Receive, true),
        b"print" => (1, Op::Print, false),
        b"check" => (1, Op::Check, false),
        b";" => (0, Op::Return, false),
        [b'@', name @ b'a'..=b'd'] => (0, Op::Fetch(u16::from(*name - b'a')), true),
        [b'!', name @ b'a'..=b'd'] => (1, Op::Keep(u16::from(*name - b'a')), false),
        _ => return None,
    })
}
