//! How a text becomes a program.

use crate::mistake::Mistake;
use crate::op::{Meaning, Op, meaning};
use plain_state::NUMBERS;
use std::alloc::Global;
use std::collections::HashMap;

/// The instructions of a text, each with its line, and where the text's words begin.
#[derive(Drop)]
pub(crate) struct Program {
    pub ops: Vec<(Meaning, u32)>,
    pub words: HashMap<String, usize>,
    /// Where what has not ended yet begins, or the jump out of it stands.
    open: Vec<usize>,
    pub lines: u32,
}

impl Program {
    pub fn new(alloc: Global) -> Program {
        Program {
            ops: Vec::new(alloc),
            words: HashMap::new(alloc),
            open: Vec::new(alloc),
            lines: 0,
        }
    }

    /// Reads a text, up to the line of its first mistake.
    pub fn read(&mut self, text: &str) -> Result<(), Mistake> {
        for line in text.lines() {
            self.lines = self.lines.saturating_add(1);
            for word in line.split_whitespace().take_while(|word| *word != "#") {
                self.add(word)?;
            }
        }
        if !self.open.is_empty() {
            return Err(Mistake::Unmatched);
        }
        Ok(())
    }

    fn add(&mut self, word: &str) -> Result<(), Mistake> {
        let here = self.ops.len();
        if let Some(name) = word.strip_suffix(":") {
            let name = String::from_str(*self.ops.allocator(), name)?;
            self.words.insert(name, here)?;
            return Ok(());
        }
        let meaning = match word.as_bytes() {
            b"begin" => return Ok(self.open.push(here)?),
            b"then" => return self.lead(here),
            b"if" | b"while" => {
                self.open.push(here)?;
                (1, Op::JumpIfZero(0), false)
            }
            b"repeat" => {
                self.lead(here.saturating_add(1))?;
                let begin = self.open.pop().ok_or(Mistake::Unmatched)?;
                (0, Op::Jump(begin), false)
            }
            _ => self.meaning(word)?,
        };
        self.ops.push((meaning, self.lines))?;
        Ok(())
    }

    /// The jump that was begun last leads to this place.
    fn lead(&mut self, place: usize) -> Result<(), Mistake> {
        let jump = self.open.pop().ok_or(Mistake::Unmatched)?;
        match self.ops.get_mut(jump) {
            Some(((_, op @ Op::JumpIfZero(_), _), _)) => *op = Op::JumpIfZero(place),
            _ => return Err(Mistake::Unmatched),
        }
        Ok(())
    }

    /// What a word means that is one instruction.
    fn meaning(&self, word: &str) -> Result<Meaning, Mistake> {
        if let Some(meaning) = meaning(word) {
            return Ok(meaning);
        }
        if let Some(place) = self.words.get(word) {
            return Ok((0, Op::Call(*place), false));
        }
        match word.parse::<u64>() {
            Ok(n) if n < NUMBERS => Ok((0, Op::Number(n), true)),
            _ => Err(Mistake::UnknownWord),
        }
    }
}
