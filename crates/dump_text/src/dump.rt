//! What a dump tells.

use crate::kept::Kept;
use plain_state::REGISTERS;

/// What was printed: the pages of a space, the registers of each mutator, what each worker keeps, and the words of the
/// table of shared words.
#[derive(Debug, Drop)]
pub struct Dump {
    pub pages: u32,
    pub registers: Vec<[u64; REGISTERS]>,
    pub kept: Vec<Kept>,
    pub words: Vec<u64>,
}
