//! Tests of texts: those of programs, of concordances, of dumps and of outputs.

mod assembler;
mod concordances;
mod dumps;
mod outputs;

use mutator_asm::Program;
use program_text::assemble;
use std::alloc::Global;
use std::process::Abort;

/// The program of a text that has one.
pub fn program(rt: &impl Abort, alloc: Global, text: &str) -> Program {
    assert!(rt; text.len() < 1 << 31);
    assemble(alloc, text.as_bytes()).expect(rt, "no program")
}

/// A first line, a line that is repeated so many times, and a last one.
fn repeated(
    rt: &impl Abort,
    alloc: Global,
    first: &str,
    line: &str,
    times: usize,
    last: &str,
) -> String {
    let lines = line.repeat(alloc, times).expect(rt, "no lines");
    format!(in alloc; "{first}{lines}{last}").expect(rt, "no text")
}
