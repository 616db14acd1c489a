//! The program `ael_picture`: a dump of a heap, drawn.
#![tactic(auto)]

mod choice;
mod class;
mod drawing;
mod heap;
mod legend;
mod links;
mod naming;
mod pages;
mod picture;
mod roots;
mod shape;
mod style;
mod svg;

use crate::drawing::WIDTH;
use crate::heap::Heap;
use crate::picture::draw;
use crate::svg::svg;
use dump_text::{Dump, DumpError, read};
use plain_state::NoMemory;
use space_map::Spaces;
use std::alloc::Global;
use std::env;
use std::io::{ErrorKind, Read, Write};
use std::process::ExitCode;

/// What standard error gets if there was no memory.
const NO_MEMORY: &str = "ael_picture: out of memory";

/// The picture of a dump whose spaces lie so.
fn heap_picture(alloc: Global, spaces: Spaces, dump: &Dump) -> Result<String, NoMemory> {
    let mut heap = Heap {
        spaces,
        epoch: 0,
        dump,
    };
    if let Some(gate) = heap.gate() {
        heap.epoch = gate.epoch;
    }
    let drawing = draw(alloc, &heap)?;
    svg(alloc, WIDTH, drawing.bottom, drawing.shapes.as_slice())
}

/// The picture of a dump.
fn picture_of(alloc: Global, bytes: &[u8]) -> Result<String, DumpError> {
    let dump = read(alloc, bytes)?;
    let Ok(spaces) = Spaces::new(dump.pages) else {
        return Err(DumpError::Bad { line: 1 });
    };
    match heap_picture(alloc, spaces, &dump) {
        Ok(text) => Ok(text),
        Err(NoMemory) => Err(DumpError::NoMemory),
    }
}

/// Tells a line on standard error, and gives the exit status.
fn failed(rt: &HostRuntime, line: &str, status: u8) -> ExitCode {
    let _ = eprintln!(rt; "{line}");
    ExitCode::from(status)
}

/// Whether there are words behind the program's name. Words that can't be read are some.
fn has_words(rt: &HostRuntime) -> Result<bool, NoMemory> {
    match env::args(rt) {
        Ok(mut args) => {
            let _ = args.next();
            Ok(args.next().is_some())
        }
        Err(error) if error.kind() == ErrorKind::OutOfMemory => Err(NoMemory),
        Err(_) => Ok(true),
    }
}

/// Writes the picture of a dump, or tells why there is none.
fn show(rt: &HostRuntime, bytes: &[u8]) -> ExitCode {
    match picture_of(rt.alloc(), bytes) {
        Ok(text) => match rt.stdout().write_all(text.as_str().as_bytes()) {
            Ok(()) => ExitCode::from(0),
            Err(_) => failed(rt, "ael_picture: write fault", 6),
        },
        Err(DumpError::NoMemory) => failed(rt, NO_MEMORY, 7),
        Err(DumpError::Bad { line }) => {
            let _ = eprintln!(rt; "ael_picture: line {line}: not a dump");
            ExitCode::from(1)
        }
    }
}

/// Draws what standard input has.
fn run(rt: &HostRuntime) -> ExitCode {
    let mut bytes = Vec::new(rt.alloc());
    match rt.stdin().read_to_end(&mut bytes) {
        Ok(_) => show(rt, bytes.as_slice()),
        Err(error) if error.kind() == ErrorKind::OutOfMemory => failed(rt, NO_MEMORY, 7),
        Err(_) => failed(rt, "ael_picture: read fault", 5),
    }
}

fn main(rt: HostRuntime) -> ExitCode {
    match has_words(&rt) {
        Ok(false) => run(&rt),
        Ok(true) => failed(&rt, "usage: ael_picture", 2),
        Err(NoMemory) => failed(&rt, NO_MEMORY, 7),
    }
}
