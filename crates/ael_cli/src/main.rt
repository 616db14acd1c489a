//! The program `ael`: mutators in a small register assembler, listed, or run over a bounded heap, by a schedule or on threads; and the
//! concordance of a text, made on such a heap.
#![tactic(auto)]

use ael_commands::{Answer, Status, StdSink, StdSource, ael, emit};
use std::env;
use std::io::ErrorKind;
use std::process::ExitCode;

/// The words after the program's name.
fn given(rt: &HostRuntime) -> Result<Vec<String>, Status> {
    let mut args = match env::args(rt) {
        Ok(args) => args,
        Err(error) if error.kind() == ErrorKind::OutOfMemory => return Err(Status::NoMemory),
        Err(_) => return Err(Status::Usage),
    };
    let _ = args.next();
    match args.collect::<Vec<String>>(rt.alloc()) {
        Ok(words) => Ok(words),
        Err(_) => Err(Status::NoMemory),
    }
}

fn main(rt: HostRuntime) -> ExitCode {
    let mut src = StdSource::new(rt.stdin());
    let mut out = StdSink::new(rt.stdout());
    let mut err = StdSink::new(rt.stderr());
    let code = match given(&rt) {
        Ok(words) => ael(&rt, rt.alloc(), &words, &mut src, &mut out, &mut err),
        Err(status) => emit(&Answer::failed(rt.alloc(), status), &mut out, &mut err).code(),
    };
    ExitCode::from(code)
}
