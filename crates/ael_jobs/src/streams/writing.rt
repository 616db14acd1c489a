//! Writing an answer.

ghost use Rattle.std.specs.Prelude.{◌≡◌, ◌≤◌, OnOk, OnErr};
ghost use Rattle.ael_jobs.specs.Calls.Emits.{Emits};
ghost use Rattle.ael_jobs.specs.Streams.Ends.{filled, IsWritten, IsCutOff};

use crate::answer::Answer;
use crate::status::{Status, WRITE_FAULT};
use crate::streams::sink::{Put, Sink};

/// A sink failed.
#[derive(Clone, Copy, Debug, PartialEq, Eq)]
pub struct WriteFault;

/// Writes all these bytes, in as many pieces as the sink takes them.
pub fn write_all<K: Sink>(sink: &mut K, bytes: &[u8]) -> Result<(), WriteFault>
    ensures ok { OnOk result (IsWritten (filled K.Sink sink.old sink.new) bytes.now) }
    ensures err { OnErr result (IsCutOff (filled K.Sink sink.old sink.new) bytes.now) }
    ensures never_falls { K.faults sink.old ≤ K.faults sink.new }
{
    let mut rest = bytes;
    while !rest.is_empty() {
        match sink.write(rest) {
            Put::Took(count) => rest = rest.split_at(count).1,
            Put::Failed => return Err(WriteFault),
        }
    }
    Ok(())
}

/// Writes an answer, its output to `out` and then its line to `err`, and answers how the call went.
/// A failed write is how it went, whatever else it was.
pub fn emit<O: Sink, E: Sink>(answer: &Answer, out: &mut O, err: &mut E) -> Status
    ensures { Emits answer.now.output.items answer.now.status (filled O.Sink out.old out.new) (filled E.Sink err.old err.new) result }
{
    if let Err(WriteFault) = write_all(out, answer.output.as_slice()) {
        let _ = write_all(err, WRITE_FAULT.as_bytes());
        return Status::WriteFault;
    }
    match write_all(err, answer.line.as_str().as_bytes()) {
        Ok(()) => answer.status,
        Err(WriteFault) => Status::WriteFault,
    }
}
