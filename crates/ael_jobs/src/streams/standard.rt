//! Sources and sinks over std's readers and writers: the edge to the outside.
//!
//! They tell no bytes, since what a real file or terminal gave or took is not known. Where std knows
//! what a reader has left or what a writer holds, a clause says what became of it.

ghost use Rattle.std.specs.Prelude.{◌≡◌, ◌≢◌, ◌<◌, ◌≤◌, None, length};
ghost use Rattle.ael_jobs.specs.Streams.Memory.{next_call};
ghost use Rattle.ael_jobs.specs.Streams.Stream.{Reads, ReadsKnown, Rose, Writes, WritesKnown};
ghost use Rattle.ael_jobs.specs.declared.streams.source.Got.TheVariants as got;
ghost use Rattle.ael_jobs.specs.declared.streams.sink.Put.TheVariants as put;

use crate::streams::sink::{Put, Sink};
use crate::streams::source::{Got, Source};
use std::io::{ErrorKind, Read, Write};
use std::marker::Model;

/// Reads from a reader. Contracts see the reader and its count of faults.
#[derive(Debug, Drop)]
pub struct StdSource<R> {
    reader: R,
    faults: u64,
}

impl<R> Model for StdSource<R> {
    ghost use Rattle.ael_jobs.specs.Streams.Standard.{Reading};

    ghost Value = { Reading R };

    ghost view = { λ s. record { reader = s.reader; faults = s.faults } };
}

impl<R: Read> StdSource<R> {
    /// A source that has not failed yet.
    pub fn new(reader: R) -> StdSource<R>
        ensures { result ≡ record { reader = reader; faults = 0 } }
    {
        StdSource { reader, faults: 0 }
    }

    /// Counts a read that failed.
    fn failed_read(&mut self) -> Got
        ensures answer { result ≡ got.Failed }
        ensures counts_one { self.new.faults ≡ next_call self.old.faults }
        ensures counted { self.old.faults ≤ self.new.faults × Rose self.old.faults self.new.faults }
        ensures reader { self.new.reader ≡ self.old.reader }
    {
        self.faults = self.faults.saturating_add(1);
        Got::Failed
    }
}

impl<R: Read> Source for StdSource<R> {
    ghost left = { λ _. None };

    ghost faults = { λ s. s.faults };

    fn read(&mut self, buf: &mut [u8]) -> Got
        requires { 0 < length buf.old }
        ensures bytes { Reads None result buf.new None }
        ensures never_falls { self.old.faults ≤ self.new.faults }
        ensures fails_only_if_the_count_rose { result ≡ got.Failed → Rose self.old.faults self.new.faults }
        ensures counts_one { result ≡ got.Failed → self.new.faults ≡ next_call self.old.faults }
        ensures counts_failures_alone { result ≢ got.Failed → self.new.faults ≡ self.old.faults }
        ensures gives_what_the_reader_had_left { ReadsKnown (R.remaining self.old.reader) result buf.new (R.remaining self.new.reader) }
    {
        for _ in 0..u64::MAX {
            match self.reader.read(buf) {
                Ok(0) => return Got::End,
                Ok(count) => return Got::Bytes(count),
                Err(error) if error.kind() == ErrorKind::Interrupted => {}
                Err(_) => return self.failed_read(),
            }
        }
        self.failed_read()
    }
}

/// Writes to a writer. Contracts see the writer and its count of faults. A write that takes nothing
/// counts as failed.
#[derive(Debug, Drop)]
pub struct StdSink<W> {
    writer: W,
    faults: u64,
}

impl<W> Model for StdSink<W> {
    ghost use Rattle.ael_jobs.specs.Streams.Standard.{Writing};

    ghost Value = { Writing W };

    ghost view = { λ s. record { writer = s.writer; faults = s.faults } };
}

impl<W: Write> StdSink<W> {
    /// A sink that has not failed yet.
    pub fn new(writer: W) -> StdSink<W>
        ensures { result ≡ record { writer = writer; faults = 0 } }
    {
        StdSink { writer, faults: 0 }
    }

    /// Counts a write that failed.
    fn failed_write(&mut self) -> Put
        ensures answer { result ≡ put.Failed }
        ensures counts_one { self.new.faults ≡ next_call self.old.faults }
        ensures counted { self.old.faults ≤ self.new.faults × Rose self.old.faults self.new.faults }
        ensures writer { self.new.writer ≡ self.old.writer }
    {
        self.faults = self.faults.saturating_add(1);
        Put::Failed
    }
}

impl<W: Write> Sink for StdSink<W> {
    ghost held = { λ _. None };

    ghost faults = { λ s. s.faults };

    fn write(&mut self, piece: &[u8]) -> Put
        requires { 0 < length piece.now }
        ensures bytes { Writes None result piece.now None }
        ensures never_falls { self.old.faults ≤ self.new.faults }
        ensures fails_only_if_the_count_rose { result ≡ put.Failed → Rose self.old.faults self.new.faults }
        ensures counts_one { result ≡ put.Failed → self.new.faults ≡ next_call self.old.faults }
        ensures counts_failures_alone { result ≢ put.Failed → self.new.faults ≡ self.old.faults }
        ensures adds_to_what_the_writer_holds { WritesKnown (W.contents self.old.writer) result piece.now (W.contents self.new.writer) }
    {
        for _ in 0..u64::MAX {
            match self.writer.write(piece) {
                Ok(0) => return self.failed_write(),
                Ok(count) => return Put::Took(count),
                Err(error) if error.kind() == ErrorKind::Interrupted => {}
                Err(_) => return self.failed_write(),
            }
        }
        self.failed_write()
    }
}
