//! A source and a sink that never fail.

ghost use Rattle.std.specs.Prelude.{◌≡◌, ◌≢◌, ◌<◌, None, Some, length, min};
ghost use Rattle.ael_jobs.specs.declared.streams.sink.Put.TheVariants as put;
ghost use Rattle.ael_jobs.specs.declared.streams.source.Got.TheVariants as got;
ghost use Rattle.ael_jobs.specs.Streams.Stream.{Reads};

use crate::streams::sink::{Put, Sink};
use crate::streams::source::{Got, Source};
use std::marker::Model;

/// Gives the bytes of a list. Contracts see those still to come.
#[derive(Debug, Drop)]
pub struct SureSource {
    bytes: Vec<u8>,
    at: usize,
}

impl Model for SureSource {
    ghost use Rattle.std.specs.Prelude.{List, ℕ, ◌≤◌, drop, length};

    ghost Value = { List ℕ };

    ghost view = { λ s. drop s.at s.bytes.items };

    ghost invariant = { λ s. s.at ≤ length s.bytes.items };
}

impl SureSource {
    pub fn new(bytes: Vec<u8>) -> SureSource
        ensures { result ≡ bytes.items }
    {
        SureSource { bytes, at: 0 }
    }
}

impl Source for SureSource {
    ghost left = { λ s. Some s };

    ghost faults = { λ _. 0 };

    fn read(&mut self, buf: &mut [u8]) -> Got
        requires { 0 < length buf.old }
        ensures bytes { Reads (Some self.old) result buf.new (Some self.new) }
        ensures never_fails { result ≢ got.Failed }
        ensures gives_all_that_fits { 0 < length self.old → result ≡ got.Bytes (min (length buf.old) (length self.old)) }
    {
        let count = buf.len().min(self.bytes.len() - self.at);
        if count == 0 {
            return Got::End;
        }
        buf[..count].copy_from_slice(&self.bytes[self.at..self.at + count]);
        self.at += count;
        Got::Bytes(count)
    }
}

/// Takes every piece, and keeps none.
#[derive(Clone, Copy, Debug, PartialEq, Eq)]
pub struct SureSink;

impl Sink for SureSink {
    ghost held = { λ _. None };

    ghost faults = { λ _. 0 };

    fn write(&mut self, piece: &[u8]) -> Put
        requires { 0 < length piece.now }
        ensures takes_all { result ≡ put.Took (length piece.now) }
    {
        Put::Took(piece.len())
    }
}
