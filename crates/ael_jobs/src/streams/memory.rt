//! Sources and sinks in memory, which fail where they are told to.

ghost use Rattle.std.specs.Prelude.{◌≡◌, ◌≢◌, ◌<◌, ◌≤◌, ◌↔◌, [], Some, IfOk, IsTrue, length, min};
ghost use Rattle.ael_jobs.specs.Streams.Memory.{is_listed, is_to_fail, next_call, room_left};
ghost use Rattle.ael_jobs.specs.Streams.Stream.{Reads, Rose, Writes};
ghost use Rattle.ael_jobs.specs.declared.streams.source.Got.TheVariants as got;
ghost use Rattle.ael_jobs.specs.declared.streams.sink.Put.TheVariants as put;

use crate::streams::sink::{Put, Sink};
use crate::streams::source::{Got, Source};
use crate::streams::sure::SureSource;
use plain_heap::NoMemory;
use std::alloc::Global;
use std::marker::Model;

/// Gives the bytes of a list, as many at a time as the buffer has room for.
#[derive(Debug, Drop)]
pub struct MemSource {
    source: SureSource,
    fails: Vec<u64>,
    calls: u64,
    faults: u64,
}

impl Model for MemSource {
    ghost use Rattle.ael_jobs.specs.Streams.Memory.{Supply};

    ghost Value = { Supply };

    ghost view = { λ s. record { left = s.source; fails = s.fails.items; calls = s.calls; faults = s.faults } };
}

impl MemSource {
    /// The calls of `read` that `fails` lists are to fail, numbered from 1.
    pub fn new(bytes: Vec<u8>, fails: Vec<u64>) -> MemSource
        ensures { result ≡ record { left = bytes.items; fails = fails.items; calls = 0; faults = 0 } }
    {
        MemSource {
            source: SureSource::new(bytes),
            fails,
            calls: 0,
            faults: 0,
        }
    }
}

impl Source for MemSource {
    ghost left = { λ s. Some s.left };

    ghost faults = { λ s. s.faults };

    fn read(&mut self, buf: &mut [u8]) -> Got
        requires { 0 < length buf.old }
        ensures bytes { Reads (Some self.old.left) result buf.new (Some self.new.left) }
        ensures never_falls { self.old.faults ≤ self.new.faults }
        ensures fails_only_if_the_count_rose { result ≡ got.Failed → Rose self.old.faults self.new.faults }
        ensures counts_failures_alone { result ≢ got.Failed → self.new.faults ≡ self.old.faults }
        ensures counts_the_call { self.new.calls ≡ next_call self.old.calls }
        ensures counts_one { result ≡ got.Failed → self.new.faults ≡ next_call self.old.faults }
        ensures fails_exactly_where_listed { (result ≡ got.Failed) ↔ IsTrue (is_listed self.old.fails self.new.calls) }
        ensures gives_all_that_fits { result ≢ got.Failed → 0 < length self.old.left → result ≡ got.Bytes (min (length buf.old) (length self.old.left)) }
        ensures keeps_its_list { self.new.fails ≡ self.old.fails }
    {
        self.calls = self.calls.saturating_add(1);
        if self.fails.contains(&self.calls) {
            self.faults = self.faults.saturating_add(1);
            return Got::Failed;
        }
        self.source.read(buf)
    }
}

/// Holds the bytes that it takes, as many as it has room for.
#[derive(Debug, Drop)]
pub struct MemSink {
    bytes: Vec<u8>,
    room: usize,
    fails: Vec<u64>,
    calls: u64,
    faults: u64,
}

impl Model for MemSink {
    ghost use Rattle.std.specs.Prelude.{◌≤◌, length, vec_capacity};
    ghost use Rattle.ael_jobs.specs.Streams.Memory.{Store};

    ghost Value = { Store };

    ghost view = { λ s. record { held = s.bytes.items; room = s.room; fails = s.fails.items; calls = s.calls; faults = s.faults } };

    ghost invariant = { λ s. (length s.bytes.items ≤ s.room) × (s.room ≤ vec_capacity s.bytes) };
}

impl MemSink {
    /// Takes its room at once. The calls of `write` that `fails` lists are to fail, numbered from 1;
    /// a write with no room left fails too.
    pub fn new(alloc: Global, room: usize, fails: Vec<u64>) -> Result<MemSink, NoMemory>
        ensures { IfOk result (λ sink. sink ≡ record { held = []; room = room; fails = fails.items; calls = 0; faults = 0 }) }
    {
        Ok(MemSink {
            bytes: Vec::with_capacity(alloc, room)?,
            room,
            fails,
            calls: 0,
            faults: 0,
        })
    }

    /// The bytes that it took.
    pub fn bytes(&self) -> &[u8]
        ensures { result.now ≡ self.now.held }
    {
        self.bytes.as_slice()
    }

    /// Whether the call that was counted last is to fail.
    fn is_to_fail(&self) -> bool
        ensures { result ≡ is_to_fail self.now self.now.calls }
    {
        self.fails.contains(&self.calls) || self.room - self.bytes.len() == 0
    }

    /// Counts a fault.
    fn fail(&mut self) -> Put
        ensures answer { result ≡ put.Failed }
        ensures counts_one { self.new.faults ≡ next_call self.old.faults }
        ensures counted { Rose self.old.faults self.new.faults × (self.old.faults ≤ self.new.faults) }
        ensures rest { self.new ≡ record self.old { faults = self.new.faults } }
    {
        self.faults = self.faults.saturating_add(1);
        Put::Failed
    }
}

impl Sink for MemSink {
    ghost held = { λ s. Some s.held };

    ghost faults = { λ s. s.faults };

    fn write(&mut self, piece: &[u8]) -> Put
        requires { 0 < length piece.now }
        ensures bytes { Writes (Some self.old.held) result piece.now (Some self.new.held) }
        ensures never_falls { self.old.faults ≤ self.new.faults }
        ensures fails_only_if_the_count_rose { result ≡ put.Failed → Rose self.old.faults self.new.faults }
        ensures counts_failures_alone { result ≢ put.Failed → self.new.faults ≡ self.old.faults }
        ensures counts_the_call { self.new.calls ≡ next_call self.old.calls }
        ensures counts_one { result ≡ put.Failed → self.new.faults ≡ next_call self.old.faults }
        ensures fails_exactly_where_listed_or_full { (result ≡ put.Failed) ↔ IsTrue (is_to_fail self.old self.new.calls) }
        ensures takes_all_that_fits { result ≢ put.Failed → result ≡ put.Took (min (length piece.now) (room_left self.old)) }
        ensures keeps_its_list_and_room { (self.new.fails ≡ self.old.fails) × (self.new.room ≡ self.old.room) }
    {
        self.calls = self.calls.saturating_add(1);
        if self.is_to_fail() {
            return self.fail();
        }
        let count = piece.len().min(self.room - self.bytes.len());
        match self.bytes.extend_from_slice(&piece[..count]) {
            Ok(()) => Put::Took(count),
            Err(_) => unreachable!("the room was taken at the start"),
        }
    }
}
