//! Where bytes go.

ghost use Rattle.std.specs.Prelude.{◌≡◌, ◌≢◌, ◌<◌, ◌≤◌, ℕ, List, Option, length};
ghost use Rattle.ael_jobs.specs.Streams.Stream.{Writes, Rose};
ghost use Rattle.ael_jobs.specs.declared.streams.sink.Put.TheVariants.{Failed};

/// What became of a piece that was written.
#[derive(Clone, Copy, Debug, PartialEq, Eq)]
pub enum Put {
    /// So many of its first bytes were taken, at least one.
    Took(usize),
    /// The write failed, and nothing was taken.
    Failed,
}

/// A place for bytes, which takes them in pieces.
pub trait Sink {
    /// The bytes taken so far, where the sink tells them.
    ghost held: { Self → Option (List ℕ) };

    /// How often it has failed, a count that stands still at 2^64 - 1.
    ghost faults: { Self → ℕ };

    /// Writes the first bytes of `piece`.
    fn write(&mut self, piece: &[u8]) -> Put
        requires { 0 < length piece.now }
        ensures bytes { Writes (held self.old) result piece.now (held self.new) }
        ensures never_falls { faults self.old ≤ faults self.new }
        ensures fails_only_if_the_count_rose { result ≡ Failed → Rose (faults self.old) (faults self.new) }
        ensures counts_failures_alone { result ≢ Failed → faults self.new ≡ faults self.old };
}
