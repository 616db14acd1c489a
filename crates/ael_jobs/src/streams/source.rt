//! Where bytes come from.

ghost use Rattle.std.specs.Prelude.{◌≡◌, ◌≢◌, ◌<◌, ◌≤◌, ℕ, List, Option, length};
ghost use Rattle.ael_jobs.specs.Streams.Stream.{Reads, Rose};
ghost use Rattle.ael_jobs.specs.declared.streams.source.Got.TheVariants.{Failed};

/// What a read gives.
#[derive(Clone, Copy, Debug, PartialEq, Eq)]
pub enum Got {
    /// So many bytes, at least one, now stand at the buffer's front.
    Bytes(usize),
    /// There are no more bytes.
    End,
    /// The read failed, and what was to come is still to come.
    Failed,
}

/// Bytes from outside, in pieces.
pub trait Source {
    /// The bytes still to come, where the source tells them.
    ghost left: { Self → Option (List ℕ) };

    /// How often it has failed, a count that stands still at 2^64 - 1.
    ghost faults: { Self → ℕ };

    /// Reads some bytes into the front of `buf`.
    fn read(&mut self, buf: &mut [u8]) -> Got
        requires { 0 < length buf.old }
        ensures bytes { Reads (left self.old) result buf.new (left self.new) }
        ensures never_falls { faults self.old ≤ faults self.new }
        ensures fails_only_if_the_count_rose { result ≡ Failed → Rose (faults self.old) (faults self.new) }
        ensures counts_failures_alone { result ≢ Failed → faults self.new ≡ faults self.old };
}
