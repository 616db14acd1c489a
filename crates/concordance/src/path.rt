//! The path on which a word's entry is found.

ghost use Rattle.std.specs.Prelude.{◌≡◌};
ghost use Rattle.concordance.specs.Notes.Paths.{bits_of, doubled, is_high};

use std::marker::Model;

/// The multiplier of the 64-bit generator of Knuth's MMIX.
pub(crate) const MULTIPLIER: u64 = 6_364_136_223_846_793_005;

/// The highest bit.
pub(crate) const HIGHEST: u64 = 1 << 63;

/// The turns on the path to a word's entry, one for each bit of a number that its letters make, the highest first; after these all are
/// to the left. Most words part early, whatever their order; only cost depends on it.
#[derive(Drop)]
pub(crate) struct Path {
    bits: u64,
}

impl Model for Path {
    ghost use Rattle.std.specs.Prelude.{ℕ};

    ghost Value = { ℕ };

    ghost view = { λ p. p.bits };
}

impl Path {
    pub(crate) fn new(word: &[u8]) -> Path
        ensures { result ≡ bits_of word.now }
    {
        let mut bits: u64 = 0;
        for letter in word {
            bits = bits
                .wrapping_add(u64::from(*letter))
                .wrapping_mul(MULTIPLIER);
        }
        Path { bits }
    }

    /// Whether the next turn is to the right.
    pub(crate) fn turns_right(&mut self) -> bool
        ensures turn { result ≡ is_high self.old }
        ensures next { self.new ≡ doubled self.old }
    {
        let is_right = self.bits >= HIGHEST;
        self.bits = self.bits.wrapping_add(self.bits);
        is_right
    }
}
