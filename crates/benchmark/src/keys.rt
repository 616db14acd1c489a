//! The keys of a tree, by the words of a seed.

ghost use Rattle.std.specs.Prelude.{◌≡◌, ◌≤◌, ◌^◌};
ghost use Rattle.rand_xoshiro.specs.SplitMix64.{mix_u64, next_state};
ghost use Rattle.benchmark.specs.Text.{keys_by, seed_behind};

use rand_core::SeedableRng;
use rand_core::utils::NextWord;
use rand_xoshiro::SplitMix64;

/// How many mutators the text has.
pub const MUTATORS: u8 = 4;

/// The keys of a tree: the first, and what is added to five times a key for the next one, modulo how many keys
/// there are.
#[derive(Clone, Copy, Debug, PartialEq, Eq)]
pub struct Keys {
    pub first: u64,
    pub addend: u64,
}

impl Keys {
    /// The keys that the next two words give.
    pub fn draw(words: &mut SplitMix64, count: u32) -> Keys
        requires { 2 ≤ count }
        ensures keys { result ≡ keys_by count (mix_u64 words.old).0 (mix_u64 (next_state words.old)).0 }
        ensures later { words.new ≡ next_state (next_state words.old) }
    {
        Keys {
            first: words.next_word() % u64::from(count),
            addend: 2 * (words.next_word() % u64::from(count / 2)) + 1,
        }
    }
}

/// How many keys a tree of this depth has.
#[tactic(auto, using(crate::proofs::Bounds::pow_from_1_to_9))]
pub fn key_count(depth: u32) -> u32
    requires some { 1 ≤ depth }
    requires few { depth ≤ 9 }
    ensures exact { result ≡ 2 ^ depth }
    ensures some { 2 ≤ result }
    ensures few { result ≤ 512 }
{
    2u32.pow(depth)
}

/// The seed whose words are those that the text doesn't take.
#[tactic(auto, using(crate::proofs::SeedWords::iterate_two))]
pub fn seed_behind(seed: u64) -> u64
    ensures { result ≡ seed_behind seed }
{
    let mut words = SplitMix64::seed_from_u64(seed);
    for _ in 0..MUTATORS {
        let _ = words.next_word();
        let _ = words.next_word();
    }
    u64::from_le_bytes(words.state())
}
