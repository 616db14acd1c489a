//! The text.

ghost use Rattle.std.specs.Prelude.{◌≡◌, ◌++◌, ◌<◌, ◌≤◌, ◌^◌, IfOk, OnOk, length, string_bytes};
ghost use Rattle.benchmark.specs.Text.{bench_text, section_text};

use crate::keys::{Keys, MUTATORS, key_count};
use mutator_asm::NoMemory;
use rand_core::SeedableRng;
use rand_xoshiro::SplitMix64;
use std::alloc::Global;

/// Adds the section of a mutator.
#[tactic(auto, unfolding(crate::specs::Text::section_text))]
fn push_section(out: &mut String, count: u32, keys: Keys) -> Result<(), NoMemory>
    ensures { OnOk result (string_bytes out.new ≡ string_bytes out.old ++ section_text count keys) }
{
    let Keys { first, addend } = keys;
    write!(
        out,
        ".mutator\nli r7 1\nli r0 0\nli r1 {first}\nli r2 {count}\n\
        ins: raw r3 47\nnew r3 3\nst r3 0 r1\njz r0 root\nmov r4 r0\n\
        down: ld r5 r4 0\nlt r5 r1 r5\njz r5 right\nld r6 r4 1\njz r6 putl\nmov r4 r6\njmp down\n\
        putl: st r4 1 r3\njmp next\n\
        right: ld r6 r4 2\njz r6 putr\nmov r4 r6\njmp down\n\
        putr: st r4 2 r3\njmp next\n\
        root: mov r0 r3\n\
        next: li r5 5\nmul r1 r1 r5\nli r5 {addend}\nadd r1 r1 r5\nli r5 {count}\nrem r1 r1 r5\nsub r2 r2 r7\njz r2 look\njmp ins\n\
        look: li r2 {count}\nli r3 0\n\
        find: mov r4 r0\n\
        seek: isp r5 r4\njz r5 step\nld r5 r4 0\neq r6 r5 r1\njz r6 on\nadd r3 r3 r7\njmp step\n\
        on: lt r6 r1 r5\njz r6 hi\nld r4 r4 1\njmp seek\n\
        hi: ld r4 r4 2\njmp seek\n\
        step: li r5 5\nmul r1 r1 r5\nli r5 {addend}\nadd r1 r1 r5\nli r5 {count}\nrem r1 r1 r5\nsub r2 r2 r7\njz r2 tell\njmp find\n\
        tell: out r3\nhalt\n"
    )?;
    Ok(())
}

/// The text for trees of this depth, whose keys the seed gives.
pub fn bench_text(alloc: Global, depth: u32, seed: u64) -> Result<Vec<u8>, NoMemory>
    requires some { 1 ≤ depth }
    requires few { depth ≤ 9 }
    ensures exact { IfOk result (λ text. text.items ≡ bench_text depth seed) }
    ensures short { IfOk result (λ text. length text.items < 2 ^ 31) }
{
    let count = key_count(depth);
    let mut words = SplitMix64::seed_from_u64(seed);
    let mut out = String::new(alloc);
    for _ in 0..MUTATORS {
        push_section(&mut out, count, Keys::draw(&mut words, count))?;
    }
    Ok(out.into_bytes())
}
