//! Sizes that two crates name, neither of which stands on the other, are equal.

/// There are as many numbers for words as the language has.
const _: () = prove!(heap_words::NUMBERS == plain_state::NUMBERS);

/// A page has as many words for the language as in the table.
const _: () = prove!(space_map::PAGE_WORDS as usize == plain_state::PAGE_WORDS);

/// A heap takes as many mutators as a program has.
const _: () = prove!(space_map::MOST_MUTATORS as usize == plain_state::MOST_MUTATORS);

/// A heap has as many scanners as a schedule may name.
const _: () = prove!(space_map::MOST_SCANNERS as usize == plain_state::MOST_SCANNERS);
