//! Tests of the crates below the core, over what each offers: words and their formats, the assembler, the plain machine, the
//! text part of a concordance, and machines over plain words. They are a crate of their own, since a crate with tests is proved
//! twice. A machine whose `take` asks what only the heap's invariant knows of a word can't be driven by a proved test; the worked
//! rows of its crate are proved in its place.
#![tactic(auto)]

#[cfg(test)]
mod asserting;
#[cfg(test)]
mod atomic_steps;
#[cfg(test)]
mod checkpoints;
#[cfg(test)]
mod claiming;
#[cfg(test)]
mod copying;
#[cfg(test)]
mod ends;
#[cfg(test)]
mod first_words;
#[cfg(test)]
mod memory;
#[cfg(test)]
mod plain_runs;
#[cfg(test)]
mod protection;
#[cfg(test)]
mod scanning;
#[cfg(test)]
mod tagged_words;
#[cfg(test)]
mod texts;
#[cfg(test)]
mod walking;
