//! Tests of the heap on threads, over what `ael_threads` offers. They are a crate of their own, since a crate with tests is
//! proved twice.
#![tactic(auto)]

#[cfg(test)]
mod asserting;
#[cfg(test)]
mod calling;
#[cfg(test)]
mod gathering;
#[cfg(test)]
mod heaps;
#[cfg(test)]
mod keeping;
#[cfg(test)]
mod programs;
#[cfg(test)]
mod refusing;
#[cfg(test)]
mod resting;
#[cfg(test)]
mod scanning;
#[cfg(test)]
mod signs;
#[cfg(test)]
mod snapping;
#[cfg(test)]
mod turns;
#[cfg(test)]
mod two_threads;
