//! Tests of the heap for runtimes, over what `ael_runtime` offers. They are a crate of their own, since a crate with tests is
//! proved twice.
#![tactic(auto)]

#[cfg(test)]
mod asserting;
#[cfg(test)]
mod board;
#[cfg(test)]
mod costs;
#[cfg(test)]
mod ends;
#[cfg(test)]
mod frames;
#[cfg(test)]
mod heaps;
#[cfg(test)]
mod records;
#[cfg(test)]
mod roots;
#[cfg(test)]
mod safepoints;
#[cfg(test)]
mod steps;
