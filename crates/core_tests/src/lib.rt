//! Tests of a core whose workers are stepped in chosen orders, over what `gc_core` offers. They are a crate of their own,
//! since a crate with tests is proved twice.
#![tactic(auto)]

#[cfg(test)]
mod acts;
#[cfg(test)]
mod asserting;
#[cfg(test)]
mod cells;
#[cfg(test)]
mod checkpoints;
#[cfg(test)]
mod claims;
#[cfg(test)]
mod copies;
#[cfg(test)]
mod exchanges;
#[cfg(test)]
mod faults;
#[cfg(test)]
mod growing;
#[cfg(test)]
mod pace;
#[cfg(test)]
mod requests;
#[cfg(test)]
mod rows;
#[cfg(test)]
mod sleeping;
#[cfg(test)]
mod stepping;
#[cfg(test)]
mod telling;
