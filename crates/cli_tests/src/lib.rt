//! Tests of the program's answers, over what `ael_commands` offers: reads and writes that fail at each place of a call, what
//! words are read to, and what no call of the program shows. They are a crate of their own, since a crate with tests is proved
//! twice. What calls of the program print is in the tables of `examples/rows`.
#![tactic(auto)]

#[cfg(test)]
mod tests;
