//! The tests of whole calls: those of `run` over sources and sinks in memory, each failing read and
//! write, each prefix of a text, and the limits. The values were worked apart from the program.
#![tactic(auto)]

#[cfg(test)]
mod tests;
