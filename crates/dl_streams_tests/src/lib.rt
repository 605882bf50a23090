//! The tests of sources and sinks, on values worked by hand: this crate holds nothing else.
#![tactic(auto)]

#[cfg(test)]
mod tests;
