//! The steps of severities on values worked by hand: tests alone.
#![tactic(auto)]

#[cfg(test)]
mod tests;
