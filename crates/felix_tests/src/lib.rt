//! The tests of `felix_replay` that no row of the examples can hold.
#![tactic(auto)]

#[cfg(test)]
mod tests;
