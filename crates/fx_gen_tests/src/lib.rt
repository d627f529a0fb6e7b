//! The tests of `fx_gen`: lines that are drawn from a seed.
#![tactic(auto)]

#[cfg(test)]
mod tests;
