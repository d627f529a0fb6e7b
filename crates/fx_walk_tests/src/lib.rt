//! The tests of `fx_walk`: for which packets each match holds, and what becomes of these and of their path.
#![tactic(auto)]

#[cfg(test)]
mod asked;
#[cfg(test)]
mod tests;
