//! The tests of `fx_run`, by a machine that numbers lines. They stand beside that crate, as a crate's own tests prove all its
//! functions again.
#![tactic(auto)]

#[cfg(test)]
mod numbers;
#[cfg(test)]
mod runs;
