//! The tests of `fx_stdio`. They stand beside that crate, as a crate's own tests prove all its functions again.
#![tactic(auto)]

#[cfg(test)]
mod adapters;
#[cfg(test)]
mod environment;
