//! The tests of `fx_names`: names of chains and sets, and who holds them.
#![tactic(auto)]

#[cfg(test)]
mod names;
#[cfg(test)]
mod registry;
