//! The tests of `fx_sequencer`: in which order messages come.
#![tactic(auto)]

#[cfg(test)]
mod tests;
#[cfg(test)]
mod values;
#[cfg(test)]
mod wanting;
