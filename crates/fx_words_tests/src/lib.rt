//! The tests of `fx_words`: the words of the command line.
#![tactic(auto)]

#[cfg(test)]
mod tests;
