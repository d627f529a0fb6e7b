//! The tests of `fx_lines`: how a source is cut into lines. What lines say is told by rows of the program `rows`.
#![tactic(auto)]

#[cfg(test)]
mod lines;
