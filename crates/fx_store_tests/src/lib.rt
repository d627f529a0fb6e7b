//! The tests of `fx_store`: each call once, and how a clash reads.
#![tactic(auto)]

#[cfg(test)]
mod tests;
